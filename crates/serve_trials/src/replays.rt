//! Replays of which a read or a write fails, stands still, or deals with one byte, and those with another limit than the program's.

ghost use Rattle.std.specs.Prelude.{◌≤◌, ◌^◌};

use crate::outside::{INIT, Outside, Trial, each_is_right, end_of, is_told};
use crate::texts::{bytes_of, field, number_or};
use bridge_core::{Status, replay};
use nmc_base::NoMemory;
use std::alloc::Global;
use std::test::Fail;

/// The most bytes that a replay may read.
const MOST: u64 = 1 << 40;

/// Replays over new files: how they are read and written, which read or write fails or how much room there is, the limit where
/// it isn't the greatest, the input, what it is answered with, how many bytes of that are written where it isn't all, and the line.
static STREAMS: &str = "\
bytes | bytes |  | first first | accepted not-on-tip |  | 
whole 1 | whole |  | first first | accepted not-on-tip | 0 | read fault
whole 2 | whole |  | first first | accepted not-on-tip | 78 | read fault
whole 3 | whole |  | first first | accepted not-on-tip | 78 | 
whole | whole 1 |  | first first | accepted not-on-tip | 0 | write fault
whole | whole 2 |  | first first | accepted not-on-tip | 41 | write fault
whole | whole 3 |  | first first | accepted not-on-tip | 78 | 
whole | room 0 |  | first first | accepted not-on-tip | 0 | write fault
whole | room 1 |  | first first | accepted not-on-tip | 1 | write fault
whole | room 40 |  | first first | accepted not-on-tip | 40 | write fault
whole | room 41 |  | first first | accepted not-on-tip | 41 | write fault
whole | room 77 |  | first first | accepted not-on-tip | 77 | write fault
whole | room 78 |  | first first | accepted not-on-tip | 78 | 
whole | bytes 1 |  | first first | accepted not-on-tip | 0 | write fault
whole | bytes 2 |  | first first | accepted not-on-tip | 1 | write fault
whole | bytes 41 |  | first first | accepted not-on-tip | 40 | write fault
whole | bytes 42 |  | first first | accepted not-on-tip | 41 | write fault
whole | bytes 78 |  | first first | accepted not-on-tip | 77 | write fault
whole | bytes 79 |  | first first | accepted not-on-tip | 78 | 
";

/// The same of two frames with blocks of no bytes, where each read of one byte fails in turn.
static READS: &str = "\
bytes 1 | bytes |  | 0100000000 0100000000 |  |  | read fault
bytes 2 | bytes |  | 0100000000 0100000000 |  |  | read fault
bytes 3 | bytes |  | 0100000000 0100000000 |  |  | read fault
bytes 4 | bytes |  | 0100000000 0100000000 |  |  | read fault
bytes 5 | bytes |  | 0100000000 0100000000 |  |  | read fault
bytes 6 | bytes |  | 0100000000 0100000000 | 010400000000000000 |  | read fault
bytes 7 | bytes |  | 0100000000 0100000000 | 010400000000000000 |  | read fault
bytes 8 | bytes |  | 0100000000 0100000000 | 010400000000000000 |  | read fault
bytes 9 | bytes |  | 0100000000 0100000000 | 010400000000000000 |  | read fault
bytes 10 | bytes |  | 0100000000 0100000000 | 010400000000000000 |  | read fault
bytes 11 | bytes |  | 0100000000 0100000000 | 010400000000000000 010400000000000000 |  | read fault
bytes 12 | bytes |  | 0100000000 0100000000 | 010400000000000000 010400000000000000 |  | 
";

/// The same with limits.
static LIMITS: &str = "\
whole | whole | 290 | first first | accepted |  | input limit
whole | whole | 290 | first | accepted |  | input limit
whole | whole | 291 | first | accepted |  | 
whole | whole | 289 | first |  |  | input limit
whole | whole | 0 | first |  |  | input limit
whole | whole | 0 |  |  |  | input limit
whole | whole | 1 | 07 |  |  | bad frame at 0
whole | whole | 1099511627776 | first | accepted |  | 
";

/// Replays by the row over new files.
fn replay_by(alloc: Global, outside: &mut Outside, row: &str) -> Result<Status, NoMemory> {
    outside.begin(alloc, field(row, 0), field(row, 1), field(row, 3))?;
    Ok(replay_up_to(alloc, outside, number_or(field(row, 2), MOST)))
}

fn replay_up_to(alloc: Global, outside: &mut Outside, limit: u64) -> Status {
    let Outside {
        source,
        sink,
        disk,
        ..
    } = outside;
    replay(alloc, source, sink, disk, limit.min(MOST))
}

/// The sink took what the row says.
fn is_taken(alloc: Global, outside: &Outside, row: &str) -> Result<bool, NoMemory> {
    let output = bytes_of(alloc, field(row, 4))?;
    let count = number_or(field(row, 5), output.len() as u64);
    Ok(output.get(..count as usize) == Some(outside.sink.bytes()))
}

pub(crate) struct Replayed;

impl Trial for Replayed {
    fn is_right(alloc: Global, outside: &mut Outside, row: &str) -> Result<bool, NoMemory> {
        if end_of(alloc, outside, INIT) != Status::Done {
            return Ok(false);
        }
        let status = replay_by(alloc, outside, row)?;
        Ok(is_taken(alloc, outside, row)? && is_told(alloc, status, field(row, 6))?)
    }
}

#[test]
fn ends_at_the_call_that_fails(rt: HostRuntime) -> Result<(), Fail> {
    each_is_right::<Replayed>(&rt, rt.alloc(), STREAMS)?;
    Ok(())
}

#[test]
fn answers_whole_frames_before_the_read_that_fails(rt: HostRuntime) -> Result<(), Fail> {
    each_is_right::<Replayed>(&rt, rt.alloc(), READS)?;
    Ok(())
}

#[test]
fn reads_no_further_than_the_limit(rt: HostRuntime) -> Result<(), Fail> {
    each_is_right::<Replayed>(&rt, rt.alloc(), LIMITS)?;
    Ok(())
}
