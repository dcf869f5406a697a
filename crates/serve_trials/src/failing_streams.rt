//! The replay of the first block, read and written byte by byte: each read and each write fails in turn.

use crate::outside::{Outside, Trial, each_is_right, end_of};
use crate::replays::Replayed;
use crate::stops::make;
use crate::streams::{Given, Pace, Taken};
use crate::texts::bytes_of;
use bridge_core::Status;
use nmc_base::NoMemory;
use std::alloc::Global;
use std::test::Fail;

/// The frame has so many bytes, and one read more tells that nothing follows.
const READS: u64 = 291;

/// The reply has so many bytes.
const WRITES: u64 = 41;

/// How a replay of the first block ends of which this read or this write fails, counted from 1; 0 is the number of none.
fn end_where(
    alloc: Global,
    outside: &mut Outside,
    read: u64,
    write: u64,
) -> Result<Status, NoMemory> {
    outside.source = first_block(alloc, read)?;
    outside.sink = Taken::new(alloc, Pace::Byte, write)?;
    Ok(end_of(alloc, outside, "replay"))
}

/// The frame of the first block, of which this read fails.
fn first_block(alloc: Global, read: u64) -> Result<Given, NoMemory> {
    let bytes = bytes_of(alloc, "first")?;
    Given::new(alloc, &bytes, Pace::Byte, read)
}

/// Whether the sink took so many bytes of the reply that accepts the block, and no others.
fn has_taken(alloc: Global, outside: &Outside, count: u64) -> Result<bool, NoMemory> {
    let reply = bytes_of(alloc, "accepted")?;
    Ok(reply.get(..count as usize) == Some(outside.sink.bytes()))
}

/// Where this read fails: the block is answered if it was whole before.
fn fails_to_read(alloc: Global, outside: &mut Outside, read: u64) -> Result<bool, NoMemory> {
    let is_fault = end_where(alloc, outside, read, 0)? == Status::SourceFault;
    Ok(is_fault && has_taken(alloc, outside, if read < READS { 0 } else { WRITES })?)
}

struct EachRead;

impl Trial for EachRead {
    fn is_right(alloc: Global, outside: &mut Outside, _row: &str) -> Result<bool, NoMemory> {
        let mut is_so = make(alloc, outside, 0)? == Status::Done;
        for read in 1..READS + 1 {
            is_so = is_so && fails_to_read(alloc, outside, read)?;
        }
        Ok(is_so)
    }
}

#[test]
fn each_read_that_fails_ends_behind_whole_frames(rt: HostRuntime) -> Result<(), Fail> {
    each_is_right::<EachRead>(&rt, rt.alloc(), "each read")?;
    Ok(())
}

/// Where this write fails, over new files: the bytes before it are taken.
fn fails_to_write(alloc: Global, outside: &mut Outside, write: u64) -> Result<bool, NoMemory> {
    let is_made = make(alloc, outside, 0)? == Status::Done;
    let is_fault = end_where(alloc, outside, 0, write)? == Status::SinkFault;
    Ok(is_made && is_fault && has_taken(alloc, outside, write.saturating_sub(1))?)
}

/// The same where none fails.
fn is_written(alloc: Global, outside: &mut Outside) -> Result<bool, NoMemory> {
    let is_made = make(alloc, outside, 0)? == Status::Done;
    let is_done = end_where(alloc, outside, READS + 1, WRITES + 1)? == Status::Done;
    Ok(is_made && is_done && has_taken(alloc, outside, WRITES)?)
}

struct EachWrite;

impl Trial for EachWrite {
    fn is_right(alloc: Global, outside: &mut Outside, _row: &str) -> Result<bool, NoMemory> {
        let mut is_so = is_written(alloc, outside)?;
        for write in 1..WRITES + 1 {
            is_so = is_so && fails_to_write(alloc, outside, write)?;
        }
        Ok(is_so)
    }
}

#[test]
fn each_write_that_fails_ends_behind_what_was_taken(rt: HostRuntime) -> Result<(), Fail> {
    each_is_right::<EachWrite>(&rt, rt.alloc(), "each write")?;
    Ok(())
}

#[test]
fn a_sink_with_room_for_20_bytes_takes_the_first_20(rt: HostRuntime) -> Result<(), Fail> {
    let row = "whole | room 20 |  | first | accepted | 20 | write fault";
    each_is_right::<Replayed>(&rt, rt.alloc(), row)?;
    Ok(())
}
