//! The files and the first block in them: their bytes, each stop of the disk, and each of its calls failing.

ghost use Rattle.std.specs.Prelude.{◌<◌};

use crate::crashes::{Crashed, is_right_wherever};
use crate::outside::{INIT, Outside, Trial, each_is_right, end_of};
use crate::texts::bytes_of;
use bridge_core::Status;
use disk_model::{Disk, Failed};
use memory_disk::MemoryDisk;
use nmc_base::NoMemory;
use std::alloc::Global;
use std::test::Fail;

/// So many calls make the files: three for file 1, and a length, four, two and two for file 0.
const MAKING: usize = 12;

/// No run over the files of these tests makes more calls of the disk.
const MANY: usize = 48;

/// What came of a replay of the first block.
#[derive(Clone, Copy, PartialEq, Eq)]
enum Came {
    /// The files aren't made, or not to their end.
    Uninitialised,
    /// The files weren't opened, for a fault of the disk, and nothing was written.
    Unopened,
    /// The reply told a fault of the disk, which ended the replay.
    Faulted,
    /// The block was accepted: it wasn't there before.
    Accepted,
    /// It stood there before.
    NotOnTip,
    Other,
}

fn told_by(status: Status, code: Option<u8>) -> Came {
    match (status, code) {
        (Status::Uninitialised, None) => Came::Uninitialised,
        (Status::DiskFault, None) => Came::Unopened,
        (Status::DiskFault, Some(0xfd)) => Came::Faulted,
        (Status::Done, Some(0)) => Came::Accepted,
        (Status::Done, Some(2)) => Came::NotOnTip,
        _ => Came::Other,
    }
}

/// Replays the first block.
fn replay_first(alloc: Global, outside: &mut Outside) -> Result<Came, NoMemory> {
    outside.begin(alloc, "whole", "whole", "first")?;
    let status = end_of(alloc, outside, "replay");
    Ok(told_by(status, outside.sink.bytes().first().copied()))
}

/// New files with the first block, on a disk of which this call fails; 0 is the number of none.
pub(crate) fn make(alloc: Global, outside: &mut Outside, fail: u64) -> Result<Status, NoMemory> {
    outside.disk = MemoryDisk::new(alloc, &[fail])?;
    Ok(end_of(alloc, outside, INIT))
}

/// The same where none fails.
fn is_made(alloc: Global, outside: &mut Outside) -> Result<bool, NoMemory> {
    Ok(make(alloc, outside, 0)? == Status::Done && replay_first(alloc, outside)? == Came::Accepted)
}

// ---- stops

/// Whether files that were stopped after so many calls may be those of which this comes: before they were made to their end, or
/// with the block or without it; and behind all calls with it.
fn is_right(calls: usize, came: Came) -> bool {
    match came {
        Came::Uninitialised => calls < MAKING,
        Came::Accepted => calls < MANY,
        Came::NotOnTip => MAKING < calls,
        _ => false,
    }
}

struct Replayed;

impl Crashed for Replayed {
    fn is_right(&self, alloc: Global, after: &mut Outside, calls: usize) -> Result<bool, NoMemory> {
        Ok(is_right(calls, replay_first(alloc, after)?))
    }
}

struct EachStop;

impl Trial for EachStop {
    fn is_right(alloc: Global, outside: &mut Outside, _row: &str) -> Result<bool, NoMemory> {
        Ok(is_made(alloc, outside)? && is_right_wherever(&Replayed, alloc, outside, 0, MANY + 1)?)
    }
}

#[test]
fn opens_as_before_or_after_wherever_it_stops(rt: HostRuntime) -> Result<(), Fail> {
    each_is_right::<EachStop>(&rt, rt.alloc(), "each stop")?;
    Ok(())
}

// ---- failing calls

/// Where this call fails. The files open again then, and the replay goes on.
fn fails_at(alloc: Global, outside: &mut Outside, call: u64) -> Result<Came, NoMemory> {
    if make(alloc, outside, call)? != Status::Done {
        return Ok(Came::Other);
    }
    let came = replay_first(alloc, outside)?;
    if came == Came::Accepted {
        return Ok(came);
    }
    match replay_first(alloc, outside)? {
        Came::Accepted | Came::NotOnTip => Ok(came),
        _ => Ok(Came::Other),
    }
}

/// How many calls fail before the files are open, and how many in the command; None where another thing came of one.
fn failing(alloc: Global, outside: &mut Outside) -> Result<Option<(u8, u8)>, NoMemory> {
    let mut unopened = 0u8;
    let mut faulted = 0u8;
    for call in MAKING + 1..MANY {
        match fails_at(alloc, outside, call as u64)? {
            Came::Unopened => unopened = unopened.saturating_add(1),
            Came::Faulted => faulted = faulted.saturating_add(1),
            Came::Accepted => {}
            _ => return Ok(None),
        }
    }
    Ok(Some((unopened, faulted)))
}

struct EachCall;

impl Trial for EachCall {
    fn is_right(alloc: Global, outside: &mut Outside, _row: &str) -> Result<bool, NoMemory> {
        match failing(alloc, outside)? {
            Some((unopened, faulted)) => Ok(unopened > 3 && faulted == 4),
            None => Ok(false),
        }
    }
}

/// A command that is accepted makes two writes and two syncs, and only where one of these fails the reply is code FD.
#[test]
fn tells_the_call_that_fails(rt: HostRuntime) -> Result<(), Fail> {
    each_is_right::<EachCall>(&rt, rt.alloc(), "each call")?;
    Ok(())
}

struct EachCallOfMaking;

impl Trial for EachCallOfMaking {
    fn is_right(alloc: Global, outside: &mut Outside, _row: &str) -> Result<bool, NoMemory> {
        for call in 1..MAKING + 1 {
            if make(alloc, outside, call as u64)? != Status::DiskFault {
                return Ok(false);
            }
        }
        Ok(true)
    }
}

#[test]
fn tells_the_call_of_making_that_fails(rt: HostRuntime) -> Result<(), Fail> {
    each_is_right::<EachCallOfMaking>(&rt, rt.alloc(), "each call")?;
    Ok(())
}

// ---- bytes

/// The three files with the first block: the header of the base at height 0 on 32 zero bytes, whose host is `ns.example.`, and the
/// closed gate behind it; the block's record; and nothing.
static FILES: [&str; 3] = [
    "014e4d43494458310a0100000000 zeros 0b6e732e6578616d706c652e00",
    "0000000000000000011e01000001 block 00",
    "",
];

/// Whether the file has these bytes, and no more.
pub(crate) fn has(disk: &mut MemoryDisk, file: u8, bytes: &[u8]) -> bool
    requires { file < 3 }
{
    let mut found = [0; 4096];
    match disk.read(file, 0, &mut found) {
        Ok(count) => &found[..count] == bytes,
        Err(Failed) => false,
    }
}

/// Whether the files are these.
pub(crate) fn are_files(
    alloc: Global,
    disk: &mut MemoryDisk,
    files: &[&str; 3],
) -> Result<bool, NoMemory> {
    for file in 0..3u8 {
        let bytes = bytes_of(alloc, files[file as usize])?;
        if !has(disk, file, &bytes) {
            return Ok(false);
        }
    }
    Ok(true)
}

struct FilesOfOneBlock;

impl Trial for FilesOfOneBlock {
    fn is_right(alloc: Global, outside: &mut Outside, _row: &str) -> Result<bool, NoMemory> {
        Ok(is_made(alloc, outside)? && are_files(alloc, &mut outside.disk, &FILES)?)
    }
}

#[test]
fn keeps_the_first_block_in_its_files(rt: HostRuntime) -> Result<(), Fail> {
    each_is_right::<FilesOfOneBlock>(&rt, rt.alloc(), "bytes")?;
    Ok(())
}
