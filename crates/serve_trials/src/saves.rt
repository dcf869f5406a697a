//! Saves: their replies, the files opened again behind them and their bytes, each stop of the disk meanwhile, and each of its calls
//! failing.

ghost use Rattle.std.specs.Prelude.{◌<◌};

use crate::courses::{EachCall, EachStop};
use crate::feed::FEED;
use crate::outside::{INIT, Outside, Trial, each_is_right, end_of, is_right_by, is_told_by};
use crate::stops::has;
use crate::texts::{bytes_of, field, number_or};
use bridge_core::Status;
use byte_io::Polled;
use memory_disk::MemoryDisk;
use memory_io::MemoryPort;
use nmc_base::{Bytes, NoMemory};
use std::alloc::Global;
use std::test::Fail;

/// Whether a replay of the input is answered with this.
fn is_answered(
    alloc: Global,
    outside: &mut Outside,
    input: &str,
    output: &str,
) -> Result<bool, NoMemory> {
    is_told_by(alloc, outside, "replay", input, output)
}

// ---- replies

/// Three replays over the same files: of each its input, and what it is answered with.
static REPLAYS: &str = "\
save save | saved 0100000000000000 saved 0200000000000000 | first save | accepted saved 0300000000000000 | first back | not-on-tip base
first save | accepted saved 0100000000000000 | first save back save | not-on-tip saved 0200000000000000 base saved 0300000000000000 | first 030c000000 asked save | accepted 000c000000 told saved 0400000000000000
first back save first | accepted base saved 0100000000000000 accepted | save back | saved 0200000000000000 base | back first | at-base accepted
";

struct Replayed;

impl Trial for Replayed {
    fn is_right(alloc: Global, outside: &mut Outside, row: &str) -> Result<bool, NoMemory> {
        let mut is_so = end_of(alloc, outside, INIT) == Status::Done;
        for place in 0..3 {
            let (input, output) = (field(row, 2 * place), field(row, 2 * place + 1));
            is_so = is_so && is_answered(alloc, outside, input, output)?;
        }
        Ok(is_so)
    }
}

#[test]
fn saves_are_numbered_and_opened_again(rt: HostRuntime) -> Result<(), Fail> {
    each_is_right::<Replayed>(&rt, rt.alloc(), REPLAYS)?;
    Ok(())
}

// ---- names

/// A port that brings 13 blocks, in which a name is registered.
fn port_with_feed(alloc: Global) -> Result<MemoryPort, NoMemory> {
    let mut port = MemoryPort::new(alloc, &[])?;
    port.add(Polled::Feed { len: FEED.len() }, &FEED)?;
    Ok(port)
}

/// New files with the name.
pub(crate) fn is_named(alloc: Global, outside: &mut Outside) -> Result<bool, NoMemory> {
    outside.port = port_with_feed(alloc)?;
    let is_made = end_of(alloc, outside, INIT) == Status::Done;
    Ok(is_made && end_of(alloc, outside, "serve 53 8336 1") == Status::Done)
}

/// The report of the files.
fn report_of(alloc: Global, outside: &mut Outside) -> Result<Bytes, NoMemory> {
    outside.begin(alloc, "whole", "whole", "")?;
    let _ = end_of(alloc, outside, "dump");
    Bytes::copy_of(alloc, outside.sink.bytes())
}

struct Reported;

impl Trial for Reported {
    fn is_right(alloc: Global, outside: &mut Outside, row: &str) -> Result<bool, NoMemory> {
        let is_named = is_named(alloc, outside)?;
        let before = report_of(alloc, outside)?;
        let is_saved = is_answered(alloc, outside, field(row, 0), field(row, 1))?;
        let behind = report_of(alloc, outside)?;
        let is_same = before.as_slice() == behind.as_slice() && before.as_slice().len() > 100;
        Ok(is_named && is_saved && is_same)
    }
}

#[test]
fn a_saved_name_is_reported_as_before(rt: HostRuntime) -> Result<(), Fail> {
    each_is_right::<Reported>(&rt, rt.alloc(), "save | saved 0100000000000000")?;
    Ok(())
}

// ---- bytes

/// Replays over new files, and what the files have then: the input, what it is answered with, the length of each file, and its bytes. A
/// selection stands behind the header for each save. Behind the first save, the disconnect of the block and its return have their records
/// there, behind the image; a second save goes to file 1.
static FILES: &str = "\
first save back first | accepted saved 0100000000000000 base accepted | 65 300 432 | 014e4d43494458310a0100000000 zeros 0b6e732e6578616d706c652e 010100000002 00 | 0000000000000000 011e01000001 block 00 | 5e00000000000000 4e4d4349020100000000 zeros 01000000 hash 0000000000000000 0000000000000000 012100000002 hash 011e01000001 block 00
first save save | accepted saved 0100000000000000 saved 0200000000000000 | 71 103 103 | 014e4d43494458310a0100000000 zeros 0b6e732e6578616d706c652e 010100000002 010100000001 00 | 5e00000000000000 4e4d4349020100000000 zeros 01000000 hash 0000000000000000 0000000000000000 00 | 5e00000000000000 4e4d4349020100000000 zeros 01000000 hash 0000000000000000 0000000000000000 00
";

/// Whether the file has the length and the bytes that the row tells.
fn is_file(alloc: Global, disk: &mut MemoryDisk, file: u8, row: &str) -> Result<bool, NoMemory>
    requires { file < 3 }
{
    let bytes = bytes_of(alloc, field(row, 3 + file as usize))?;
    let length = field(row, 2).split(' ').nth(file as usize).unwrap_or("");
    Ok(number_or(length, 0) == bytes.len() as u64 && has(disk, file, &bytes))
}

struct Filed;

impl Trial for Filed {
    fn is_right(alloc: Global, outside: &mut Outside, row: &str) -> Result<bool, NoMemory> {
        let is_made = end_of(alloc, outside, INIT) == Status::Done;
        let mut is_so = is_made && is_answered(alloc, outside, field(row, 0), field(row, 1))?;
        for file in 0..3u8 {
            is_so = is_so && is_file(alloc, &mut outside.disk, file, row)?;
        }
        Ok(is_so)
    }
}

#[test]
fn files_behind_saves_have_these_lengths_and_bytes(rt: HostRuntime) -> Result<(), Fail> {
    each_is_right::<Filed>(&rt, rt.alloc(), FILES)?;
    Ok(())
}

// ---- stops and failing calls

/// Three saves, with a disconnect and a connect between them.
static SAVES: &str = "\
replay | first block | 39
save | saved 0100000000000000 | 10 | not-on-tip saved 0100000000000000 | 1
back | base | 4 | not-on-tip saved 0200000000000000 | 1
save | saved 0200000000000000 | 10 | accepted saved 0200000000000000 | 0
first | accepted | 4 | accepted saved 0300000000000000 | 0
save | saved 0300000000000000 | 10 | not-on-tip saved 0300000000000000 | 1
 |  |  | not-on-tip saved 0400000000000000 | 1";

#[test]
fn opens_as_before_or_saved_wherever_it_stops(rt: HostRuntime) -> Result<(), Fail> {
    is_right_by::<EachStop>(&rt, rt.alloc(), SAVES)?;
    Ok(())
}

/// A save makes ten calls, and where one of them fails the reply is code FD.
#[test]
fn tells_the_call_of_a_save_that_fails(rt: HostRuntime) -> Result<(), Fail> {
    is_right_by::<EachCall>(&rt, rt.alloc(), SAVES)?;
    Ok(())
}
