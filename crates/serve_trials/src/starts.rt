//! Files that are made from a snapshot: their bytes, the answer to a query over them, faults of the snapshot, each crash meanwhile, and
//! each call failing.

use crate::crashes::{Crashed, is_right_wherever};
use crate::outside::{INIT, Outside, Trial, each_is_right, end_of, is_told, is_told_by};
use crate::stops::are_files;
use crate::streams::{Given, Pace};
use crate::texts::{bytes_of, field, number_or};
use bridge_core::Status;
use memory_disk::MemoryDisk;
use nmc_base::NoMemory;
use std::alloc::Global;
use std::test::Fail;

/// The words that make files from the snapshot that is read.
static INIT_FROM: &str =
    "init-from main 500000 0000000000000000000000000000000000000000000000000000000000000000 ns.example.";

/// The value of `d/example` at height 499,000.
static ONE: &str = "4e4d43530101000000 aas 0000000053 389d0700 example";

/// Makes the files from this snapshot.
fn make(alloc: Global, outside: &mut Outside, snapshot: &str) -> Result<Status, NoMemory> {
    outside.begin(alloc, "whole", "whole", snapshot)?;
    Ok(end_of(alloc, outside, INIT_FROM))
}

// ---- snapshots

/// Each snapshot, and the line that is told of it. The name is expired in the block on the base at the second height, and not at the
/// third; the others end too early or too late.
static SNAPSHOTS: &str = "\
4e4d43530101000000 aas 0000000053 389d0700 example
4e4d43530101000000 aas 0000000053 81140700 example | bad snapshot at 9
4e4d43530101000000 aas 0000000053 82140700 example
4e4d43530101000000 aas 0000000053 389d0700 09642f6578616d706c65 1000 7b226970223a22312e322e332e3422 | bad snapshot at 77
 | bad snapshot at 0
4e4d43530101000000 aas 0000000053 389d0700 example 00 | bad snapshot at 78
";

static EMPTY: [&str; 3] = ["", "", ""];

struct Told;

impl Trial for Told {
    fn is_right(alloc: Global, outside: &mut Outside, row: &str) -> Result<bool, NoMemory> {
        let status = make(alloc, outside, field(row, 0))?;
        let is_told = is_told(alloc, status, field(row, 1))?;
        Ok(is_told && (status == Status::Done || are_files(alloc, &mut outside.disk, &EMPTY)?))
    }
}

#[test]
fn a_bad_snapshot_makes_no_files(rt: HostRuntime) -> Result<(), Fail> {
    each_is_right::<Told>(&rt, rt.alloc(), SNAPSHOTS)?;
    Ok(())
}

// ---- bytes

/// The header; the image of the index, which has one coin and one name with one item; and nothing.
static FILES: [&str; 3] = [
    "014e4d43494458310a 02 20a10700 zeros 0b6e732e6578616d706c652e 00",
    "b500000000000000 4e4d4349 02 02 20a10700 zeros 00000000 01000000 aas 00000000 02 389d0700 09642f6578616d706c65 01000000 09642f6578616d706c65 01000000 389d0700 389d0700 aas 00000000 1000 7b226970223a22312e322e332e34227d 00",
    "",
];

struct FilesOfOne;

impl Trial for FilesOfOne {
    fn is_right(alloc: Global, outside: &mut Outside, row: &str) -> Result<bool, NoMemory> {
        Ok(
            make(alloc, outside, row)? == Status::Done
                && are_files(alloc, &mut outside.disk, &FILES)?,
        )
    }
}

#[test]
fn files_begin_with_the_image_of_a_start_list(rt: HostRuntime) -> Result<(), Fail> {
    each_is_right::<FilesOfOne>(&rt, rt.alloc(), ONE)?;
    Ok(())
}

// ---- a query

/// A query for the address of `example.bit.` (RFC 1035, 4.1) as a frame, and its reply: code 0, a length of 45, the question, and the
/// address 1.2.3.4.
static QUERY: &str =
    "031d000000 123401000001000000000000 076578616d706c650362697400 00010001 | 002d000000 123485000001000100000000 076578616d706c650362697400 00010001 c00c0001000100000258 000401020304";

struct Asked;

impl Trial for Asked {
    fn is_right(alloc: Global, outside: &mut Outside, row: &str) -> Result<bool, NoMemory> {
        let is_made = make(alloc, outside, ONE)? == Status::Done;
        Ok(is_made && is_told_by(alloc, outside, "replay", field(row, 0), field(row, 1))?)
    }
}

#[test]
fn a_name_of_the_snapshot_is_served(rt: HostRuntime) -> Result<(), Fail> {
    each_is_right::<Asked>(&rt, rt.alloc(), QUERY)?;
    Ok(())
}

// ---- files that were made before

struct Unread;

impl Trial for Unread {
    fn is_right(alloc: Global, outside: &mut Outside, row: &str) -> Result<bool, NoMemory> {
        let is_made = end_of(alloc, outside, INIT) == Status::Done;
        let is_refused = make(alloc, outside, field(row, 0))? == Status::Initialised;
        // The source is as it was: a replay reads all of it.
        let is_read = end_of(alloc, outside, "replay") == Status::Done;
        let output = bytes_of(alloc, field(row, 1))?;
        Ok(is_made && is_refused && is_read && outside.sink.bytes() == output.as_slice())
    }
}

#[test]
fn nothing_is_read_where_the_files_were_made_before(rt: HostRuntime) -> Result<(), Fail> {
    each_is_right::<Unread>(&rt, rt.alloc(), "first | accepted")?;
    Ok(())
}

// ---- crashes

/// So many calls make the files: two lengths of file 0, six for file 1, of which the fourth writes nothing, and four, two and two for
/// file 0.
const MAKING: usize = 16;

static REPORT: &str = "\
tip 500000 0000000000000000000000000000000000000000000000000000000000000000
name 642f6578616d706c65 499000 served 7b226970223a22312e322e332e34227d
  at 499000 since 499000 7b226970223a22312e322e332e34227d
";

/// How a report of the files ends; the sink has it then.
fn report_of(alloc: Global, outside: &mut Outside) -> Result<Status, NoMemory> {
    outside.begin(alloc, "whole", "whole", "")?;
    Ok(end_of(alloc, outside, "dump"))
}

/// The files are made wherever so many calls were made.
#[derive(Clone, Copy)]
struct Begun {
    made: usize,
}

impl Crashed for Begun {
    fn is_right(&self, alloc: Global, after: &mut Outside, calls: usize) -> Result<bool, NoMemory> {
        Ok(match report_of(alloc, after)? {
            Status::Uninitialised => calls < self.made,
            Status::Done => after.sink.bytes() == REPORT.as_bytes(),
            _ => false,
        })
    }
}

struct EachCrash;

impl Trial for EachCrash {
    fn is_right(alloc: Global, outside: &mut Outside, row: &str) -> Result<bool, NoMemory> {
        let tried = Begun { made: MAKING };
        Ok(
            make(alloc, outside, row)? == Status::Done
                && is_right_wherever(&tried, alloc, outside, 0, MAKING + 2)?,
        )
    }
}

#[test]
fn a_crash_leaves_no_files_or_those_of_the_snapshot(rt: HostRuntime) -> Result<(), Fail> {
    each_is_right::<EachCrash>(&rt, rt.alloc(), ONE)?;
    Ok(())
}

// ---- failing calls

/// Makes the files on a disk of which this call fails.
fn make_on(
    alloc: Global,
    outside: &mut Outside,
    snapshot: &str,
    fail: usize,
) -> Result<Status, NoMemory> {
    outside.disk = MemoryDisk::new(alloc, &[fail as u64])?;
    make(alloc, outside, snapshot)
}

/// Whether it ends so where the files are made again of what is left of the source, behind a fault of this call. The first looks at
/// file 0, and the source is as it was then; it was read to its end before each other.
fn is_end_again(call: usize, status: Status) -> bool {
    match status {
        Status::Done => call == 1,
        Status::BadSnapshot { at: 0 } | Status::Initialised => call > 1,
        _ => false,
    }
}

/// Where this call fails. A crash then leaves no files, or those of the snapshot; so does none.
fn fails_at(
    alloc: Global,
    outside: &mut Outside,
    snapshot: &str,
    call: usize,
) -> Result<bool, NoMemory> {
    let is_fault = make_on(alloc, outside, snapshot, call)? == Status::DiskFault;
    let again = end_of(alloc, outside, INIT_FROM);
    let is_reported = match report_of(alloc, outside)? {
        Status::Uninitialised => again == Status::BadSnapshot { at: 0 },
        Status::Done => outside.sink.bytes() == REPORT.as_bytes(),
        _ => false,
    };
    let is_so = is_fault && is_end_again(call, again) && is_reported;
    let tried = Begun { made: MAKING + 1 };
    Ok(is_so && is_right_wherever(&tried, alloc, outside, call, call.saturating_add(1))?)
}

struct EachCall;

impl Trial for EachCall {
    fn is_right(alloc: Global, outside: &mut Outside, row: &str) -> Result<bool, NoMemory> {
        for call in 1..MAKING + 1 {
            if !fails_at(alloc, outside, row, call)? {
                return Ok(false);
            }
        }
        Ok(make_on(alloc, outside, row, MAKING + 1)? == Status::Done)
    }
}

#[test]
fn tells_the_call_of_making_from_a_snapshot_that_fails(rt: HostRuntime) -> Result<(), Fail> {
    each_is_right::<EachCall>(&rt, rt.alloc(), ONE)?;
    Ok(())
}

/// Files that twelve calls made before are looked at by two: the call that fails, the line that is told of it, and what a replay of the
/// source is answered with then. The third is of the replay.
static LOOKS: &str = "\
13 | disk fault | accepted
14 | disk fault | accepted
15 | already initialised | 
";

struct Unseen;

impl Trial for Unseen {
    fn is_right(alloc: Global, outside: &mut Outside, row: &str) -> Result<bool, NoMemory> {
        outside.disk = MemoryDisk::new(alloc, &[number_or(field(row, 0), 0)])?;
        let is_made = end_of(alloc, outside, INIT) == Status::Done;
        let status = make(alloc, outside, "first")?;
        let _ = end_of(alloc, outside, "replay");
        let output = bytes_of(alloc, field(row, 2))?;
        let is_answered = outside.sink.bytes() == output.as_slice();
        Ok(is_made && is_told(alloc, status, field(row, 1))? && is_answered)
    }
}

#[test]
fn nothing_is_read_where_the_look_at_the_files_fails(rt: HostRuntime) -> Result<(), Fail> {
    each_is_right::<Unseen>(&rt, rt.alloc(), LOOKS)?;
    Ok(())
}

/// Byte by byte a snapshot of 78 bytes takes so many reads, of which the last tells that nothing follows.
const READS: u64 = 79;

/// Makes the files of what is read byte by byte, where this read fails.
fn make_of(
    alloc: Global,
    outside: &mut Outside,
    bytes: &[u8],
    fail: u64,
) -> Result<Status, NoMemory> {
    outside.source = Given::new(alloc, bytes, Pace::Byte, fail)?;
    Ok(end_of(alloc, outside, INIT_FROM))
}

struct EachRead;

impl Trial for EachRead {
    fn is_right(alloc: Global, outside: &mut Outside, row: &str) -> Result<bool, NoMemory> {
        let bytes = bytes_of(alloc, row)?;
        for read in 1..READS + 1 {
            let is_told = make_of(alloc, outside, &bytes, read)? == Status::SourceFault;
            if !is_told || !are_files(alloc, &mut outside.disk, &EMPTY)? {
                return Ok(false);
            }
        }
        Ok(make_of(alloc, outside, &bytes, READS + 1)? == Status::Done)
    }
}

#[test]
fn a_read_that_fails_makes_no_files(rt: HostRuntime) -> Result<(), Fail> {
    each_is_right::<EachRead>(&rt, rt.alloc(), ONE)?;
    Ok(())
}
