//! The life of a store, where each call of the disk fails in turn.

use super::life::{Answer, BASE_TIP, Found, leaves_either, lives, look_at};
use memory_disk::MemoryDisk;
use name_store::{CreateFault, OpenFault};
use std::alloc::Global;
use std::process::Abort;
use std::test::Fail;

const NONE: Found = Found::Not(OpenFault::Uninitialised);

const NOT_MADE: Answer = Answer::NotMade(CreateFault::DiskFault);

const NOT_OPENED: Answer = Answer::NotOpened(OpenFault::DiskFault);

/// From the first call that fails to the last: how many of the three commands were done, what the next one got, and the two
/// of which the files are one then.
static FAILURES: [(u64, u64, (u8, Answer), (Found, Found)); 6] = [
    (1, 12, (0, NOT_MADE), (NONE, Found::Base)),
    (13, 22, (1, NOT_OPENED), (Found::Base, Found::Base)),
    (23, 26, (1, Answer::Faulted), (Found::Base, Found::First)),
    (27, 39, (2, NOT_OPENED), (Found::First, Found::First)),
    (40, 43, (2, Answer::Faulted), (Found::First, Found::Base)),
    // no call has this number
    (
        99,
        99,
        (3, Answer::Done(BASE_TIP)),
        (Found::Base, Found::Base),
    ),
];

/// The files of the disk, opened again, are one of two.
fn opens_again(rt: &impl Abort, alloc: Global, disk: &mut MemoryDisk, either: (Found, Found)) {
    let found = look_at(alloc, disk);
    assert!(rt; found == either.0 || found == either.1, "{found:?}");
}

/// The life on the disk ends so; what a crash leaves then is one of two, and so is what is there.
fn ends(
    rt: &impl Abort,
    alloc: Global,
    disk: &mut MemoryDisk,
    end: (u8, Answer),
    either: (Found, Found),
) -> Result<(), Fail> {
    lives(rt, alloc, disk, end);
    leaves_either(rt, alloc, disk, 99, either)?;
    opens_again(rt, alloc, disk, either);
    Ok(())
}

/// On a disk of which this call fails.
fn fails_at(
    rt: &impl Abort,
    alloc: Global,
    call: u64,
    end: (u8, Answer),
    either: (Found, Found),
) -> Result<(), Fail> {
    let mut disk = MemoryDisk::new(alloc, &[call])?;
    ends(rt, alloc, &mut disk, end, either)
}

#[test]
fn each_failing_call_leaves_the_files_before_or_after(rt: HostRuntime) -> Result<(), Fail> {
    for (first, last, end, either) in &FAILURES {
        for call in *first..=*last {
            fails_at(&rt, rt.alloc(), call, *end, *either)?;
        }
    }
    Ok(())
}
