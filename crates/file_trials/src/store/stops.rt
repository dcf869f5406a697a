//! The life of a store, stopped after each call of the disk.

use super::life::{Answer, BASE_TIP, Found, leaves_either, lives};
use memory_disk::MemoryDisk;
use name_store::OpenFault;
use std::alloc::Global;
use std::process::Abort;
use std::test::Fail;

const NONE: Found = Found::Not(OpenFault::Uninitialised);

/// The numbers of calls, from the first of them to the last, and the two of which a stop after so many calls leaves one.
static STOPS: [(usize, usize, Found, Found); 6] = [
    // while the files are made
    (0, 11, NONE, Found::Base),
    // they are made, and opened
    (12, 22, Found::Base, Found::Base),
    // while the block is connected
    (23, 25, Found::Base, Found::First),
    // it is connected, and the files are opened again
    (26, 39, Found::First, Found::First),
    // while it is disconnected
    (40, 42, Found::First, Found::Base),
    // it is disconnected; the last number is above those of all calls
    (43, 44, Found::Base, Found::Base),
];

fn leaves_each(rt: &impl Abort, alloc: Global, disk: &MemoryDisk) -> Result<(), Fail> {
    for (first, last, before, after) in &STOPS {
        for calls in *first..=*last {
            leaves_either(rt, alloc, disk, calls, (*before, *after))?;
        }
    }
    Ok(())
}

#[test]
fn each_stop_leaves_the_files_before_or_after(rt: HostRuntime) -> Result<(), Fail> {
    let mut disk = MemoryDisk::new(rt.alloc(), &[])?;
    lives(&rt, rt.alloc(), &mut disk, (3, Answer::Done(BASE_TIP)));
    leaves_each(&rt, rt.alloc(), &disk)
}
