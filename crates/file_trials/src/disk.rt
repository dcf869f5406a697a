//! A disk in memory whose calls fail in turn.

use crate::comparing::{ends, is_right_or_unknown};
use disk_model::{Disk, Failed};
use memory_disk::{Choice, MemoryDisk};
use std::alloc::Global;

/// Writes `hello` to file 1, syncs it, writes `XY` over its end and past it, and cuts the file to 3 bytes. The number of the
/// first of these calls that failed, or 0.
fn first_failure(disk: &mut MemoryDisk) -> u64 {
    if disk.write_at(1, 0, b"hello").is_err() {
        return 1;
    }
    if disk.sync(1).is_err() {
        return 2;
    }
    if disk.write_at(1, 4, b"XY").is_err() {
        return 3;
    }
    if disk.cut(1, 3).is_err() { 4 } else { 0 }
}

/// What is filled where this call was the first that failed.
fn filled_at(failed: u64) -> &'static [u8] {
    match failed {
        1 | 2 => b".....",
        3 => b"hell..",
        _ => b"hel...",
    }
}

/// Whether these are the bytes of file 1.
fn shows(disk: &mut MemoryDisk, bytes: &[u8]) -> Result<bool, Failed> {
    let mut buf = [0; 16];
    let count = disk.read(1, 0, &mut buf)?;
    let len = disk.len(1)?;
    Ok(len == bytes.len() as u64 && &buf[..count] == bytes)
}

/// Whether file 1 is filled so. None where there was no memory to say so.
fn is_filled(alloc: Global, disk: &MemoryDisk, filled: &[u8]) -> Option<bool> {
    let mut image = disk.image(alloc, 99, Choice::Fill(b'.')).ok()?;
    shows(&mut image, filled).ok()
}

/// Which of the calls failed, or 0, and whether each byte that they touched is filled then. None where there was no memory to
/// say so.
fn filled(alloc: Global, disk: &mut MemoryDisk) -> Option<(u64, bool)> {
    let failed = first_failure(disk);
    let is_right = is_filled(alloc, disk, filled_at(failed))?;
    Some((failed, is_right))
}

fn with_any_memory(alloc: Global) -> Option<(u64, bool)> {
    let mut disk = MemoryDisk::new(alloc, &[]).ok()?;
    filled(alloc, &mut disk)
}

// `checks/failing_trials_table` runs these two with each allocation failing in turn: the first passes
// whichever it is, and the second where there is none.
#[test]
fn a_call_without_memory_touched_what_it_named(rt: HostRuntime) {
    is_right_or_unknown(&rt, with_any_memory(rt.alloc()));
}

#[test]
fn with_memory_no_call_fails(rt: HostRuntime) {
    ends(&rt, with_any_memory(rt.alloc()), 0);
}
