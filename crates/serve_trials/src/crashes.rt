//! What crashes leave of files: after each of the calls of a disk, with each choice of what stands where nothing is settled.

use crate::outside::Outside;
use memory_disk::{Choice, MemoryDisk};
use nmc_base::NoMemory;
use std::alloc::Global;
use std::mem;

/// What is tried over files that a crash left.
pub(crate) trait Crashed {
    /// Whether what comes of the files that a crash after so many calls left is right.
    fn is_right(&self, alloc: Global, after: &mut Outside, calls: usize) -> Result<bool, NoMemory>;
}

static CHOICES: [Choice; 5] = [
    Choice::Old,
    Choice::New,
    Choice::Fill(0),
    Choice::Fill(1),
    Choice::Fill(255),
];

/// A crash after so many calls, with this choice.
fn is_right_after<T: Crashed>(
    tried: &T,
    alloc: Global,
    disk: &MemoryDisk,
    after: &mut Outside,
    calls: usize,
    choice: Choice,
) -> Result<bool, NoMemory> {
    after.disk = disk.image(alloc, calls, choice)?;
    tried.is_right(alloc, after, calls)
}

/// With each choice.
fn is_right_by_each<T: Crashed>(
    tried: &T,
    alloc: Global,
    disk: &MemoryDisk,
    after: &mut Outside,
    calls: usize,
) -> Result<bool, NoMemory> {
    for choice in &CHOICES {
        if !is_right_after(tried, alloc, disk, after, calls, *choice)? {
            return Ok(false);
        }
    }
    Ok(true)
}

/// Each crash of this disk, after `from` calls or more, and fewer than `to`.
fn is_right_always<T: Crashed>(
    tried: &T,
    alloc: Global,
    disk: &MemoryDisk,
    after: &mut Outside,
    from: usize,
    to: usize,
) -> Result<bool, NoMemory> {
    for calls in from..to {
        if !is_right_by_each(tried, alloc, disk, after, calls)? {
            return Ok(false);
        }
    }
    Ok(true)
}

/// Each crash of the disk, after `from` calls or more, and fewer than `to`. The files are then those that the last left.
pub(crate) fn is_right_wherever<T: Crashed>(
    tried: &T,
    alloc: Global,
    after: &mut Outside,
    from: usize,
    to: usize,
) -> Result<bool, NoMemory> {
    let disk = mem::replace(&mut after.disk, MemoryDisk::new(alloc, &[])?);
    is_right_always(tried, alloc, &disk, after, from, to)
}
