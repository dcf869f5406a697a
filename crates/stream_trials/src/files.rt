//! A disk over files whose calls do a part of what they are asked for does all of it.

use crate::parts::InParts;
use disk_model::{Disk, Failed};
use memory_disk::MemoryDisk;
use std::process::Abort;
use std::test::Fail;
use system_io::{DiskOf, FilesOf};

/// A read from a position on leaves these bytes in a buffer of 12, and not more.
fn reads<D: Disk>(rt: &impl Abort, disk: &mut D, at: u64, want: &[u8]) -> Result<(), Failed> {
    let mut buf = [0; 12];
    let count = disk.read(1, at, &mut buf)?;
    assert_eq!(rt; count, want.len());
    assert!(rt; buf.starts_with(want));
    Ok(())
}

/// Writes over what is there, and behind it.
fn writes<D: Disk>(rt: &impl Abort, disk: &mut D) -> Result<(), Failed> {
    disk.write_at(1, 0, b"abcdefg")?;
    reads(rt, disk, 0, b"abcdefg")?;
    disk.write_at(1, 0, b"ABCDE")?;
    reads(rt, disk, 2, b"CDEfg")?;
    let end = disk.len(1)?;
    disk.write_at(1, end, b"hijkl")?;
    reads(rt, disk, 0, b"ABCDEfghijkl")?;
    reads(rt, disk, 11, b"l")?;
    reads(rt, disk, 12, b"")
}

#[test]
fn parts_make_a_whole(rt: HostRuntime) -> Result<(), Fail> {
    for most in [1, 2, 3, 5, 64] {
        let files = FilesOf::of(MemoryDisk::new(rt.alloc(), &[])?);
        let mut disk = DiskOf::over(InParts::of(files, most));
        assert!(rt; writes(&rt, &mut disk).is_ok());
    }
    Ok(())
}
