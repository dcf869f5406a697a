//! The files of the first block and a save of it, with each byte of the header's file and of the saved area in turn changed to its
//! complement.

use super::bytes::{HEIGHT, HOST, MAGIC, NETWORK, changed};
use super::files::first_area;
use super::first_block::FIRST_HASH;
use super::life::{Found, finds};
use super::making::HEADER;
use disk_model::{Disk, Failed};
use memory_disk::MemoryDisk;
use name_store::OpenFault;
use nmc_base::{Bytes, NoMemory};
use std::alloc::Global;
use std::process::Abort;
use std::test::Fail;

/// The selection of area 2 behind the header: an open gate, the length 1, the area, and a closed gate.
const SELECTION: &[u8] = b"\x01\x01\x00\x00\x00\x02\x00";

/// The saved area up to the block's hash: the length 94 of the image; its magic, version and network, the base's height and hash,
/// and the number 1 of records.
const FRONT: &[u8] =
    b"\x5e\x00\x00\x00\x00\x00\x00\x00NMCI\x02\x01\x00\x00\x00\x00\x00\x00\x00\x00\x00\x00\x00\x00\x00\x00\x00\x00\x00\x00\x00\x00\x00\x00\x00\x00\x00\x00\x00\x00\x00\x00\x00\x00\x00\x00\x00\x00\x01\x00\x00\x00";

/// No operation and no expired coin; no coin and no name; and a closed gate.
const END: &[u8] = &[0; 17];

const SELECTED: Found = Found::Not(OpenFault::Damaged { file: 0, at: 58 });

/// The base that the image tells is another than the header's.
const BASE: Found = Found::Not(OpenFault::Damaged { file: 2, at: 8 });

/// A number is so great that the image ends before that.
const CUT: Found = Found::Not(OpenFault::Damaged { file: 2, at: 102 });

/// A file, places in it from the first to the last, and what the files are found to be where one of these is changed.
static ROWS: [(u8, usize, usize, Found); 23] = [
    // the header's gate, the magic and the network
    (0, 0, 0, Found::Not(OpenFault::Uninitialised)),
    (0, 1, 8, MAGIC),
    (0, 9, 9, NETWORK),
    // the base's height and hash: a height that is none has a place of its own
    (0, 10, 12, BASE),
    (0, 13, 13, HEIGHT),
    (0, 14, 45, BASE),
    // the host
    (0, 46, 57, HOST),
    // the gate before the selection, which is closed now: area 1 has the block
    (0, 58, 58, Found::First),
    // the selection, and the gate behind it
    (0, 59, 63, SELECTED),
    (0, 64, 64, Found::First),
    // the length of the image
    (2, 0, 7, Found::Not(OpenFault::Damaged { file: 2, at: 0 })),
    // the magic, the version and the network
    (2, 8, 8, Found::Not(OpenFault::Damaged { file: 2, at: 8 })),
    (2, 9, 9, Found::Not(OpenFault::Damaged { file: 2, at: 9 })),
    (
        2,
        10,
        10,
        Found::Not(OpenFault::Damaged { file: 2, at: 10 }),
    ),
    (
        2,
        11,
        11,
        Found::Not(OpenFault::Damaged { file: 2, at: 11 }),
    ),
    (
        2,
        12,
        12,
        Found::Not(OpenFault::Damaged { file: 2, at: 12 }),
    ),
    (
        2,
        13,
        13,
        Found::Not(OpenFault::Damaged { file: 2, at: 13 }),
    ),
    // the base's height and hash
    (2, 14, 49, BASE),
    // the number of records
    (2, 50, 53, CUT),
    // the block's hash: that of another tip
    (2, 54, 85, Found::Other(1)),
    // the numbers of operations, and of expired coins, coins and names
    (
        2,
        86,
        89,
        Found::Not(OpenFault::Damaged { file: 2, at: 90 }),
    ),
    (2, 90, 101, CUT),
    // the gate behind the image
    (2, 102, 102, Found::First),
];

fn header(alloc: Global) -> Result<Bytes, NoMemory> {
    let mut header = Bytes::copy_of(alloc, &HEADER[..58])?;
    header.extend(SELECTION)?;
    Ok(header)
}

fn saved_area(alloc: Global) -> Result<Bytes, NoMemory> {
    let mut area = Bytes::copy_of(alloc, FRONT)?;
    area.extend(&FIRST_HASH)?;
    area.extend(END)?;
    Ok(area)
}

fn write_all(disk: &mut MemoryDisk, files: [&[u8]; 3]) -> Result<(), Failed> {
    disk.write_at(0, 0, files[0])?;
    disk.write_at(1, 0, files[1])?;
    disk.write_at(2, 0, files[2])
}

/// The files are found to be this.
fn are(rt: &impl Abort, alloc: Global, files: [&[u8]; 3], want: Found) -> Result<(), Fail> {
    let mut disk = MemoryDisk::new(alloc, &[])?;
    write_all(&mut disk, files)?;
    finds(rt, alloc, &mut disk, want);
    Ok(())
}

/// The files with one byte changed.
fn are_with(
    rt: &impl Abort,
    alloc: Global,
    files: [&[u8]; 3],
    file: u8,
    place: usize,
    want: Found,
) -> Result<(), Fail> {
    let other = changed(alloc, if file == 0 { files[0] } else { files[2] }, place)?;
    let files = match file {
        0 => [other.as_slice(), files[1], files[2]],
        _ => [files[0], files[1], other.as_slice()],
    };
    are(rt, alloc, files, want)
}

fn each_byte(rt: &impl Abort, alloc: Global, files: [&[u8]; 3]) -> Result<(), Fail> {
    for (file, first, last, want) in &ROWS {
        for place in *first..=*last {
            are_with(rt, alloc, files, *file, place, *want)?;
        }
    }
    Ok(())
}

#[test]
fn each_changed_byte_behind_a_save(rt: HostRuntime) -> Result<(), Fail> {
    let header = header(rt.alloc())?;
    let area = first_area(rt.alloc(), 0)?;
    let saved = saved_area(rt.alloc())?;
    let files = [header.as_slice(), area.as_slice(), saved.as_slice()];
    are(&rt, rt.alloc(), files, Found::First)?;
    each_byte(&rt, rt.alloc(), files)
}
