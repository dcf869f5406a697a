//! The files of the first block, with each byte in turn changed to its complement.

ghost use Rattle.std.specs.Prelude.{◌<◌};

use super::files::{disk_of, first_area};
use super::life::{Found, finds};
use super::making::HEADER;
use name_store::OpenFault;
use nmc_base::{Bytes, NoMemory};
use std::alloc::Global;
use std::process::Abort;
use std::test::Fail;

pub(super) const MAGIC: Found = Found::Not(OpenFault::Damaged { file: 0, at: 1 });

pub(super) const NETWORK: Found = Found::Not(OpenFault::Damaged { file: 0, at: 9 });

pub(super) const HEIGHT: Found = Found::Not(OpenFault::Damaged { file: 0, at: 10 });

pub(super) const HOST: Found = Found::Not(OpenFault::Damaged { file: 0, at: 47 });

const IMAGE: Found = Found::Not(OpenFault::Damaged { file: 1, at: 0 });

const RECORD: Found = Found::Not(OpenFault::Damaged { file: 1, at: 8 });

/// Places in file 0, from the first to the last, and what the files are found to be where one of them is changed.
static HEADER_ROWS: [(usize, usize, Found); 10] = [
    // its gate
    (0, 0, Found::Not(OpenFault::Uninitialised)),
    // the magic
    (1, 8, MAGIC),
    // the network
    (9, 9, NETWORK),
    // the base's height: the chain stands 255, 65,280 or 16,711,680 higher
    (10, 10, Found::Other(256)),
    (11, 11, Found::Other(65_281)),
    (12, 12, Found::Other(16_711_681)),
    (13, 13, HEIGHT),
    // the base's hash: the block doesn't follow it
    (14, 45, RECORD),
    // the length of the host, and the host
    (46, 57, HOST),
    // the gate behind them, which is as closed as before
    (58, 58, Found::First),
];

/// The same of file 1.
static AREA_ROWS: [(usize, usize, Found); 10] = [
    // the length of the image: 255 bytes that are no image, or more than the file has
    (0, 0, RECORD),
    (1, 7, IMAGE),
    // the gate before the record
    (8, 8, Found::Base),
    // the record's length, and its head
    (9, 13, RECORD),
    // the block's version, whose second byte says then that it is merge-mined
    (14, 14, Found::Other(1)),
    (15, 15, RECORD),
    (16, 17, Found::Other(1)),
    // the previous hash and the Merkle root
    (18, 81, RECORD),
    // time, bits and nonce
    (82, 93, Found::Other(1)),
    // the transactions
    (94, 298, RECORD),
];

/// The bytes with that at this place changed to its complement.
pub(super) fn changed(alloc: Global, bytes: &[u8], place: usize) -> Result<Bytes, NoMemory> {
    let mut copy = Bytes::copy_of(alloc, bytes)?;
    for (at, byte) in copy.as_mut_slice().iter_mut().enumerate() {
        if at == place {
            *byte = !*byte;
        }
    }
    Ok(copy)
}

/// The two files are found to be this.
fn are(
    rt: &impl Abort,
    alloc: Global,
    header: &[u8],
    area: &[u8],
    want: Found,
) -> Result<(), Fail> {
    let mut disk = disk_of(alloc, header, area)?;
    finds(rt, alloc, &mut disk, want);
    Ok(())
}

fn header_at(
    rt: &impl Abort,
    alloc: Global,
    area: &[u8],
    place: usize,
    want: Found,
) -> Result<(), Fail> {
    let header = changed(alloc, &HEADER, place)?;
    are(rt, alloc, header.as_slice(), area, want)
}

fn area_at(
    rt: &impl Abort,
    alloc: Global,
    area: &[u8],
    place: usize,
    want: Found,
) -> Result<(), Fail> {
    let area = changed(alloc, area, place)?;
    are(rt, alloc, &HEADER, area.as_slice(), want)
}

fn each_of_header(rt: &impl Abort, alloc: Global, area: &[u8]) -> Result<(), Fail> {
    for (first, last, want) in &HEADER_ROWS {
        for place in *first..=*last {
            header_at(rt, alloc, area, place, *want)?;
        }
    }
    Ok(())
}

fn each_of_area(rt: &impl Abort, alloc: Global, area: &[u8]) -> Result<(), Fail> {
    for (first, last, want) in &AREA_ROWS {
        for place in *first..=*last {
            area_at(rt, alloc, area, place, *want)?;
        }
    }
    Ok(())
}

#[test]
fn each_changed_byte_of_the_header(rt: HostRuntime) -> Result<(), Fail> {
    let area = first_area(rt.alloc(), 0)?;
    each_of_header(&rt, rt.alloc(), area.as_slice())
}

#[test]
fn each_changed_byte_of_the_area(rt: HostRuntime) -> Result<(), Fail> {
    let area = first_area(rt.alloc(), 0)?;
    each_of_area(&rt, rt.alloc(), area.as_slice())?;
    // the last gate is as closed as before
    area_at(&rt, rt.alloc(), area.as_slice(), 299, Found::First)
}
