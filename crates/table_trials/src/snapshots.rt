//! Snapshots, read and refused.

ghost use Rattle.std.specs.Prelude.{◌≡◌, ◌+◌, ◌<◌, ◌^◌, length};

use name_snapshot::{Snapshot, SnapshotFault};
use name_table::Table;
use name_tables::Parts;
use nmc_base::{Base, Hash32, NoMemory, Profile, Steps};
use std::alloc::Global;
use std::cmp;
use std::marker::Brand;
use std::process::Abort;
use std::sync::ledger::{Blank, Ledger};
use std::test::Fail;

/// What is told of `d/example`: the height of its only value, and the height at which its registration began.
type Told = Option<(u32, u32)>;

/// A front of a text in hexadecimal digits, and what is read of it.
struct Row {
    text: &'static str,
    len: usize,
    want: Result<Told, SnapshotFault>,
}

/// A value of `d/example` at height 499,000, and a byte behind it.
const ONE: &str =
    "4e4d43530101000000aaaaaaaaaaaaaaaaaaaaaaaaaaaaaaaaaaaaaaaaaaaaaaaaaaaaaaaaaaaaaaaa0000000053389d070009642f6578616d706c6510007b226970223a22312e322e332e34227d00";

/// The same at height 464,001.
const EXPIRED: &str =
    "4e4d43530101000000aaaaaaaaaaaaaaaaaaaaaaaaaaaaaaaaaaaaaaaaaaaaaaaaaaaaaaaaaaaaaaaa00000000538114070009642f6578616d706c6510007b226970223a22312e322e332e34227d";

/// The same at height 464,002.
const LIVE: &str =
    "4e4d43530101000000aaaaaaaaaaaaaaaaaaaaaaaaaaaaaaaaaaaaaaaaaaaaaaaaaaaaaaaaaaaaaaaa00000000538214070009642f6578616d706c6510007b226970223a22312e322e332e34227d";

static WHOLE: [Row; 1] = [Row {
    text: ONE,
    len: 78,
    want: Ok(Some((499_000, 499_000))),
}];

static HEIGHTS: [Row; 2] = [
    Row {
        text: EXPIRED,
        len: 78,
        want: Err(SnapshotFault::Bad { at: 9 }),
    },
    Row {
        text: LIVE,
        len: 78,
        want: Ok(Some((464_002, 464_002))),
    },
];

static ENDS: [Row; 3] = [
    Row {
        text: ONE,
        len: 77,
        want: Err(SnapshotFault::Bad { at: 77 }),
    },
    Row {
        text: ONE,
        len: 0,
        want: Err(SnapshotFault::Bad { at: 0 }),
    },
    Row {
        text: ONE,
        len: 79,
        want: Err(SnapshotFault::Bad { at: 78 }),
    },
];

/// Feeds the text in pieces of so many bytes.
fn feed(snapshot: &mut Snapshot, text: &[u8], size: usize)
    requires few { snapshot.old.fed + length text.now < 2 ^ 64 }
    requires some { 0 < size }
{
    let mut rest = text;
    while !rest.is_empty() {
        let (piece, more) = rest.split_at(cmp::min(size, rest.len()));
        // A fault stays, so `finish` tells it too.
        let _taken = snapshot.piece(piece);
        rest = more;
    }
}

fn read(alloc: Global, text: &[u8], size: usize) -> Result<Parts, SnapshotFault>
    requires few { length text.now < 2 ^ 63 }
    requires some { 0 < size }
{
    let base = Base {
        profile: Profile::Main,
        height: 500_000,
        hash: Hash32([0; 32]),
    };
    let mut snapshot = Snapshot::new(alloc, &base)?;
    feed(&mut snapshot, text, size);
    snapshot.finish()
}

fn of_name<L: Ledger>(names: &Table, blank: Blank) -> Told
    requires name { blank.name ≡ L.name }
    requires parts { blank.parts ≡ L.parts }
    requires some { 0 < blank.parts }
{
    let mut steps = Steps::<L>::new(blank);
    match names.history(b"d/example", &mut steps) {
        [item] => Some((item.height, item.registered)),
        _ => None,
    }
}

fn told(found: Result<Parts, SnapshotFault>) -> Result<Told, SnapshotFault> {
    match found {
        Ok(parts) => Ok(of_name::<Brand>(&parts.names, Blank::new(1))),
        Err(fault) => Err(fault),
    }
}

/// Whether pieces of so many bytes tell what the row wants, unless memory is wanted.
fn is_told(alloc: Global, row: &Row, size: usize) -> Result<bool, NoMemory>
    requires { 0 < size }
{
    let bytes = match hex::decode(alloc, row.text) {
        Ok(bytes) => bytes,
        Err(_) => return Err(NoMemory),
    };
    let text = match bytes.get(..row.len) {
        Some(text) if text.len() < 100 => text,
        _ => return Ok(false),
    };
    match told(read(alloc, text, size)) {
        Err(SnapshotFault::NoMemory) => Err(NoMemory),
        told => Ok(told == row.want),
    }
}

/// Each row in pieces of one byte, of seven, and whole.
fn are_told(rt: &impl Abort, alloc: Global, rows: &[Row]) -> Result<(), NoMemory> {
    for (i, row) in rows.iter().enumerate() {
        assert!(rt; is_told(alloc, row, 1)?, "row {i} byte by byte");
        assert!(rt; is_told(alloc, row, 7)?, "row {i} in pieces of seven bytes");
        assert!(rt; is_told(alloc, row, 100)?, "row {i} whole");
    }
    Ok(())
}

#[test]
fn a_snapshot_is_read_or_memory_is_wanted(rt: HostRuntime) -> Result<(), Fail> {
    let _told = are_told(&rt, rt.alloc(), &WHOLE);
    Ok(())
}

#[test]
fn a_snapshot_of_one_value(rt: HostRuntime) -> Result<(), Fail> {
    are_told(&rt, rt.alloc(), &WHOLE)?;
    Ok(())
}

#[test]
fn the_lowest_height_of_a_value(rt: HostRuntime) -> Result<(), Fail> {
    are_told(&rt, rt.alloc(), &HEIGHTS)?;
    Ok(())
}

#[test]
fn where_a_snapshot_ends(rt: HostRuntime) -> Result<(), Fail> {
    are_told(&rt, rt.alloc(), &ENDS)?;
    Ok(())
}
