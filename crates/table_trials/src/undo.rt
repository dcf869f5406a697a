//! Records that undo a block: written, read and refused.

ghost use Rattle.std.specs.Prelude.{IfOk};
ghost use Rattle.chain_names.specs.Seen.{seen_undo};
ghost use Rattle.chain_names.specs.Limits.{IsWithinLimits};

use crate::comparing::same;
use nmc_base::{Bytes, NoMemory};
use std::alloc::Global;
use std::process::Abort;
use std::test::Fail;
use undo_records::{Undo, UndoFault, Version, read, read_v1, write};

/// The length of the text of version 1.
const LEN: usize = 438;

/// The place of the only item's registration height, which has 4 bytes in version 2 and none in version 1.
const REGISTERED_AT: usize = 267;

/// A place of the text of version 1, in that of this version.
fn place(version: Version, at: usize) -> usize {
    match version {
        Version::One => at,
        Version::Two if at < REGISTERED_AT => at,
        Version::Two => at.saturating_add(4),
    }
}

/// An outpoint whose txid has this byte 32 times.
fn add_point(out: &mut Bytes, byte: u8, index: &[u8; 4]) -> Result<(), NoMemory> {
    out.extend(&[byte; 32])?;
    out.extend(index)
}

/// A commitment, a first change with nothing before it, and an update with an item before it that has this registration
/// height.
fn add_ops(out: &mut Bytes, registered: &[u8]) -> Result<(), NoMemory> {
    out.extend(&[3, 0, 0, 0, 0x51])?;
    add_point(out, 1, &[1, 0, 0, 0])?;
    out.extend(&[0x52])?;
    add_point(out, 2, &[2, 1, 0, 0])?;
    add_point(out, 3, &[0, 0, 0, 0])?;
    out.extend(&[1, 5, 0, 0, 0])?;
    out.extend(&[4; 20])?;
    out.extend(b"\x03d/a\x00\x53")?;
    add_point(out, 5, &[0, 0, 0, 0])?;
    add_point(out, 2, &[2, 1, 0, 0])?;
    out.extend(b"\x02\x06\x01\x00\x00\x03d/a\x03d/a\x01\x06\x01\x00\x00")?;
    out.extend(registered)?;
    add_point(out, 2, &[2, 1, 0, 0])?;
    out.extend(b"\x02\x00{}")
}

/// Three coins, whose outpoints are in order as numbers and not as bytes.
fn add_expired(out: &mut Bytes) -> Result<(), NoMemory> {
    out.extend(&[3, 0, 0, 0])?;
    add_point(out, 6, &[1, 0, 0, 0])?;
    out.extend(b"\x02\x07\x00\x00\x00\x01x")?;
    add_point(out, 6, &[0, 1, 0, 0])?;
    out.extend(b"\x02\x07\x00\x00\x00\x00")?;
    add_point(out, 6, &[1, 1, 0, 0])?;
    out.extend(b"\x02\x07\x00\x00\x00\x00")
}

/// The text of a record with an operation of each kind, and this registration height.
fn text_with(alloc: Global, registered: &[u8]) -> Result<Bytes, NoMemory> {
    let mut text = Bytes::new(alloc);
    text.extend(&[0xb0; 32])?;
    add_ops(&mut text, registered)?;
    add_expired(&mut text)?;
    Ok(text)
}

/// The text of this version. The registration height is 13.
fn text(alloc: Global, version: Version) -> Result<Bytes, NoMemory> {
    match version {
        Version::One => text_with(alloc, &[]),
        Version::Two => text_with(alloc, &[13, 0, 0, 0]),
    }
}

/// What a text of this version is read as, with its length.
fn read_as(alloc: Global, version: Version, text: &[u8]) -> Result<(Undo, usize), UndoFault>
    ensures { IfOk result (λ x. IsWithinLimits (seen_undo x.0)) }
{
    match version {
        Version::One => {
            let (read, len) = read_v1(alloc, text)?;
            Ok((read.undo, len))
        }
        Version::Two => read(alloc, text),
    }
}

/// The text with another byte at a place.
fn changed(alloc: Global, version: Version, at: usize, byte: u8) -> Result<Bytes, NoMemory> {
    let mut text = text(alloc, version)?;
    if let Some(place) = text.as_mut_slice().get_mut(place(version, at)) {
        *place = byte;
    }
    Ok(text)
}

/// What is written of the record that the text of this version is read as.
fn written(alloc: Global, version: Version) -> Result<Bytes, Fail> {
    let text = text(alloc, version)?;
    let (undo, _len) = read_as(alloc, version, text.as_slice())?;
    let mut out = Bytes::new(alloc);
    write(&undo, &mut out)?;
    Ok(out)
}

#[test]
fn writes_what_was_read(rt: HostRuntime) -> Result<(), Fail> {
    let text = text(rt.alloc(), Version::Two)?;
    let out = written(rt.alloc(), Version::Two)?;
    same(&rt, out.as_slice(), text.as_slice());
    Ok(())
}

#[test]
fn writes_version_1_with_heights_of_0(rt: HostRuntime) -> Result<(), Fail> {
    let text = text_with(rt.alloc(), &[0; 4])?;
    let out = written(rt.alloc(), Version::One)?;
    same(&rt, out.as_slice(), text.as_slice());
    Ok(())
}

/// A byte that is put at a place of the text of version 1, and the fault that it makes.
static HOSTILE: [(usize, u8, UndoFault); 19] = [
    // an operation's tag
    (36, 0x50, UndoFault::BadTag { at: 36 }),
    (36, 0x54, UndoFault::BadTag { at: 36 }),
    (176, 0x00, UndoFault::BadTag { at: 176 }),
    // the tag of a coin spent
    (146, 0, UndoFault::BadTag { at: 146 }),
    (146, 2, UndoFault::BadTag { at: 146 }),
    (249, 1, UndoFault::BadTag { at: 249 }),
    (249, 3, UndoFault::BadTag { at: 249 }),
    // whether there was an item before
    (175, 2, UndoFault::BadTag { at: 175 }),
    (262, 0xff, UndoFault::BadTag { at: 262 }),
    // the length of a value
    (304, 4, UndoFault::BadTag { at: 303 }),
    // the tag of an expired coin
    (347, 1, UndoFault::BadTag { at: 347 }),
    (432, 0, UndoFault::BadTag { at: 432 }),
    // an outpoint that is smaller than the one before, or equal to it
    (354, 5, UndoFault::Unsorted { at: 354 }),
    (387, 0, UndoFault::Unsorted { at: 354 }),
    (428, 0, UndoFault::Unsorted { at: 396 }),
    // more operations than there are, and more coins
    (35, 0xff, UndoFault::BadTag { at: 307 }),
    (310, 0xff, UndoFault::Cut { at: LEN }),
    // a longer value than there are bytes, and a longer name
    (304, 3, UndoFault::Cut { at: LEN }),
    (437, 1, UndoFault::Cut { at: LEN }),
];

/// The fault of version 1, in this version.
fn placed(version: Version, fault: UndoFault) -> UndoFault {
    match fault {
        UndoFault::Cut { at } => UndoFault::Cut {
            at: place(version, at),
        },
        UndoFault::BadTag { at } => UndoFault::BadTag {
            at: place(version, at),
        },
        UndoFault::Unsorted { at } => UndoFault::Unsorted {
            at: place(version, at),
        },
        UndoFault::NoMemory => UndoFault::NoMemory,
    }
}

/// Whether each change of the text of this version makes its fault.
fn are_faults(rt: &impl Abort, alloc: Global, version: Version) -> Result<(), Fail> {
    for &(at, byte, fault) in &HOSTILE {
        let bytes = changed(alloc, version, at, byte)?;
        let found = read_as(alloc, version, bytes.as_slice()).err();
        assert!(rt; found == Some(placed(version, fault)));
    }
    Ok(())
}

#[test]
fn tells_the_first_fault(rt: HostRuntime) -> Result<(), Fail> {
    are_faults(&rt, rt.alloc(), Version::Two)
}

#[test]
fn tells_the_first_fault_of_version_1(rt: HostRuntime) -> Result<(), Fail> {
    are_faults(&rt, rt.alloc(), Version::One)
}

/// Texts of 40 bytes that claim 2^32-1 operations, and as many expired coins: hundreds of gigabytes, if memory was taken by
/// the number.
static CLAIMS: [&[u8]; 2] = [
    b"the hash of a block is 32 bytes.\xff\xff\xff\xff\x51\x00\x00\x00",
    b"the hash of a block is 32 bytes.\x00\x00\x00\x00\xff\xff\xff\xff",
];

/// Nothing here asks for memory, so it passes too where all memory is refused.
#[test]
fn a_number_alone_takes_no_memory(rt: HostRuntime) {
    let cut = Some(UndoFault::Cut { at: 40 });
    for &text in &CLAIMS {
        assert!(rt; read_as(rt.alloc(), Version::One, text).err() == cut);
        assert!(rt; read_as(rt.alloc(), Version::Two, text).err() == cut);
    }
}

/// Each fault, as it is displayed.
static SHOWN: [(UndoFault, &str); 4] = [
    (UndoFault::Cut { at: 4 }, "the undo record is cut at byte 4"),
    (
        UndoFault::BadTag { at: 36 },
        "no such tag or length in an undo record at byte 36",
    ),
    (
        UndoFault::Unsorted { at: 354 },
        "an expired coin out of order at byte 354",
    ),
    (UndoFault::NoMemory, "out of memory"),
];

#[test]
fn says_what_is_wrong(rt: HostRuntime) -> Result<(), Fail> {
    for &(fault, text) in &SHOWN {
        let shown = format!(in rt.alloc(); "{fault}")?;
        same(&rt, shown.as_bytes(), text.as_bytes());
    }
    Ok(())
}

/// Whether a write of the record of this text that finds no memory leaves the list as it was. None where there was no
/// memory before.
fn written_or_not(alloc: Global, text: &[u8]) -> Option<bool> {
    let (undo, _len) = read(alloc, text).ok()?;
    let mut out = Bytes::copy_of(alloc, b"before").ok()?;
    match write(&undo, &mut out) {
        Ok(()) => Some(out.as_slice().len() == place(Version::Two, LEN).saturating_add(6)),
        Err(NoMemory) => Some(out.as_slice() == b"before".as_slice()),
    }
}

fn with_any_memory(alloc: Global) -> Option<bool> {
    let text = text(alloc, Version::Two).ok()?;
    written_or_not(alloc, text.as_slice())
}

#[test]
fn a_refused_write_leaves_the_list(rt: HostRuntime) {
    assert!(rt; with_any_memory(rt.alloc()) != Some(false));
}

#[test]
fn with_memory_a_record_is_written(rt: HostRuntime) {
    assert!(rt; with_any_memory(rt.alloc()) == Some(true));
}
