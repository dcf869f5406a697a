//! Tables that an image is loaded into.

ghost use Rattle.std.specs.Prelude.{◌≡◌, ◌+◌, ◌<◌, ◌≤◌, ◌^◌, length};

use crate::heights::before;
use name_tables::Parts;
use nmc_base::{Base, NoMemory};
use state_image::{ImageFault, Loader};
use std::alloc::Global;
use std::cmp;
use std::process::Abort;
use std::test::Fail;

/// What is told of a state: the height of its base, and the registration height of the item before the oldest operation.
type Told = (u32, Option<u32>);

/// A front of a text in hexadecimal digits, and what is read of it.
struct Row {
    text: &'static str,
    len: usize,
    want: Result<Told, ImageFault>,
}

/// The text of a sound state in version 2: a value of d/a at the base, and a record of the block that updated it.
const SOUND: &str =
    "4e4d4349020109000000b9b9b9b9b9b9b9b9b9b9b9b9b9b9b9b9b9b9b9b9b9b9b9b9b9b9b9b9b9b9b9b901000000babababababababababababababababababababababababababababababababa0100000053020202020202020202020202020202020202020202020202020202020202020200000000010101010101010101010101010101010101010101010101010101010101010100000000020900000003642f6103642f6101090000000900000001010101010101010101010101010101010101010101010101010101010101010000000002007b7d0000000001000000020202020202020202020202020202020202020202020202020202020202020200000000020a00000003642f610100000003642f6102000000090000000900000001010101010101010101010101010101010101010101010101010101010101010000000002007b7d0a0000000900000002020202020202020202020202020202020202020202020202020202020202020000000002007b7d";

/// The same state in version 1.
const SOUND_ONE: &str =
    "4e4d4349010109000000b9b9b9b9b9b9b9b9b9b9b9b9b9b9b9b9b9b9b9b9b9b9b9b9b9b9b9b9b9b9b9b901000000babababababababababababababababababababababababababababababababa0100000053020202020202020202020202020202020202020202020202020202020202020200000000010101010101010101010101010101010101010101010101010101010101010100000000020900000003642f6103642f61010900000001010101010101010101010101010101010101010101010101010101010101010000000002007b7d0000000001000000020202020202020202020202020202020202020202020202020202020202020200000000020a00000003642f610100000003642f61020000000900000001010101010101010101010101010101010101010101010101010101010101010000000002007b7d0a00000002020202020202020202020202020202020202020202020202020202020202020000000002007b7d";

/// In version 1, but the record says that no value stood before the update.
const UNSOUND_ONE: &str =
    "4e4d4349010109000000b9b9b9b9b9b9b9b9b9b9b9b9b9b9b9b9b9b9b9b9b9b9b9b9b9b9b9b9b9b9b9b901000000babababababababababababababababababababababababababababababababa0100000053020202020202020202020202020202020202020202020202020202020202020200000000010101010101010101010101010101010101010101010101010101010101010100000000020900000003642f6103642f61000000000001000000020202020202020202020202020202020202020202020202020202020202020200000000020a00000003642f610100000003642f61010000000a00000002020202020202020202020202020202020202020202020202020202020202020000000002007b7d";

static ROWS: [Row; 5] = [
    Row {
        text: SOUND,
        len: 378,
        want: Ok((9, Some(9))),
    },
    Row {
        text: SOUND_ONE,
        len: 366,
        want: Ok((9, Some(9))),
    },
    Row {
        text: SOUND_ONE,
        len: 365,
        want: Err(ImageFault::Damaged { at: 365 }),
    },
    Row {
        text: UNSOUND_ONE,
        len: 278,
        want: Err(ImageFault::Damaged { at: 0 }),
    },
    // no version has the number 3
    Row {
        text: "4e4d434903",
        len: 5,
        want: Err(ImageFault::Damaged { at: 4 }),
    },
];

/// Feeds a loader the text in pieces of so many bytes.
fn feed(loader: &mut Loader, text: &[u8], size: usize)
    requires few { loader.old.fed + length text.now ≤ loader.old.total }
    requires some { 0 < size }
    ensures fed { loader.new.fed ≡ loader.old.fed + length text.now }
    ensures total { loader.new.total ≡ loader.old.total }
{
    let mut rest = text;
    while !rest.is_empty() {
        let (piece, more) = rest.split_at(cmp::min(size, rest.len()));
        // A fault stays, so `finish` tells it too.
        let _taken = loader.piece(piece);
        rest = more;
    }
}

fn load(alloc: Global, text: &[u8], size: usize) -> Result<(Base, Parts), ImageFault>
    requires few { length text.now ≤ 2 ^ 37 }
    requires some { 0 < size }
{
    let mut loader = Loader::new(alloc, text.len() as u64)?;
    feed(&mut loader, text, size);
    loader.finish()
}

fn began(parts: Parts) -> Option<u32> {
    before(parts.undos.item(0))
}

fn told(found: Result<(Base, Parts), ImageFault>) -> Result<Told, ImageFault> {
    match found {
        Ok((base, parts)) => Ok((base.height, began(parts))),
        Err(fault) => Err(fault),
    }
}

/// Whether pieces of so many bytes tell what the row wants, unless memory is wanted.
fn is_told(alloc: Global, row: &Row, size: usize) -> Result<bool, NoMemory>
    requires { 0 < size }
{
    let bytes = match hex::decode(alloc, row.text) {
        Ok(bytes) => bytes,
        Err(_) => return Err(NoMemory),
    };
    let text = match bytes.get(..row.len) {
        Some(text) if text.len() < 2000 => text,
        _ => return Ok(false),
    };
    match told(load(alloc, text, size)) {
        Err(ImageFault::NoMemory) => Err(NoMemory),
        told => Ok(told == row.want),
    }
}

fn are_told(rt: &impl Abort, alloc: Global) -> Result<(), NoMemory> {
    for (i, row) in ROWS.iter().enumerate() {
        assert!(rt; is_told(alloc, row, 1)?, "row {i} byte by byte");
        assert!(rt; is_told(alloc, row, 2000)?, "row {i} whole");
    }
    Ok(())
}

#[test]
fn an_image_is_loaded_or_memory_is_wanted(rt: HostRuntime) -> Result<(), Fail> {
    let _told = are_told(&rt, rt.alloc());
    Ok(())
}

#[test]
fn with_memory_each_image_is_loaded(rt: HostRuntime) -> Result<(), Fail> {
    are_told(&rt, rt.alloc())?;
    Ok(())
}
