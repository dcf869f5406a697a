//! A snapshot of a million names, which is fed to its reader as it is made: one make of it is held at a time.

ghost use Rattle.std.specs.Prelude.{◌≡◌, ℕ, List, [], OnOk, IfOk};
ghost use Rattle.name_snapshot.specs.Answers.{HasStart};
ghost use Rattle.name_snapshot.specs.Feeding.{HasRead};

use name_snapshot::{Snapshot, SnapshotFault};
use name_tables::Parts;
use nmc_base::{Base, Hash32, Profile};
use std::alloc::Global;

/// The base on which the snapshot stands.
pub const BASE: Base = Base {
    profile: Profile::Main,
    height: 500_000,
    hash: Hash32([0; 32]),
};

/// How many makes it has.
const COUNT: u32 = 1_000_000;

/// The number in six digits, behind `d/`.
fn name_of(number: u32) -> [u8; 8] {
    let mut name = *b"d/000000";
    let mut rest = number;
    for place in (2..8).rev() {
        name[place] = b'0' + (rest % 10) as u8;
        rest /= 10;
    }
    name
}

/// The make of this number, at the height of the base.
///
/// ```text
/// +-------------+---------+----+----------+---+------------+-----+------+
/// | 32 times AA | index 4 | 53 | height 4 | 8 | `d/000000` | 2 0 | `{}` |
/// +-------------+---------+----+----------+---+------------+-----+------+
/// ```
fn make_of(number: u32) -> [u8; 54] {
    let mut make = [0xAA; 54];
    make[32..36].copy_from_slice(&number.to_le_bytes());
    make[36..42].copy_from_slice(b"\x53\x20\xA1\x07\x00\x08");
    make[42..50].copy_from_slice(&name_of(number));
    make[50..].copy_from_slice(b"\x02\x00{}");
    make
}

/// Feeds the makes in the order of their numbers.
fn feed_makes(snapshot: &mut Snapshot) -> Result<(), SnapshotFault>
    requires few { snapshot.old.fed ≡ 9 }
    requires read { (text : List ℕ) × HasRead text snapshot.old }
    ensures read { OnOk result ((text : List ℕ) × HasRead text snapshot.new) }
    ensures base { snapshot.new.base ≡ snapshot.old.base }
{
    for number in 0..COUNT {
        snapshot.piece(&make_of(number))?;
    }
    Ok(())
}

/// Feeds all of the snapshot: its mark, the number of makes, and these.
fn feed(snapshot: &mut Snapshot) -> Result<(), SnapshotFault>
    requires { HasRead [] snapshot.old }
    ensures read { OnOk result ((text : List ℕ) × HasRead text snapshot.new) }
    ensures base { snapshot.new.base ≡ snapshot.old.base }
{
    snapshot.piece(b"NMCS\x01")?;
    snapshot.piece(&COUNT.to_le_bytes())?;
    feed_makes(snapshot)
}

/// The parts of the chain that starts with these makes.
pub fn read(alloc: Global) -> Result<Parts, SnapshotFault>
    ensures { IfOk result (λ parts. (text : List ℕ) × HasStart BASE text parts) }
{
    let mut snapshot = Snapshot::new(alloc, &BASE)?;
    match feed(&mut snapshot) {
        Ok(()) => snapshot.finish(),
        Err(fault) => {
            snapshot.let_go();
            Err(fault)
        }
    }
}
