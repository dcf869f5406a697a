//! The steps of making files: the area, the header, and its gate.

// The steps of making the files.
ghost use Rattle.std.specs.Prelude.{◌≡◌, ◌≤◌, ◌+◌, ◌∷◌, ◌++◌, [], length, take, IsTrue};
ghost use Rattle.disk_model.specs.DiskSeen.{file_in};
ghost use Rattle.name_store.specs.Header.{header_fields};
ghost use Rattle.name_store.specs.Header as header;
ghost use Rattle.name_store.specs.MakingSteps.{HasSettled, MakesArea, MakesGate, MakesFields};
ghost use Rattle.name_store.specs.declared.host_text.TheConstants.{LONGEST_HOST};
ghost use Rattle.name_store.specs.declared.making_steps.TheConstants.{LONGEST_FIELDS};

use crate::limits::{CLOSED, FIRST_AREA, HEADER_FILE};
use disk_model::{Disk, Failed};
use nmc_base::{Base, Profile};

/// What the header has behind its gate at first.
const MAGIC: [u8; 8] = *b"NMCIDX1\n";

/// The most bytes that stand behind the header's gate, with the gate behind them.
const LONGEST_FIELDS: usize = 290;

/// Makes the area: the length 0 of an image, and a closed gate.
pub fn make_area<D: Disk>(disk: &mut D) -> Result<(), Failed>
    ensures { MakesArea D.tells (D.seen disk.old) (D.seen disk.new) result }
{
    disk.cut(FIRST_AREA, 0)?;
    disk.write_at(FIRST_AREA, 0, &[0; 9])?;
    disk.sync(FIRST_AREA)
}

/// Makes the gate of the header, closed, and cuts away what stood behind it.
pub fn make_gate<D: Disk>(disk: &mut D) -> Result<(), Failed>
    ensures { MakesGate D.tells (D.seen disk.old) (D.seen disk.new) result }
{
    disk.cut(HEADER_FILE, 0)?;
    disk.sync(HEADER_FILE)?;
    disk.write_at(HEADER_FILE, 0, &[CLOSED])?;
    disk.sync(HEADER_FILE)
}

/// The number of a network in a header.
fn profile_byte(profile: Profile) -> u8
    ensures { result ≡ header.profile_byte profile }
{
    match profile {
        Profile::Regtest => 1,
        Profile::Main => 2,
    }
}

/// Puts a piece into the array from a place on, and says where it ends.
fn add(out: &mut [u8], at: usize, piece: &[u8]) -> usize
    requires { at + length piece.now ≤ length out.old }
    ensures end { result ≡ at + length piece.now }
    ensures size { length out.new ≡ length out.old }
    ensures bytes { take result out.new ≡ take at out.old ++ piece.now }
{
    let end = at + piece.len();
    out[at..end].copy_from_slice(piece);
    end
}

/// Puts the fields of the header into the array, and a closed gate behind them, and says where it ends.
fn add_fields(out: &mut [u8], base: &Base, host: &[u8]) -> usize
    requires room { length out.old ≡ LONGEST_FIELDS }
    requires short { length host.now ≤ LONGEST_HOST }
    ensures end { result ≤ length out.new }
    ensures bytes { take result out.new ≡ header_fields base.now host.now ++ 0 ∷ [] }
{
    let end = add(out, 0, &MAGIC);
    let end = add(out, end, &[profile_byte(base.profile)]);
    let end = add(out, end, &base.height.to_le_bytes());
    let end = add(out, end, &base.hash.0);
    let end = add(out, end, &[host.len() as u8]);
    let end = add(out, end, host);
    add(out, end, &[CLOSED])
}

/// Makes what stands behind the header's closed gate: its fields, and a closed gate.
pub fn make_fields<D: Disk>(disk: &mut D, base: &Base, host: &[u8]) -> Result<(), Failed>
    requires at_gate { IsTrue D.tells → HasSettled (0 ∷ []) (file_in (D.seen disk.old) 0) }
    requires short { length host.now ≤ LONGEST_HOST }
    ensures { MakesFields D.tells base.now host.now (D.seen disk.old) (D.seen disk.new) result }
{
    let mut fields = [0; LONGEST_FIELDS];
    let end = add_fields(&mut fields, base, host);
    disk.write_at(HEADER_FILE, 1, &fields[..end])?;
    disk.sync(HEADER_FILE)
}
