//! Writes a record behind a gate that is still closed.

// The writes of an append behind the closed gate.
ghost use Rattle.std.specs.Prelude.{◌≡◌, ◌<◌, ◌≤◌, ◌+◌, ◌^◌, ◌∷◌, ◌++◌, [], length, take, IsTrue, OnOk};
ghost use Rattle.std.specs.Int.{w32, to_le_bytes};
ghost use Rattle.disk_model.specs.FileState.{put};
ghost use Rattle.disk_model.specs.Moments.{EachMoment};
ghost use Rattle.disk_model.specs.Changes.{Changes};
ghost use Rattle.disk_model.specs.DiskSeen.{Ends, bytes_in};
ghost use Rattle.gate_journal.specs.Writes.{KeepsBelow};

use crate::gate::CLOSED;
use disk_model::{Disk, Failed};

/// The longest body that goes out in one write with its length, its head and the gate behind it: 4 KiB.
const SMALL: usize = 4096;

/// Puts a piece into the array from a place on, and says where it ends.
fn add(out: &mut [u8], at: usize, piece: &[u8]) -> usize
    requires { at + length piece.now ≤ length out.old }
    ensures end { result ≡ at + length piece.now }
    ensures bytes { take result out.new ≡ take at out.old ++ piece.now }
{
    let end = at + piece.len();
    out[at..end].copy_from_slice(piece);
    end
}

/// Puts the length of a record and its head into the array, and says where they end.
fn add_start(out: &mut [u8], size: u32, head: &[u8]) -> usize
    requires { 4 + length head.now ≤ length out.old }
    ensures end { result ≡ 4 + length head.now }
    ensures bytes { take result out.new ≡ to_le_bytes w32 size ++ head.now }
{
    let end = add(out, 0, &size.to_le_bytes());
    add(out, end, head)
}

/// Writes length, head, body and a closed gate from a position on, in one write where they fit a small
/// array, else the body from where it lies. What lies before that position stays as it was.
pub fn write_behind<D: Disk>(
    disk: &mut D,
    file: u8,
    at: u64,
    head: &[u8],
    body: &[u8],
) -> Result<(), Failed>
    requires file { file < 3 }
    requires inside { IsTrue D.tells → at ≤ length (bytes_in (D.seen disk.old) file) }
    requires short { length head.now ≤ 8 }
    requires fits { length head.now + length body.now < 2 ^ 32 }
    requires room { at + length head.now + length body.now + 5 < 2 ^ 64 }
    ensures written { IsTrue D.tells → OnOk result (bytes_in (D.seen disk.new) file
        ≡ put (bytes_in (D.seen disk.old) file) at (to_le_bytes w32 (length head.now + length body.now) ++ head.now ++ (body.now ++ 0 ∷ []))) }
    ensures any_moment { IsTrue D.tells → EachMoment (Changes file (KeepsBelow at) (D.seen disk.old).moments.now) (D.seen disk.old).moments (D.seen disk.new).moments }
    ensures ends { Ends (D.seen disk.old) (D.seen disk.new) result }
{
    let mut small = [0; 4112];
    let start = add_start(&mut small, (head.len() + body.len()) as u32, head);
    if body.len() > SMALL {
        return write_large(disk, file, at, &small[..start], body);
    }
    let end = add(&mut small, start, body);
    let end = add(&mut small, end, &[CLOSED]);
    disk.write_at(file, at, &small[..end])
}

/// Writes what goes before the body, the body and a closed gate, in three writes.
fn write_large<D: Disk>(
    disk: &mut D,
    file: u8,
    at: u64,
    start: &[u8],
    body: &[u8],
) -> Result<(), Failed>
    requires file { file < 3 }
    requires inside { IsTrue D.tells → at ≤ length (bytes_in (D.seen disk.old) file) }
    requires room { at + length start.now + length body.now < 2 ^ 64 }
    ensures written { IsTrue D.tells → OnOk result (bytes_in (D.seen disk.new) file
        ≡ put (bytes_in (D.seen disk.old) file) at (start.now ++ (body.now ++ 0 ∷ []))) }
    ensures any_moment { IsTrue D.tells → EachMoment (Changes file (KeepsBelow at) (D.seen disk.old).moments.now) (D.seen disk.old).moments (D.seen disk.new).moments }
    ensures ends { Ends (D.seen disk.old) (D.seen disk.new) result }
{
    disk.write_at(file, at, start)?;
    let body_at = at + start.len() as u64;
    disk.write_at(file, body_at, body)?;
    disk.write_at(file, body_at + body.len() as u64, &[CLOSED])
}
