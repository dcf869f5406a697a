//! An image that is being written to the area that doesn't count.

ghost use Rattle.std.specs.Prelude.{◌≡◌, ◌+◌, ◌<◌, ◌≤◌, List, ℕ, [], length, IsTrue, IfOk};
ghost use Rattle.disk_model.specs.Moments.{EachMoment};
ghost use Rattle.disk_model.specs.Changes.{LeavesOthers};
ghost use Rattle.disk_model.specs.DiskSeen.{Ends, bytes_in};
ghost use Rattle.image_slots.specs.Slotted.{farthest};
ghost use Rattle.image_slots.specs.Drafted.{DraftHolds, longest_draft};
ghost use Rattle.image_slots.specs.Calls.{AddsPiece, Finishes};

use crate::faults::DraftFault;
use disk_model::{Disk, Failed};
use std::marker::Model;

/// So many bytes has the length of an image, which stands before it.
const LENGTH_SIZE: u64 = 8;

/// A closed gate.
const CLOSED: u8 = 0;

/// An image that is being written to the area that is not selected, and the records behind it. Dropped, it leaves the old selection.
///
/// After a fault of the disk, give it up.
#[derive(Drop)]
pub struct Draft {
    file: u8,
    image: u64,
    written: u64,
}

impl Model for Draft {
    ghost use Rattle.std.specs.Prelude.{◌<◌, ◌≤◌};
    ghost use Rattle.image_slots.specs.Slotted.{farthest};
    ghost use Rattle.image_slots.specs.Drafted.{Drafted, longest_draft};

    ghost Value = { Drafted };

    ghost view = { λ d. record { file = d.file; image = d.image; written = d.written } };

    ghost invariant = { λ d. (d.file < 3) × (d.image ≤ farthest) × (d.written ≤ longest_draft) };
}

/// A draft whose area is whole and settled. Contracts see the number of its file.
#[derive(Drop)]
pub struct Ready {
    file: u8,
}

impl Model for Ready {
    ghost use Rattle.std.specs.Prelude.{ℕ, ◌<◌};

    ghost Value = { ℕ };

    ghost view = { λ r. r.file };

    ghost invariant = { λ r. r.file < 3 };
}

/// Empties an area, and writes the length of an image of so many bytes there. It asks no selections, so the area may be the selected one.
///
/// No other file changes at any moment.
pub fn begin_draft<D: Disk>(disk: &mut D, file: u8, image: u64) -> Result<Draft, Failed>
    requires file { file < 3 }
    requires short { image ≤ farthest }
    ensures ok { IfOk result (λ draft. draft ≡ record { file = file; image = image; written = 0 }) }
    ensures holds { IsTrue D.tells → IfOk result (λ draft. DraftHolds draft [] (bytes_in (D.seen disk.new) draft.file)) }
    ensures others { IsTrue D.tells → EachMoment (LeavesOthers file (D.seen disk.old).moments.now) (D.seen disk.old).moments (D.seen disk.new).moments }
    ensures ends { Ends (D.seen disk.old) (D.seen disk.new) result }
{
    disk.cut(file, 0)?;
    disk.write_at(file, 0, &image.to_le_bytes())?;
    Ok(Draft {
        file,
        image,
        written: 0,
    })
}

impl Draft {
    /// Writes bytes behind what was written.
    fn add<D: Disk>(&mut self, disk: &mut D, bytes: &[u8]) -> Result<(), DraftFault>
        requires room { 9 + (self.old.written + length bytes.now) ≤ longest_draft }
        requires holds { IsTrue D.tells → (pieces : List ℕ) × DraftHolds self.old pieces (bytes_in (D.seen disk.old) self.old.file) }
        ensures { AddsPiece D.tells self.old self.new bytes.now (D.seen disk.old) (D.seen disk.new) result }
    {
        disk.write_at(self.file, LENGTH_SIZE + self.written, bytes)?;
        self.written += bytes.len() as u64;
        Ok(())
    }

    /// Adds the next piece of the image, which has room for it. Nothing else wrote the draft's area since its beginning.
    ///
    /// The one error is `DiskFault`. No file but the draft's area changes at any moment.
    pub fn piece<D: Disk>(&mut self, disk: &mut D, bytes: &[u8]) -> Result<(), DraftFault>
        requires room { self.old.written + length bytes.now ≤ self.old.image }
        requires holds { IsTrue D.tells → (pieces : List ℕ) × DraftHolds self.old pieces (bytes_in (D.seen disk.old) self.old.file) }
        ensures { AddsPiece D.tells self.old self.new bytes.now (D.seen disk.old) (D.seen disk.new) result }
    {
        let _ = &self.image;
        self.add(disk, bytes)
    }

    /// Adds bytes behind the image, whose pieces are all there: the next of the records that are to stand behind it. Nothing else wrote
    /// the draft's area since its beginning.
    ///
    /// The one error is `DiskFault`. No file but the draft's area changes at any moment.
    pub fn tail<D: Disk>(&mut self, disk: &mut D, bytes: &[u8]) -> Result<(), DraftFault>
        requires all { self.old.image ≤ self.old.written }
        requires room { 9 + (self.old.written + length bytes.now) ≤ longest_draft }
        requires holds { IsTrue D.tells → (pieces : List ℕ) × DraftHolds self.old pieces (bytes_in (D.seen disk.old) self.old.file) }
        ensures { AddsPiece D.tells self.old self.new bytes.now (D.seen disk.old) (D.seen disk.new) result }
    {
        self.add(disk, bytes)
    }

    /// How many bytes the image is to have.
    pub fn image(&self) -> u64
        ensures value { result ≡ self.now.image }
        ensures short { result ≤ farthest }
    {
        self.image
    }

    /// How many bytes were written: those of the image, and then those behind it.
    pub fn written(&self) -> u64
        ensures value { result ≡ self.now.written }
        ensures short { result ≤ longest_draft }
    {
        self.written
    }

    /// Ends the draft, whose image is all there: writes a closed gate behind what was written, and syncs the area. Nothing else wrote the
    /// area since the draft's beginning.
    ///
    /// The one error is `DiskFault`. No file but the draft's area changes at any moment.
    pub fn finish<D: Disk>(self, disk: &mut D) -> Result<Ready, DraftFault>
        requires all { self.image ≤ self.written }
        requires holds { IsTrue D.tells → (pieces : List ℕ) × DraftHolds self pieces (bytes_in (D.seen disk.old) self.file) }
        ensures { Finishes D.tells self (D.seen disk.old) (D.seen disk.new) result }
    {
        disk.write_at(self.file, LENGTH_SIZE + self.written, &[CLOSED])?;
        disk.sync(self.file)?;
        Ok(Ready { file: self.file })
    }
}

impl Ready {
    /// The number of the area's file.
    pub(crate) fn file(&self) -> u8
        ensures value { result ≡ self.now }
        ensures file { result < 3 }
    {
        self.file
    }
}
