//! Which of the two areas counts.

ghost use Rattle.std.specs.Prelude.{◌≡◌, ◌<◌, ◌≤◌, List, ℕ, IsTrue, IsErrOf};
ghost use Rattle.disk_model.specs.FileState.{IsSettled};
ghost use Rattle.disk_model.specs.DiskSeen.{file_in};
ghost use Rattle.image_slots.specs.Selections.{selected_by, drafted_by, selections_file};
ghost use Rattle.image_slots.specs.Slotted.{AreOn, farthest};
ghost use Rattle.image_slots.specs.Calls.{OpensSlots, Begins, Selects};

use crate::areas::{SELECTIONS_FILE, drafted_area, selected_area};
use crate::draft::{Draft, Ready, begin_draft};
use crate::faults::{DraftFault, SlotFault};
use crate::limits::SlotLimits;
use crate::reading::count_selections;
use crate::selecting::{append_selection, selections_limit};
use disk_model::Disk;
use gate_journal::Journal;
use nmc_base::Bytes;
use std::alloc::Global;
use std::marker::Model;

/// Which of the areas counts: file 1 without a selection, and after each selection the other one.
///
/// It holds no disk. After a fault of the disk, give it up and open the files again.
#[derive(Drop)]
pub struct Slots {
    at: u64,
    count: u32,
    limits: SlotLimits,
}

impl Model for Slots {
    ghost use Rattle.std.specs.Prelude.{◌≤◌};
    ghost use Rattle.image_slots.specs.Slotted.{Slotted, farthest};

    ghost Value = { Slotted };

    ghost view = { λ s. record { at = s.at; count = s.count; limits = s.limits } };

    ghost invariant = { λ s. (s.at ≤ farthest) × (s.count ≤ s.limits.selections) × (s.limits.image ≤ farthest) };
}

impl Slots {
    /// The slots with so many selections, the first gate of which stands at this place of file 0. The disk is not asked.
    pub fn at(at: u64, count: u32, limits: SlotLimits) -> Slots
        requires near { at ≤ farthest }
        requires few { count ≤ limits.selections }
        requires short { limits.image ≤ farthest }
        ensures { result ≡ record { at = at; count = count; limits = limits } }
    {
        Slots { at, count, limits }
    }

    /// Reads the selections of file 0, the first gate of which stands at this place. The file was synced and not written since.
    ///
    /// `Damaged` comes exactly where that gate does not lie inside the file, or where behind the first of the selections an open gate
    /// is not followed by the selection of the next number. It asks for no write and no cut. Memory is taken for one record.
    pub fn open<D: Disk>(
        alloc: Global,
        disk: &mut D,
        at: u64,
        limits: SlotLimits,
    ) -> Result<Slots, SlotFault>
        requires near { at ≤ farthest }
        requires short { limits.image ≤ farthest }
        requires settled { IsTrue D.tells → IsSettled (file_in (D.seen disk.old) selections_file) }
        ensures { OpensSlots D.tells at limits (D.seen disk.old) (D.seen disk.new) result }
    {
        let limit = selections_limit(at, limits.selections);
        let mut journal = Journal::open(disk, SELECTIONS_FILE, at, limit)?;
        let mut held = Bytes::new(alloc);
        match count_selections(disk, &mut journal, &mut held, at, limits.selections) {
            Ok(count) => Ok(Slots::at(at, count, limits)),
            Err(fault) => Err(fault),
        }
    }

    /// The number of the selected area's file: 1 or 2.
    pub fn selected(&self) -> u8
        ensures { result ≡ selected_by self.now.count }
    {
        selected_area(self.count)
    }

    /// How many selections were made.
    pub fn count(&self) -> u32
        ensures { result ≡ self.now.count }
    {
        self.count
    }

    /// How many selections there may be, and how long an image may be.
    pub fn limits(&self) -> SlotLimits
        ensures value { result ≡ self.now.limits }
        ensures few { self.now.count ≤ result.selections }
        ensures short { result.image ≤ farthest }
    {
        self.limits
    }

    /// Begins a draft of an image of so many bytes: empties the area that is not selected, and writes the image's length there.
    ///
    /// `CheckpointLimit` comes exactly where as many selections were made as may be, and otherwise `ImageLimit` exactly where the image
    /// is longer than one may be; then the disk was not asked. No file but the draft's area changes at any moment.
    pub fn begin<D: Disk>(&mut self, disk: &mut D, image: u64) -> Result<Draft, DraftFault>
        ensures same { self.new ≡ self.old }
        ensures begins { Begins D.tells self.old image (D.seen disk.old) (D.seen disk.new) result }
        ensures at_limit { IsErrOf result DraftFault.CheckpointLimit → disk.new ≡ disk.old }
        ensures too_long { IsErrOf result DraftFault.ImageLimit → disk.new ≡ disk.old }
    {
        self.limits.check(self.count, image)?;
        let draft = begin_draft(disk, drafted_area(self.count), image)?;
        Ok(draft)
    }

    /// Selects the area of a draft that is ready, and says how many selections there are then. A crash at any moment leaves the old
    /// selection or the new one; after Ok it leaves the new one.
    ///
    /// The draft was begun on these slots, and no selection was made since. The one error is `DiskFault`.
    pub fn select<D: Disk>(&mut self, disk: &mut D, ready: Ready) -> Result<u32, DraftFault>
        requires one_more { self.old.count < self.old.limits.selections }
        requires drafted { ready ≡ drafted_by self.old.count }
        requires on_disk { IsTrue D.tells → (front : List ℕ) × AreOn front self.old (file_in (D.seen disk.old) selections_file) }
        ensures { Selects D.tells self.old self.new (D.seen disk.old) (D.seen disk.new) result }
    {
        append_selection(disk, self.at, self.count, self.limits, ready.file())?;
        self.count += 1;
        Ok(self.count)
    }
}
