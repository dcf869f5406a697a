//! A save: an image is drafted and selected.
ghost use Rattle.std.specs.Prelude.{◌≡◌, ◌<◌, ◌≤◌, List, ℕ, length, IsTrue};
ghost use Rattle.disk_model.specs.DiskSeen.{bytes_in, file_in};
ghost use Rattle.image_slots.specs.Selections.{drafted_by, selections_file};
ghost use Rattle.image_slots.specs.Slotted.{AreOn};
ghost use Rattle.image_slots.specs.Drafted.{DraftHolds, DraftHoldsArea};
ghost use Rattle.image_slots.specs.Calls.{AddsSelection};
ghost use Rattle.image_files.specs.Saving.{SelectsArea, WritesImage};
ghost use Rattle.image_files.specs.Selecting.{Selects};

use crate::drafting::{draft_image, finish};
use disk_model::{Disk, Failed};
use image_slots::{Draft, DraftFault, Ready, Slots};
use image_writer::ImageText;

/// Selects the area of a draft that is ready.
fn select<D: Disk>(disk: &mut D, slots: &mut Slots, ready: Ready) -> Result<u32, Failed>
    requires one_more { slots.old.count < slots.old.limits.selections }
    requires drafted { ready ≡ drafted_by slots.old.count }
    requires on_disk { IsTrue D.tells → (front : List ℕ) × AreOn front slots.old (file_in (D.seen disk.old) selections_file) }
    ensures { Selects D.tells slots.old slots.new (D.seen disk.old) (D.seen disk.new) result }
{
    match slots.select(disk, ready) {
        Ok(number) => Ok(number),
        Err(DraftFault::DiskFault) => Err(Failed),
        Err(DraftFault::CheckpointLimit) => unreachable!(),
        Err(DraftFault::ImageLimit) => unreachable!(),
    }
}

/// Ends a draft, whose image is all there, and selects its area: the image with the records behind it. Says how many selections there are
/// then.
///
/// A crash at any moment leaves the old selection and its area, or the new one with all that was drafted. It takes no memory. After an
/// error, give up the slots and open the files again.
pub fn select_draft<D: Disk>(disk: &mut D, slots: &mut Slots, draft: Draft) -> Result<u32, Failed>
    requires few { slots.old.count < slots.old.limits.selections }
    requires drafted { draft.file ≡ drafted_by slots.old.count }
    requires all { draft.image ≤ draft.written }
    requires holds { IsTrue D.tells → (pieces : List ℕ) × DraftHolds draft pieces (bytes_in (D.seen disk.old) draft.file) }
    requires on_disk { IsTrue D.tells → (front : List ℕ) × AreOn front slots.old (file_in (D.seen disk.old) selections_file) }
    ensures { SelectsArea D.tells slots.old slots.new (λ image records. DraftHoldsArea draft image records (bytes_in (D.seen disk.old) draft.file)) (D.seen disk.old) (D.seen disk.new) result }
{
    let ready = finish(disk, draft)?;
    select(disk, slots, ready)
}

/// Saves an image: writes its text, which has so many bytes, to the area that is not selected, syncs that and selects it. Says how
/// many selections there are then.
///
/// A crash at any moment leaves the old selection and its area, or the new one with the whole image in its area. It takes no memory.
/// After an error, give up the slots and open the files again.
pub fn write_image<'a, D: Disk>(
    disk: &mut D,
    slots: &mut Slots,
    text: ImageText<'a>,
    size: u64,
) -> Result<u32, Failed>
    requires few { slots.old.count < slots.old.limits.selections }
    requires short { size ≤ slots.old.limits.image }
    requires whole { size ≡ length text }
    requires on_disk { IsTrue D.tells → (front : List ℕ) × AreOn front slots.old (file_in (D.seen disk.old) selections_file) }
    ensures { WritesImage D.tells slots.old slots.new text.entry (D.seen disk.old) (D.seen disk.new) result }
{
    let ready = draft_image(disk, slots, text, size)?;
    select(disk, slots, ready)
}
