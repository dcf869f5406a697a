//! Writing an image to a draft, and drafting one in the area that is not selected.
ghost use Rattle.std.specs.Prelude.{◌≡◌, ◌<◌, ◌≤◌, List, ℕ, [], ◌∷◌, ◌++◌, length, IsTrue, OnOk, IfOk};
ghost use Rattle.std.specs.Int.{w64, to_le_bytes};
ghost use Rattle.disk_model.specs.Moments.{EachMoment};
ghost use Rattle.disk_model.specs.Changes.{LeavesOthers};
ghost use Rattle.disk_model.specs.DiskSeen.{Ends, bytes_in, file_in};
ghost use Rattle.image_slots.specs.Selections.{drafted_by};
ghost use Rattle.image_slots.specs.Drafted.{DraftHolds, DraftHoldsArea};
ghost use Rattle.image_files.specs.Saving.{HasImage, HasArea};

use crate::pieces::write_pieces;
use disk_model::{Disk, Failed};
use image_slots::{Draft, DraftFault, Ready, Slots};
use image_writer::ImageText;

/// Begins a draft of an image of so many bytes, for which there is room.
fn begin<D: Disk>(disk: &mut D, slots: &mut Slots, size: u64) -> Result<Draft, Failed>
    requires few { slots.old.count < slots.old.limits.selections }
    requires short { size ≤ slots.old.limits.image }
    ensures same { slots.new ≡ slots.old }
    ensures ok { IfOk result (λ draft. draft ≡ record { file = drafted_by slots.old.count; image = size; written = 0 }) }
    ensures holds { IsTrue D.tells → IfOk result (λ draft. DraftHolds draft [] (bytes_in (D.seen disk.new) draft.file)) }
    ensures others { IsTrue D.tells → EachMoment (LeavesOthers (drafted_by slots.old.count) (D.seen disk.old).moments.now) (D.seen disk.old).moments (D.seen disk.new).moments }
    ensures ends { Ends (D.seen disk.old) (D.seen disk.new) result }
{
    match slots.begin(disk, size) {
        Ok(draft) => Ok(draft),
        Err(DraftFault::DiskFault) => Err(Failed),
        Err(DraftFault::CheckpointLimit) => unreachable!(),
        Err(DraftFault::ImageLimit) => unreachable!(),
    }
}

/// Ends a draft, whose image is all there.
pub fn finish<D: Disk>(disk: &mut D, draft: Draft) -> Result<Ready, Failed>
    requires all { draft.image ≤ draft.written }
    requires holds { IsTrue D.tells → (pieces : List ℕ) × DraftHolds draft pieces (bytes_in (D.seen disk.old) draft.file) }
    ensures ok { IfOk result (λ ready. ready ≡ draft.file) }
    ensures whole { IsTrue D.tells → (pieces : List ℕ) → DraftHolds draft pieces (bytes_in (D.seen disk.old) draft.file)
        → OnOk result (bytes_in (D.seen disk.new) draft.file ≡ (to_le_bytes w64 draft.image ++ pieces) ++ 0 ∷ []) }
    ensures area { IsTrue D.tells → (image : List ℕ) (records : List (List ℕ)) → DraftHoldsArea draft image records (bytes_in (D.seen disk.old) draft.file)
        → OnOk result (HasArea image records (file_in (D.seen disk.new) draft.file)) }
    ensures others { IsTrue D.tells → EachMoment (LeavesOthers draft.file (D.seen disk.old).moments.now) (D.seen disk.old).moments (D.seen disk.new).moments }
    ensures ends { Ends (D.seen disk.old) (D.seen disk.new) result }
{
    match draft.finish(disk) {
        Ok(ready) => Ok(ready),
        Err(DraftFault::DiskFault) => Err(Failed),
        Err(DraftFault::CheckpointLimit) => unreachable!(),
        Err(DraftFault::ImageLimit) => unreachable!(),
    }
}

/// Writes the image of this text to a draft of just that length, which has nothing of it yet, and ends the draft.
pub fn write_draft<'a, D: Disk>(
    disk: &mut D,
    draft: Draft,
    text: ImageText<'a>,
) -> Result<Ready, Failed>
    requires whole { draft.image ≡ length text }
    requires none { draft.written ≡ 0 }
    requires holds { IsTrue D.tells → DraftHolds draft [] (bytes_in (D.seen disk.old) draft.file) }
    ensures ok { IfOk result (λ ready. ready ≡ draft.file) }
    ensures holds { IsTrue D.tells → OnOk result (HasImage text.entry (file_in (D.seen disk.new) draft.file)) }
    ensures others { IsTrue D.tells → EachMoment (LeavesOthers draft.file (D.seen disk.old).moments.now) (D.seen disk.old).moments (D.seen disk.new).moments }
    ensures ends { Ends (D.seen disk.old) (D.seen disk.new) result }
{
    let drafted = write_pieces(disk, draft, text)?;
    finish(disk, drafted)
}

/// Drafts the image of this text, which has so many bytes.
pub fn draft_image<'a, D: Disk>(
    disk: &mut D,
    slots: &mut Slots,
    text: ImageText<'a>,
    size: u64,
) -> Result<Ready, Failed>
    requires few { slots.old.count < slots.old.limits.selections }
    requires short { size ≤ slots.old.limits.image }
    requires whole { size ≡ length text }
    ensures same { slots.new ≡ slots.old }
    ensures ok { IfOk result (λ ready. ready ≡ drafted_by slots.old.count) }
    ensures holds { IsTrue D.tells → OnOk result (HasImage text.entry (file_in (D.seen disk.new) (drafted_by slots.old.count))) }
    ensures others { IsTrue D.tells → EachMoment (LeavesOthers (drafted_by slots.old.count) (D.seen disk.old).moments.now) (D.seen disk.old).moments (D.seen disk.new).moments }
    ensures ends { Ends (D.seen disk.old) (D.seen disk.new) result }
{
    let draft = begin(disk, slots, size)?;
    write_draft(disk, draft, text)
}
