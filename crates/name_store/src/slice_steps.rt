//! The steps of a slice: a piece of the image, and the records behind it, go to the draft.

// The steps of a slice: what is written to the draft, and its selection.
ghost use Rattle.std.specs.Prelude.{◌≡◌, ◌≢◌, ◌+◌, ◌-◌, ◌<◌, ◌≤◌, ℕ, List, ◌++◌, length, take, drop, min, IsTrue};
ghost use Rattle.disk_model.specs.DiskSeen.{file_in, bytes_in};
ghost use Rattle.chain_commands.specs.RunState.{longest_area};
ghost use Rattle.image_slots.specs.Selections.{selected_by, drafted_by, selections_file};
ghost use Rattle.image_slots.specs.Slotted.{AreOn};
ghost use Rattle.image_slots.specs.Drafted.{DraftHolds, longest_draft};
ghost use Rattle.image_files.specs.Saving.{SelectsArea};
ghost use Rattle.name_store.specs.Drafting.{IsNextOf};
ghost use Rattle.name_store.specs.SliceSteps.{WritesMore, HoldsSoFar, WritesNext, IsWholeWith};
ghost use Rattle.name_store.specs.declared.slice_steps.TheConstants.{LONGEST_SLICE};

use disk_model::{Disk, Failed};
use image_files::select_draft;
use image_slots::{Draft, DraftFault, Slots};

/// So many bytes has a slice at most.
pub const LONGEST_SLICE: usize = 65536;

/// Writes a piece of the image to the draft, which has room for it.
fn write_piece<D: Disk>(disk: &mut D, draft: &mut Draft, piece: &[u8]) -> Result<(), DraftFault>
    requires room { 0 < length piece.now → draft.old.written + length piece.now ≤ draft.old.image }
    requires holds { IsTrue D.tells → (pieces : List ℕ) × DraftHolds draft.old pieces (bytes_in (D.seen disk.old) draft.old.file) }
    ensures { WritesMore D.tells draft.old draft.new (length piece.now) piece.now (D.seen disk.old) (D.seen disk.new) result }
{
    if piece.is_empty() {
        return Ok(());
    }
    draft.piece(disk, piece)
}

/// Copies so many bytes of this file, from a place on, behind the image of the draft, by way of the buffer, which takes as many.
///
/// Where the file is shorter, as it is on no disk that tells its files, the buffer's own bytes stand in the place of those that lack.
fn copy_by<D: Disk>(
    disk: &mut D,
    draft: &mut Draft,
    file: u8,
    at: u64,
    count: usize,
    buffer: &mut [u8],
) -> Result<(), DraftFault>
    requires file { file < 3 }
    requires size { length buffer.old ≡ count }
    requires all { draft.old.image ≤ draft.old.written }
    requires room { 9 + (draft.old.written + count) ≤ longest_draft }
    requires holds { IsTrue D.tells → (pieces : List ℕ) × DraftHolds draft.old pieces (bytes_in (D.seen disk.old) draft.old.file) }
    requires inside { IsTrue D.tells → at + count ≤ length (bytes_in (D.seen disk.old) file) }
    ensures { WritesMore D.tells draft.old draft.new count (take count (drop at (bytes_in (D.seen disk.old) file))) (D.seen disk.old) (D.seen disk.new) result }
{
    disk.read(file, at, buffer)?;
    draft.tail(disk, buffer)
}

/// Copies so many bytes of this file, from a place on, behind the image of the draft.
fn copy<D: Disk>(
    disk: &mut D,
    draft: &mut Draft,
    file: u8,
    at: u64,
    count: usize,
) -> Result<(), DraftFault>
    requires file { file < 3 }
    requires few { count ≤ LONGEST_SLICE }
    requires all { draft.old.image ≤ draft.old.written }
    requires room { 9 + (draft.old.written + count) ≤ longest_draft }
    requires holds { IsTrue D.tells → (pieces : List ℕ) × DraftHolds draft.old pieces (bytes_in (D.seen disk.old) draft.old.file) }
    requires inside { IsTrue D.tells → at + count ≤ length (bytes_in (D.seen disk.old) file) }
    ensures { WritesMore D.tells draft.old draft.new count (take count (drop at (bytes_in (D.seen disk.old) file))) (D.seen disk.old) (D.seen disk.new) result }
{
    let mut buffer = [0; LONGEST_SLICE];
    copy_by(disk, draft, file, at, count, &mut buffer[..count])
}

/// Writes so many bytes more of what is left to the draft: the piece of the image, and behind the whole image what the selected area in this
/// file has from this place on.
fn write_both<D: Disk>(
    disk: &mut D,
    draft: &mut Draft,
    piece: &[u8],
    file: u8,
    at: u64,
    count: usize,
) -> Result<(), DraftFault>
    requires file { file < 3 }
    requires apart { file ≢ draft.old.file }
    requires few { count ≤ LONGEST_SLICE }
    requires room { 0 < length piece.now → draft.old.written + length piece.now ≤ draft.old.image }
    requires all { 0 < count → draft.old.image ≤ draft.old.written + length piece.now }
    requires short { 9 + (draft.old.written + length piece.now + count) ≤ longest_draft }
    requires holds { IsTrue D.tells → (pieces : List ℕ) × DraftHolds draft.old pieces (bytes_in (D.seen disk.old) draft.old.file) }
    requires inside { IsTrue D.tells → 0 < count → at + count ≤ length (bytes_in (D.seen disk.old) file) }
    ensures { WritesMore D.tells draft.old draft.new (length piece.now + count) (piece.now ++ take count (drop at (bytes_in (D.seen disk.old) file))) (D.seen disk.old) (D.seen disk.new) result }
{
    if count == 0 {
        return write_piece(disk, draft, piece);
    }
    write_piece(disk, draft, piece)?;
    copy(disk, draft, file, at, count)
}

/// Writes so many bytes more of what is left to a draft that was begun at this length of the selected area in this file: first the piece of its
/// image, and what is no longer of the image from the selected area.
pub fn write_next<D: Disk>(
    disk: &mut D,
    draft: &mut Draft,
    from: u64,
    file: u8,
    piece: &[u8],
    count: usize,
) -> Result<(), DraftFault>
    requires file { file < 3 }
    requires apart { file ≢ draft.old.file }
    requires few { count ≤ LONGEST_SLICE }
    requires some { 1 ≤ from }
    requires near { from ≤ longest_area }
    requires piece { length piece.now ≡ min count (draft.old.image - draft.old.written) }
    requires short { 9 + (draft.old.written + count) ≤ longest_draft }
    requires holds { IsTrue D.tells → (pieces : List ℕ) × DraftHolds draft.old pieces (bytes_in (D.seen disk.old) draft.old.file) }
    requires inside { IsTrue D.tells → from + (draft.old.written + count - draft.old.image) ≤ length (bytes_in (D.seen disk.old) file) }
    ensures { WritesNext D.tells file (record { draft = draft.old; from = from }) (record { draft = draft.new; from = from }) count piece.now (D.seen disk.old) (D.seen disk.new) result }
{
    let copied = draft.written().saturating_sub(draft.image());
    write_both(
        disk,
        draft,
        piece,
        file,
        from - 1 + copied,
        count - piece.len(),
    )
}

/// Writes all that is left to a draft, so many bytes, ends it and selects its area. Says how many selections there are then.
pub fn write_last<D: Disk>(
    disk: &mut D,
    slots: &mut Slots,
    draft: Draft,
    from: u64,
    piece: &[u8],
    count: usize,
) -> Result<u32, Failed>
    requires few { slots.old.count < slots.old.limits.selections }
    requires drafted { draft.file ≡ drafted_by slots.old.count }
    requires slice { count ≤ LONGEST_SLICE }
    requires some { 1 ≤ from }
    requires near { from ≤ longest_area }
    requires piece { length piece.now ≡ min count (draft.image - draft.written) }
    requires all { draft.image ≤ draft.written + count }
    requires short { 9 + (draft.written + count) ≤ longest_draft }
    requires holds { IsTrue D.tells → (image : List ℕ) × (draft.image ≡ length image) × IsNextOf (record { draft = draft; from = from }) image piece.now × HoldsSoFar (record { draft = draft; from = from }) (selected_by slots.old.count) image (D.seen disk.old) }
    requires inside { IsTrue D.tells → from + (draft.written + count - draft.image) ≤ length (bytes_in (D.seen disk.old) (selected_by slots.old.count)) }
    requires on_disk { IsTrue D.tells → (front : List ℕ) × AreOn front slots.old (file_in (D.seen disk.old) selections_file) }
    ensures { SelectsArea D.tells slots.old slots.new (IsWholeWith (selected_by slots.old.count) (record { draft = draft; from = from }) count piece.now (D.seen disk.old)) (D.seen disk.old) (D.seen disk.new) result }
{
    let mut draft = draft;
    match write_next(disk, &mut draft, from, slots.selected(), piece, count) {
        Ok(()) => select_draft(disk, slots, draft),
        Err(_) => Err(Failed),
    }
}
