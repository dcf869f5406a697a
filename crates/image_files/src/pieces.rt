//! Writing the text of an image into a draft, piece by piece.
ghost use Rattle.std.specs.Prelude.{◌≡◌, ◌+◌, ◌<◌, ◌≤◌, List, ℕ, ◌++◌, length, IsTrue, OnOk, IfOk};
ghost use Rattle.disk_model.specs.Moments.{EachMoment};
ghost use Rattle.disk_model.specs.Changes.{LeavesOthers};
ghost use Rattle.disk_model.specs.DiskSeen.{Ends, bytes_in};
ghost use Rattle.image_slots.specs.Drafted.{DraftHolds};
ghost use Rattle.image_files.specs.Pieces.{IsDrafted, MovesOn};

use disk_model::{Disk, Failed};
use image_slots::{Draft, DraftFault};
use image_writer::ImageText;

/// So many bytes has a piece, but for the last one.
const PIECE: usize = 65536;

/// Adds a piece to the draft.
fn add_piece<D: Disk>(disk: &mut D, draft: &mut Draft, bytes: &[u8]) -> Result<(), Failed>
    requires room { draft.old.written + length bytes.now ≤ draft.old.image }
    requires holds { IsTrue D.tells → (pieces : List ℕ) × DraftHolds draft.old pieces (bytes_in (D.seen disk.old) draft.old.file) }
    ensures ok { OnOk result (draft.new ≡ record draft.old { written = draft.old.written + length bytes.now }) }
    ensures holds { IsTrue D.tells → (pieces : List ℕ) → DraftHolds draft.old pieces (bytes_in (D.seen disk.old) draft.old.file)
        → OnOk result (DraftHolds draft.new (pieces ++ bytes.now) (bytes_in (D.seen disk.new) draft.new.file)) }
    ensures others { IsTrue D.tells → EachMoment (LeavesOthers draft.old.file (D.seen disk.old).moments.now) (D.seen disk.old).moments (D.seen disk.new).moments }
    ensures ends { Ends (D.seen disk.old) (D.seen disk.new) result }
{
    match draft.piece(disk, bytes) {
        Ok(()) => Ok(()),
        Err(DraftFault::DiskFault) => Err(Failed),
        Err(DraftFault::CheckpointLimit) => unreachable!(),
        Err(DraftFault::ImageLimit) => unreachable!(),
    }
}

/// Writes the next piece of the text into the draft, by way of the buffer. False where nothing is left.
fn write_piece<'a, D: Disk>(
    disk: &mut D,
    draft: &mut Draft,
    text: &mut ImageText<'a>,
    buffer: &mut [u8],
) -> Result<bool, Failed>
    requires some { 0 < length buffer.old }
    requires room { draft.old.written + length text.old ≡ draft.old.image }
    requires holds { IsTrue D.tells → (image : List ℕ) × IsDrafted image draft.old text.old (bytes_in (D.seen disk.old) draft.old.file) }
    ensures moves { IfOk result (λ more. MovesOn draft.old text.old draft.new text.new more) }
    ensures holds { IsTrue D.tells → (image : List ℕ) → IsDrafted image draft.old text.old (bytes_in (D.seen disk.old) draft.old.file)
        → OnOk result (IsDrafted image draft.new text.new (bytes_in (D.seen disk.new) draft.new.file)) }
    ensures others { IsTrue D.tells → EachMoment (LeavesOthers draft.old.file (D.seen disk.old).moments.now) (D.seen disk.old).moments (D.seen disk.new).moments }
    ensures ends { Ends (D.seen disk.old) (D.seen disk.new) result }
{
    let count = text.next(buffer);
    let bytes = &buffer[..count];
    add_piece(disk, draft, bytes)?;
    Ok(count != 0)
}

/// Writes what is left of the text into the draft, which has room for just that.
pub fn write_pieces<'a, D: Disk>(
    disk: &mut D,
    draft: Draft,
    text: ImageText<'a>,
) -> Result<Draft, Failed>
    requires room { draft.written + length text ≡ draft.image }
    requires holds { IsTrue D.tells → (image : List ℕ) × IsDrafted image draft text (bytes_in (D.seen disk.old) draft.file) }
    ensures ok { IfOk result (λ drafted. drafted ≡ record draft { written = draft.image }) }
    ensures holds { IsTrue D.tells → (image : List ℕ) → IsDrafted image draft text.entry (bytes_in (D.seen disk.old) draft.file)
        → IfOk result (λ drafted. DraftHolds drafted image (bytes_in (D.seen disk.new) drafted.file)) }
    ensures others { IsTrue D.tells → EachMoment (LeavesOthers draft.file (D.seen disk.old).moments.now) (D.seen disk.old).moments (D.seen disk.new).moments }
    ensures ends { Ends (D.seen disk.old) (D.seen disk.new) result }
{
    let mut draft = draft;
    let mut text = text;
    let mut buffer = [0; PIECE];
    'pieces: loop {
        if !write_piece(disk, &mut draft, &mut text, &mut buffer)? {
            return Ok(draft);
        }
    }
}
