//! Laws of the text of a record. Each is the contract of a function that does nothing.

ghost use Rattle.std.specs.Prelude.{◌≡◌, ◌<◌, ◌++◌, ◌∷◌, [], ℕ, List, Ok, Err, slice_index};
ghost use Rattle.chain_names.specs.Undo.{UndoRecord};
ghost use Rattle.undo_records.specs.declared.version.Version.{Version};
ghost use Rattle.undo_records.specs.Versions.{told};
ghost use Rattle.undo_records.specs.Reading.{undo_from};
ghost use Rattle.undo_records.specs.Text.{undo_text};
ghost use Rattle.chain_names.specs.Writable.{IsWritable};

use crate::fault::FaultKind;

/// The laws of the text of a record, in each version: what the text tells is read again, whatever follows it; two records
/// whose texts stand at the front of the same bytes are told as one; and each proper front of a text, made of bytes, is
/// cut at its end. A text of version 2 tells the whole record, and one of version 1 all but the registration heights.
pub fn text_laws()
    ensures again { (version : Version) (undo : UndoRecord) (more : List ℕ) → IsWritable undo → undo_from version (undo_text version undo ++ more) ≡ Ok (told version undo, more) }
    ensures one { (version : Version) (undo other : UndoRecord) (more others : List ℕ) → IsWritable undo → IsWritable other
        → undo_text version undo ++ more ≡ undo_text version other ++ others → (told version undo ≡ told version other) × (more ≡ others) }
    ensures short { (version : Version) (undo : UndoRecord) (front : List ℕ) (next : ℕ) (more : List ℕ) → ((i : ℕ) → slice_index front i < 256) → IsWritable undo
        → undo_text version undo ≡ front ++ next ∷ more → undo_from version front ≡ Err (FaultKind.Cut, []) }
{}
