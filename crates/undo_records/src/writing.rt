//! Writes a record.

ghost use Rattle.std.specs.Prelude.{◌≡◌, ◌++◌, List, ℕ, Ok, OnOk, OnErr};
ghost use Rattle.chain_names.specs.Seen.{seen_undo};
ghost use Rattle.undo_records.specs.declared.version.Version.TheVariants.{Two};
ghost use Rattle.undo_records.specs.Text.{undo_text};
ghost use Rattle.undo_records.specs.Reading.{undo_from};
ghost use Rattle.chain_names.specs.Limits.{IsWithinLimits};
ghost use Rattle.chain_names.specs.Writable.{IsWritable};

use crate::text::{add_expired, add_ops, add_u32};
use crate::widths::read_widths;
use chain_names::Undo;
use nmc_base::{Bytes, NoMemory};

/// Appends the text of a record, in version 2. Where memory runs out, half a text may stand at the list's end.
#[tactic(auto, unfolding(crate::specs::Text::undo_text))]
pub fn add_undo(out: &mut Bytes, undo: &Undo) -> Result<(), NoMemory>
    requires { IsWithinLimits (seen_undo undo.now) }
    ensures { OnOk result (out.new ≡ out.old ++ undo_text Two (seen_undo undo.now)) }
{
    out.extend(&undo.block.0)?;
    add_u32(out, undo.ops.len() as u32)?;
    add_ops(out, undo.ops.as_slice())?;
    add_u32(out, undo.expired.len() as u32)?;
    add_expired(out, undo.expired.as_slice())
}

/// Appends the text of a record, in version 2. Where memory runs out, the list stays as it was.
///
/// Outpoints are ordered as `OutPoint`s are: by the bytes of the txids, and then by the index as a number.
pub fn write(undo: &Undo, out: &mut Bytes) -> Result<(), NoMemory>
    // Names have 255 bytes at most and values 1023, each list has fewer than 2^32 members, each operation spends a coin
    // of its kind, and the coins that expired are those of names, each behind a greater outpoint than the one before.
    requires { IsWithinLimits (seen_undo undo.now) }
    ensures ok { OnOk result (out.new ≡ out.old ++ undo_text Two (seen_undo undo.now)) }
    ensures err { OnErr result (out.new ≡ out.old) }
    // The record has a text: its fields are as wide as their types.
    ensures writable { IsWritable (seen_undo undo.now) }
    // What is written is read again, whatever follows.
    ensures again { (more : List ℕ) → undo_from Two (undo_text Two (seen_undo undo.now) ++ more) ≡ Ok (seen_undo undo.now, more) }
{
    read_widths(undo);
    let mut text = out.empty_alike();
    add_undo(&mut text, undo)?;
    out.extend(text.as_slice())
}
