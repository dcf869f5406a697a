//! Writes numbers and byte strings as blocks have them.

ghost use Rattle.std.specs.Prelude.{◌≡◌, ◌++◌, ◌<◌, ◌^◌, length, OnOk};
ghost use Rattle.block_grammar.specs.CompactSize.{compact_size, counted};

use nmc_base::{Bytes, NoMemory};

/// The mark of a compact size of two bytes more.
const TWO_BYTES: u8 = 0xFD;

/// The mark of a compact size of four bytes more.
const FOUR_BYTES: u8 = 0xFE;

/// Appends the compact size of a number, in its shortest form.
#[tactic(auto, unfolding(block_grammar::specs::CompactSize::compact_size))]
fn size_to(out: &mut Bytes, size: u32) -> Result<(), NoMemory>
    ensures { OnOk result (out.new ≡ out.old ++ compact_size size) }
{
    if size < 0xFD {
        return out.extend(&[size as u8]);
    }
    if size < 0x1_0000 {
        out.extend(&[TWO_BYTES])?;
        return out.extend(&(size as u16).to_le_bytes());
    }
    out.extend(&[FOUR_BYTES])?;
    out.extend(&size.to_le_bytes())
}

/// Appends bytes behind their number.
pub(crate) fn counted_to(out: &mut Bytes, bytes: &[u8]) -> Result<(), NoMemory>
    requires { length bytes.now < 2 ^ 32 }
    ensures { OnOk result (out.new ≡ out.old ++ counted bytes.now) }
{
    size_to(out, bytes.len() as u32)?;
    out.extend(bytes)
}
