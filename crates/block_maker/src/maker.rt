//! Makes a block on a tip.

ghost use Rattle.std.specs.Prelude.{◌≡◌, ◌+◌, ◌<◌, ◌≤◌, length, slice_range, Ok, IfOk, IfSome};
ghost use Rattle.std.specs.Option.{option_copied};
ghost use Rattle.nmc_base.specs.Heights.{highest};
ghost use Rattle.nmc_base.specs.declared.limits.TheConstants.{LONGEST_BLOCK};
ghost use Rattle.block_grammar.specs.PureHeader as plain;
ghost use Rattle.block_grammar.specs.Block.{IsBlock};
ghost use Rattle.block_grammar.specs.Block as full;
ghost use Rattle.block_grammar.specs.Reading.{block_from};
ghost use Rattle.block_maker.specs.Generated.{height_script, generated_header};
ghost use Rattle.block_maker.specs.Carried.{IsMade};
ghost use Rattle.block_maker.specs.Seen.{asked_on, block_on, HasShortParts};
ghost use Rattle.block_maker.specs.Pieces.{IsPutTogether};

use crate::contents::{Contents, contents_at};
use crate::operation::MakeOp;
use nmc_base::{Bytes, Hash32, NoMemory, Tip};
use std::alloc::Global;

/// The version of a generated block.
const VERSION: u32 = 4;

/// The easiest target, as its four bytes give it, low byte first ("nBits").
const BITS: u32 = 0x207F_FFFF;

/// Makes blocks for trials and tests. It holds nothing.
#[derive(Clone, Copy, Debug)]
pub struct Maker;

/// The header of a block with this root on the tip: 80 bytes.
fn header_in(alloc: Global, previous: Tip, root: Hash32) -> Result<Bytes, NoMemory>
    requires { previous.height < highest }
    ensures { IfOk result (λ text. text ≡ plain.pure_header_text (generated_header previous root.0)) }
{
    let mut text = Bytes::copy_of(alloc, &VERSION.to_le_bytes())?;
    text.extend(&previous.hash.0)?;
    text.extend(&root.0)?;
    text.extend(&(previous.height + 1).to_le_bytes())?;
    text.extend(&BITS.to_le_bytes())?;
    text.extend(&[0; 4])?;
    Ok(text)
}

/// A block of these contents on the tip.
fn put_together(alloc: Global, previous: Tip, contents: &Contents) -> Result<Bytes, NoMemory>
    requires { previous.height < highest }
    ensures { IfOk result (λ bytes. IsPutTogether bytes previous contents.now) }
{
    let mut bytes = header_in(alloc, previous, contents.root)?;
    bytes.extend(&[contents.count])?;
    bytes.extend(contents.text.as_slice())?;
    Ok(bytes)
}

impl Maker {
    /// A maker. It takes no memory.
    pub fn new() -> Maker
        ensures { result ≡ record {} }
    {
        Maker
    }

    /// The bytes of the block on the tip that carries the operation, or none. Behind its coinbase, whose script is the
    /// block's height, stands the operation's transaction; its time is its height too. No work is done for it.
    ///
    /// `NoMemory` is the only other answer.
    pub fn block(
        &self,
        alloc: Global,
        previous: Tip,
        op: Option<&MakeOp<'_>>,
    ) -> Result<Bytes, NoMemory>
        requires height { previous.height < highest }
        requires parts { IfSome op (λ o. HasShortParts o.now) }
        // The bytes are the block of the definition, all of them.
        ensures block { IfOk result (λ bytes. IsBlock bytes (block_on previous (option_copied op.entry))) }
        // They are short enough to be read, and are read as that block.
        ensures short { IfOk result (λ bytes. length bytes ≤ LONGEST_BLOCK) }
        ensures again { IfOk result (λ bytes. block_from bytes ≡ Ok (block_on previous (option_copied op.entry))) }
        // The block that the bytes are stands on the tip, and carries a name transaction of the operation, or none.
        ensures made { IfOk result (λ bytes. (b : full.Block) → IsBlock bytes b → IsMade b previous (asked_on previous (option_copied op.entry))) }
        // The coinbase's script, at its place in the bytes, is a push of the height.
        ensures height { IfOk result (λ bytes. slice_range bytes 123 128 ≡ height_script (previous.height + 1)) }
    {
        let contents = contents_at(alloc, previous.height + 1, op)?;
        put_together(alloc, previous, &contents)
    }
}
