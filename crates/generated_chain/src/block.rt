//! Makes the blocks.

ghost use Rattle.std.specs.Prelude.{◌≡◌, ℕ, ◌+◌, ◌<◌, ◌≤◌, length, IfOk, IfSome};
ghost use Rattle.nmc_base.specs.Heights.{highest};
ghost use Rattle.nmc_base.specs.declared.limits.TheConstants.{LONGEST_BLOCK};
ghost use Rattle.block_grammar.specs.Block.{IsBlock, block_hash};
ghost use Rattle.block_grammar.specs.Block as full;
ghost use Rattle.block_maker.specs.Generated.{generated_block};
ghost use Rattle.generated_chain.specs.Reading.{second_output};
ghost use Rattle.block_maker.specs.Seen.{asked_at, HasShortParts};
ghost use Rattle.block_maker.specs.declared.operation.TheConstants.{LONGEST_PART};
ghost use Rattle.generated_chain.specs.Stands.{committed_at as committed_at_of, making_by, making_with};

use crate::stand::Deed;
use crate::texts::{name_text, value_text};
use block_maker::{MakeOp, Maker};
use block_reader::{read_block, txids};
use hash160::hash160_pair;
use nmc_base::{Bytes, Hash32, NoMemory, OutPoint, Tip};
use std::alloc::Global;

/// The height of the NAME_NEW that makes or opens the commitment.
fn committed_at(deed: &Deed, height: u32) -> u32
    ensures { result ≡ committed_at_of height deed.now }
{
    match deed {
        Deed::Open(waiting) => waiting.height,
        _ => height,
    }
}

/// The operation that does this to a name, with this rand and this value.
fn operation<'a>(deed: &Deed, name: &'a [u8], rand: &'a [u8], value: &'a [u8]) -> Option<MakeOp<'a>>
    requires { (length name.now ≤ LONGEST_PART) × (length rand.now ≤ LONGEST_PART) × (length value.now ≤ LONGEST_PART) }
    ensures making { (height : ℕ) → asked_at height result ≡ making_with height name.now rand.now value.now deed.now }
    ensures parts { IfSome result HasShortParts }
{
    match deed {
        Deed::Nothing => None,
        Deed::Commit => Some(MakeOp::New {
            hash: hash160_pair(rand, name),
        }),
        Deed::Open(waiting) => Some(MakeOp::First {
            name,
            rand,
            value,
            spent: waiting.output,
        }),
        Deed::Update(changed) => Some(MakeOp::Update {
            name,
            value,
            spent: changed.output,
        }),
    }
}

/// The block on the tip that does this to the name.
pub(crate) fn block_with(
    alloc: Global,
    tip: Tip,
    number: u8,
    deed: &Deed,
) -> Result<Bytes, NoMemory>
    requires { tip.height < highest }
    ensures block { IfOk result (λ bytes. IsBlock bytes (generated_block tip (making_by (tip.height + 1) number deed.now))) }
    ensures short { IfOk result (λ bytes. length bytes ≤ LONGEST_BLOCK) }
{
    let height = tip.height + 1;
    let committed = committed_at(deed, height);
    let name = name_text(alloc, number)?;
    let value = value_text(alloc, height)?;
    let rand = committed.to_le_bytes();
    let op = operation(deed, name.as_slice(), &rand, value.as_slice());
    Maker::new().block(alloc, tip, op.as_ref())
}

/// The hash of a block, and the first output of its second transaction, where there is one.
pub(crate) fn ends_of(alloc: Global, bytes: &[u8]) -> Result<(Hash32, Option<OutPoint>), NoMemory>
    requires block { (b : full.Block) × IsBlock bytes.now b }
    requires short { length bytes.now ≤ LONGEST_BLOCK }
    ensures hash { IfOk result (λ ends. ends.0.0 ≡ block_hash bytes.now) }
    ensures output { IfOk result (λ ends. (b : full.Block) → IsBlock bytes.now b → ends.1 ≡ second_output b.transactions) }
{
    match read_block(bytes) {
        Ok(block) => {
            let ids = txids(alloc, &block)?;
            let output = ids.get(1).map(|txid| OutPoint {
                txid: *txid,
                index: 0,
            });
            Ok((block.header().hash(), output))
        }
        Err(_) => unreachable!(),
    }
}
