//! The transactions of a block, and their Merkle root.

ghost use Rattle.std.specs.Prelude.{◌≡◌, ◌++◌, Some, None, IfOk, IfSome};
ghost use Rattle.std.specs.Option.{option_copied};
ghost use Rattle.block_grammar.specs.Hashes.{double_sha256};
ghost use Rattle.block_maker.specs.Seen.{making_at, asked_at, HasShortParts};
ghost use Rattle.block_maker.specs.Pieces.{Holds};

use crate::operation::MakeOp;
use crate::transaction::{coinbase_text, name_text};
use nmc_base::{Bytes, Hash32, NoMemory};
use sha2::{Digest, Sha256};
use std::alloc::Global;

/// The transactions of a block: how many there are, their bytes one after the other, and their Merkle root.
#[derive(Drop)]
pub(crate) struct Contents {
    pub(crate) count: u8,
    pub(crate) text: Bytes,
    pub(crate) root: Hash32,
}

fn hash_of(text: &[u8]) -> Hash32
    ensures { result.0 ≡ double_sha256 text.now }
{
    Hash32(Sha256::digest(Sha256::digest(text)))
}

/// The hash above two hashes ("Merkle Trees").
fn joined(left: &Hash32, right: &Hash32) -> Hash32
    ensures { result.0 ≡ double_sha256 (left.now.0 ++ right.now.0) }
{
    let mut hasher = Sha256::new();
    hasher.update(left.0);
    hasher.update(right.0);
    Hash32(Sha256::digest(hasher.finalize()))
}

/// The coinbase alone.
fn coinbase_alone(alloc: Global, height: u32) -> Result<Contents, NoMemory>
    ensures { IfOk result (λ contents. Holds contents height None) }
{
    let text = coinbase_text(alloc, height)?;
    let root = hash_of(text.as_slice());
    Ok(Contents {
        count: 1,
        text,
        root,
    })
}

/// The coinbase and the transaction of the operation.
fn coinbase_and_name(alloc: Global, height: u32, op: &MakeOp<'_>) -> Result<Contents, NoMemory>
    requires { HasShortParts op.now }
    ensures { IfOk result (λ contents. Holds contents height (Some (making_at height op.now))) }
{
    let mut text = coinbase_text(alloc, height)?;
    let name = name_text(alloc, height, op)?;
    let root = joined(&hash_of(text.as_slice()), &hash_of(name.as_slice()));
    text.extend(name.as_slice())?;
    Ok(Contents {
        count: 2,
        text,
        root,
    })
}

/// The coinbase of a block at a height, and the transaction of the operation, where there is one.
pub(crate) fn contents_at(
    alloc: Global,
    height: u32,
    op: Option<&MakeOp<'_>>,
) -> Result<Contents, NoMemory>
    requires { IfSome op (λ o. HasShortParts o.now) }
    ensures { IfOk result (λ contents. Holds contents height (asked_at height (option_copied op.entry))) }
{
    match op {
        None => coinbase_alone(alloc, height),
        Some(op) => coinbase_and_name(alloc, height, op),
    }
}
