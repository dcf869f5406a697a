//! Where the merge-mining part of a header ends.

ghost use Rattle.std.specs.Prelude.{◌≡◌};
ghost use Rattle.block_grammar.specs.Combinators.{many_from};
ghost use Rattle.block_grammar.specs.Reading.{transaction_from, piece_from, branch_from, merge_part_from, merged_from};
ghost use Rattle.wire_read.specs.Seen.{seen_rest, rest_read};
ghost use Rattle.auxpow_header.specs.Seen.{is_merged_version};

use crate::fields::fields_in;
use tx_reader::read_tx;
use wire_read::{Fault, hash_at, size_at, u32_at};

/// The bytes after a transaction.
fn behind_transaction<'a>(bytes: &'a [u8]) -> Result<&'a [u8], Fault<'a>>
    ensures { seen_rest (λ rest. rest.now) result ≡ rest_read (transaction_from bytes.now) }
{
    match read_tx(bytes) {
        Ok((_tx, len)) => Ok(bytes.split_at(len).1),
        Err(fault) => Err(Fault {
            kind: fault.kind,
            rest: bytes.split_at(fault.at).1,
        }),
    }
}

/// The bytes after so many hashes.
fn behind_hashes<'a>(count: u64, bytes: &'a [u8]) -> Result<&'a [u8], Fault<'a>>
    ensures { seen_rest (λ rest. rest.now) result ≡ rest_read (many_from (piece_from 32) count bytes.now) }
{
    let mut rest = bytes;
    for _ in 0..count {
        let (_hash, after) = hash_at(rest)?;
        rest = after;
    }
    Ok(rest)
}

/// The bytes after a Merkle branch, and its index.
fn behind_branch<'a>(bytes: &'a [u8]) -> Result<&'a [u8], Fault<'a>>
    ensures { seen_rest (λ rest. rest.now) result ≡ rest_read (branch_from bytes.now) }
{
    let (count, rest) = size_at(bytes)?;
    behind_hashes(count, rest)
}

/// The bytes after the merge-mining part.
#[tactic(auto, unfolding(block_grammar::specs::Reading::merge_part_from))]
fn behind_part<'a>(bytes: &'a [u8]) -> Result<&'a [u8], Fault<'a>>
    ensures { seen_rest (λ rest. rest.now) result ≡ rest_read (merge_part_from bytes.now) }
{
    let rest = behind_transaction(bytes)?;
    let (_parent_hash, rest) = hash_at(rest)?;
    let rest = behind_branch(rest)?;
    let (_index, rest) = u32_at(rest)?;
    let rest = behind_branch(rest)?;
    let (_index, rest) = u32_at(rest)?;
    let (_parent, rest) = fields_in(rest)?;
    Ok(rest)
}

/// Version bit 0x100 says that a merge-mining part follows the 80 bytes.
const MERGED: u32 = 0x100;

/// Whether the version says that a merge-mining part follows.
pub(crate) fn is_merged(version: u32) -> bool
    ensures { result ≡ is_merged_version version }
{
    version & MERGED != 0
}

/// The bytes after the merge-mining part, where the version says that there is one.
#[tactic(auto, unfolding(block_grammar::specs::Reading::merged_from))]
pub(crate) fn behind_merged<'a>(version: u32, bytes: &'a [u8]) -> Result<&'a [u8], Fault<'a>>
    ensures { seen_rest (λ rest. rest.now) result ≡ rest_read (merged_from version bytes.now) }
{
    if is_merged(version) {
        behind_part(bytes)
    } else {
        Ok(bytes)
    }
}
