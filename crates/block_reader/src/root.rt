//! The Merkle root of a block, and the ids of its transactions.

ghost use Rattle.std.specs.Prelude.{◌≡◌, ◌≤◌, ◌++◌, ◌∷◌, [], map, length, drop, IfOk};
ghost use Rattle.block_grammar.specs.Transaction.{txid_of};
ghost use Rattle.block_grammar.specs.Merkle.{paired_row, merkle_root_of, block_root};
ghost use Rattle.block_reader.specs.Rows.{seen_row};

use crate::block::Block;
use nmc_base::{Hash32, NoMemory};
use sha2::{Digest, Sha256};
use std::alloc::Global;
use tx_reader::txid;

/// The double SHA-256 of two hashes, joined.
fn joined(left: &Hash32, right: &Hash32) -> Hash32
    ensures { paired_row (left.now.0 ∷ right.now.0 ∷ []) ≡ result.0 ∷ [] }
{
    let mut hasher = Sha256::new();
    hasher.update(left.0);
    hasher.update(right.0);
    Hash32(Sha256::digest(hasher.finalize()))
}

/// The ids of a block's transactions, in order.
pub fn txids(alloc: Global, block: &Block<'_>) -> Result<Vec<Hash32>, NoMemory>
    ensures value { IfOk result (λ ids. seen_row ids.items ≡ map txid_of block.now.transactions) }
    ensures some { IfOk result (λ ids. 1 ≤ length ids.items) }
{
    let mut ids = Vec::new(alloc);
    for tx in block.txs() {
        ids.push(txid(&tx))?;
    }
    Ok(ids)
}

/// The row above: neighbours joined, and the last hash of an odd row with itself.
fn row_above(alloc: Global, row: &[Hash32]) -> Result<Vec<Hash32>, NoMemory>
    ensures { IfOk result (λ above. seen_row above.items ≡ paired_row (seen_row row.now)) }
{
    let mut above = Vec::new(alloc);
    let mut rest = row;
    while let [left, right, more @ ..] = rest {
        above.push(joined(left, right))?;
        rest = more;
    }
    if let [last] = rest {
        above.push(joined(last, last))?;
    }
    Ok(above)
}

/// The first hash of the row above.
fn first_above(row: &[Hash32]) -> Hash32
    requires { 1 ≤ length row.now }
    ensures { paired_row (seen_row row.now) ≡ result.0 ∷ paired_row (seen_row (drop 2 row.now)) }
{
    match row {
        [left, right, ..] => joined(left, right),
        [last] => joined(last, last),
        [] => unreachable!(),
    }
}

/// Puts the row above in place of the row. It takes no memory.
fn climb(row: &mut Vec<Hash32>)
    ensures { seen_row row.new.items ≡ paired_row (seen_row row.old.items) }
{
    let mut made = 0;
    let mut next = 0;
    while next < row.len() {
        let above = first_above(row.split_at(next).1);
        row[made] = above;
        made += 1;
        next += 2;
    }
    row.truncate(made);
}

/// The Merkle root of a row of ids ("Merkle Trees"). The row above it takes half as much memory, and those above that
/// one take none.
#[tactic(auto, unfolding(block_grammar::specs::Merkle::block_root))]
pub fn root_of(alloc: Global, ids: &[Hash32]) -> Result<Hash32, NoMemory>
    requires { 1 ≤ length ids.now }
    ensures { IfOk result (λ root. root.0 ≡ merkle_root_of (seen_row ids.now)) }
{
    if ids.len() < 2 {
        return Ok(ids[0]);
    }
    let mut row = row_above(alloc, ids)?;
    while row.len() > 1 {
        climb(&mut row);
    }
    match row.first() {
        Some(root) => Ok(*root),
        None => unreachable!(),
    }
}

/// The Merkle root of the transactions' ids.
#[tactic(auto, unfolding(block_grammar::specs::Merkle::block_root))]
pub fn merkle_root(alloc: Global, block: &Block<'_>) -> Result<Hash32, NoMemory>
    ensures { IfOk result (λ root. root.0 ≡ block_root block.now) }
{
    let ids = txids(alloc, block)?;
    root_of(alloc, &ids)
}
