//! A block, read in place.

ghost use Rattle.std.specs.Prelude.{◌≡◌, ◌≤◌, ◌<◌, ◌+◌, ◌^◌, length, Ok};
ghost use Rattle.block_grammar.specs.Block as full;
ghost use Rattle.block_grammar.specs.Block.{count_outputs};
ghost use Rattle.block_grammar.specs.Reading.{block_front_from, block_from};
ghost use Rattle.nmc_base.specs.declared.limits.TheConstants.{LONGEST_BLOCK};
ghost use Rattle.block_reader.specs.Seen.{stopped};
ghost use Rattle.block_reader.specs.Whole.{told, IsRead, GivesBlock};

use crate::parts::{Stop, behind_transactions, count_in, header_in};
use crate::txs::Txs;
use auxpow_header::Header;
use block_grammar::BlockKind;
use std::marker::Model;

/// Why bytes are no block.
#[derive(Clone, Copy, PartialEq, Eq, Debug)]
pub struct BlockFault {
    pub kind: BlockKind,
    /// The number of bytes before the first one that no block can have there, or the input's length.
    pub at: u32,
}

/// A block (Bitcoin's "block"), read in place. Contracts see its contents.
#[derive(Drop)]
pub struct Block<'a> {
    header: Header<'a>,
    count: u32,
    txs: Txs<'a>,
}

impl<'a> Model for Block<'a> {
    ghost use Rattle.std.specs.Prelude.{◌≡◌, ◌≤◌, ◌<◌, ◌^◌, length};
    ghost use Rattle.block_grammar.specs.Block as full;
    ghost use Rattle.block_grammar.specs.Block.{count_outputs};

    ghost Value = { full.Block };

    ghost view = { λ b. record { header = b.header; transactions = b.txs } };

    ghost invariant = { λ b. (b.count ≡ length b.txs) × (1 ≤ length b.txs) × (count_outputs b.txs < 2 ^ 32) };
}

impl<'a> Block<'a> {
    /// The header with its merge-mining part.
    pub fn header(&self) -> &Header<'a>
        ensures { result.now ≡ self.now.header }
    {
        &self.header
    }

    /// The transactions, in order.
    pub fn txs(&self) -> Txs<'a>
        ensures value { result ≡ self.now.transactions }
        ensures some { 1 ≤ length result }
        ensures few_outputs { count_outputs self.now.transactions < 2 ^ 32 }
    {
        self.txs.again()
    }

    /// How many transactions there are.
    pub fn count(&self) -> u32
        ensures value { result ≡ length self.now.transactions }
        ensures few_outputs { count_outputs self.now.transactions < 2 ^ 32 }
    {
        self.count
    }
}

#[tactic(auto, unfolding(block_grammar::specs::Reading::block_front_from))]
fn front_in<'a>(bytes: &'a [u8]) -> Result<(Block<'a>, &'a [u8]), Stop<'a>>
    requires { length bytes.now ≤ LONGEST_BLOCK }
    ensures { stopped (λ x. (x.0, x.1.now)) result ≡ block_front_from bytes.now }
{
    let (header, rest) = header_in(bytes)?;
    let (count, rest) = count_in(rest)?;
    let after = behind_transactions(count, rest)?;
    let txs = Txs { count, bytes: rest };
    let count = count as u32;
    let block = Block { header, count, txs };
    Ok((block, after))
}

#[tactic(auto, unfolding(block_grammar::specs::Reading::block_from))]
fn whole_in<'a>(bytes: &'a [u8]) -> Result<Block<'a>, Stop<'a>>
    requires { length bytes.now ≤ LONGEST_BLOCK }
    ensures { told result ≡ block_from bytes.now }
{
    let (block, rest) = front_in(bytes)?;
    match rest {
        [] => Ok(block),
        _ => Err(Stop {
            kind: BlockKind::Trailing,
            rest,
        }),
    }
}

fn fault_at(kind: BlockKind, bytes: &[u8], rest: &[u8]) -> BlockFault
    requires small { length bytes.now ≤ LONGEST_BLOCK }
    requires shorter { length rest.now ≤ length bytes.now }
    ensures kind { result.kind ≡ kind }
    ensures at { result.at + length rest.now ≡ length bytes.now }
{
    let at = (bytes.len() - rest.len()) as u32;
    BlockFault { kind, at }
}

/// Reads the bytes, all of them, as a block.
pub fn read_block<'a>(bytes: &'a [u8]) -> Result<Block<'a>, BlockFault>
    requires { length bytes.now ≤ LONGEST_BLOCK }
    // What is read is the block, and each fault is the first.
    ensures read { IsRead bytes.now result }
    // Each block is read.
    ensures only { (b : full.Block) → full.IsBlock bytes.now b → result ≡ Ok b }
    // The same, by the reader on lists.
    ensures exact { GivesBlock bytes.now result }
{
    match whole_in(bytes) {
        Ok(block) => Ok(block),
        Err(stop) => Err(fault_at(stop.kind, bytes, stop.rest)),
    }
}
