//! The inputs of a transaction, one after the other.

ghost use Rattle.std.specs.Prelude.{◌≡◌, length};
ghost use Rattle.std.specs.Iterator.{YieldsFirstBy, item_count};
ghost use Rattle.block_grammar.specs.Combinators.{many_from};
ghost use Rattle.block_grammar.specs.Reading.{some_from, input_from};
ghost use Rattle.wire_read.specs.Seen.{seen, seen_rest, rest_read};
ghost use Rattle.tx_reader.specs.Fields.{seen_input};

use block_grammar::TxKind;
use nmc_base::{Hash32, OutPoint};
use std::marker::Model;
use wire_read::{Fault, counted_at, hash_at, some_size_at, u32_at};

/// An input of a transaction (Bitcoin's "txin").
#[derive(Clone, Copy, Debug)]
pub struct TxIn<'a> {
    /// The output that is spent.
    pub previous: OutPoint,
    /// The script that unlocks it.
    pub script: &'a [u8],
    pub sequence: u32,
}

/// The inputs of a transaction that are still to come, in order. Contracts see them as a list.
#[derive(Drop)]
pub struct Inputs<'a> {
    count: u64,
    /// They stand at the front, and bytes may follow them.
    bytes: &'a [u8],
}

impl<'a> Model for Inputs<'a> {
    ghost use Rattle.std.specs.Prelude.{List};
    ghost use Rattle.block_grammar.specs.Transaction.{TxInput};
    ghost use Rattle.block_grammar.specs.Combinators.{many_from};
    ghost use Rattle.block_grammar.specs.Reading.{input_from};
    ghost use Rattle.wire_read.specs.Seen.{values_read, AreRead};

    ghost Value = { List TxInput };

    ghost view = { λ s. values_read (many_from input_from s.count s.bytes.now) };

    ghost invariant = { λ s. AreRead (many_from input_from s.count s.bytes.now) };
}

impl<'a> Inputs<'a> {
    /// How many there are.
    pub(crate) fn how_many(&self) -> u64
        ensures { result ≡ length self.now }
    {
        self.count
    }

    /// The same inputs once more.
    pub(crate) fn again(&self) -> Inputs<'a>
        ensures { result ≡ self.now }
    {
        Inputs {
            count: self.count,
            bytes: self.bytes,
        }
    }
}

impl<'a> Iterator for Inputs<'a> {
    type Item = TxIn<'a>;

    ghost next_gives = { YieldsFirstBy seen_input (λ s. s) };

    ghost remaining = { item_count (λ s. s) };

    fn next(&mut self) -> Option<TxIn<'a>> {
        if self.count == 0 {
            return None;
        }
        match input_in(self.bytes) {
            Ok((input, rest)) => {
                self.count -= 1;
                self.bytes = rest;
                Some(input)
            }
            Err(_) => unreachable!(),
        }
    }
}

/// The input at the front, or the first fault.
#[tactic(auto, unfolding(block_grammar::specs::Reading::input_from))]
fn input_in<'a>(bytes: &'a [u8]) -> Result<(TxIn<'a>, &'a [u8]), Fault<'a>>
    ensures { seen (λ x. (seen_input x.0, x.1.now)) result ≡ input_from bytes.now }
{
    let (txid, rest) = hash_at(bytes)?;
    let (index, rest) = u32_at(rest)?;
    let (script, rest) = counted_at(rest)?;
    let (sequence, rest) = u32_at(rest)?;
    let previous = OutPoint {
        txid: Hash32(txid),
        index,
    };
    let input = TxIn {
        previous,
        script,
        sequence,
    };
    Ok((input, rest))
}

/// The bytes after so many inputs.
fn behind_inputs<'a>(count: u64, bytes: &'a [u8]) -> Result<&'a [u8], Fault<'a>>
    ensures { seen_rest (λ rest. rest.now) result ≡ rest_read (many_from input_from count bytes.now) }
{
    let mut rest = bytes;
    for _ in 0..count {
        let (_input, after) = input_in(rest)?;
        rest = after;
    }
    Ok(rest)
}

/// Inputs behind their number, which is 1 at least, or the first fault.
pub(crate) fn inputs_in<'a>(bytes: &'a [u8]) -> Result<(Inputs<'a>, &'a [u8]), Fault<'a>>
    ensures { seen (λ x. (x.0, x.1.now)) result ≡ some_from TxKind.NoInput input_from bytes.now }
{
    let (count, rest) = some_size_at(TxKind::NoInput, bytes)?;
    let after = behind_inputs(count, rest)?;
    Ok((Inputs { count, bytes: rest }, after))
}
