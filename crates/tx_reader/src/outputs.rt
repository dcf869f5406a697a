//! The outputs of a transaction, one after the other.

ghost use Rattle.std.specs.Prelude.{◌≡◌};
ghost use Rattle.std.specs.Iterator.{YieldsFirstBy, item_count};
ghost use Rattle.block_grammar.specs.Combinators.{many_from};
ghost use Rattle.block_grammar.specs.Reading.{some_from, output_from};
ghost use Rattle.wire_read.specs.Seen.{seen, seen_rest, rest_read};
ghost use Rattle.tx_reader.specs.Fields.{seen_output};

use block_grammar::TxKind;
use std::marker::Model;
use wire_read::{Fault, counted_at, some_size_at, u64_at};

/// An output of a transaction (Bitcoin's "txout").
#[derive(Clone, Copy, Debug)]
pub struct TxOut<'a> {
    /// The amount, in units of 10^-8 coins.
    pub value: u64,
    /// The script that locks it.
    pub script: &'a [u8],
}

/// The outputs of a transaction that are still to come, in order. Contracts see them as a list.
#[derive(Drop)]
pub struct Outputs<'a> {
    count: u64,
    /// They stand at the front, and bytes may follow them.
    bytes: &'a [u8],
}

impl<'a> Model for Outputs<'a> {
    ghost use Rattle.std.specs.Prelude.{List};
    ghost use Rattle.block_grammar.specs.Transaction.{TxOutput};
    ghost use Rattle.block_grammar.specs.Combinators.{many_from};
    ghost use Rattle.block_grammar.specs.Reading.{output_from};
    ghost use Rattle.wire_read.specs.Seen.{values_read, AreRead};

    ghost Value = { List TxOutput };

    ghost view = { λ s. values_read (many_from output_from s.count s.bytes.now) };

    ghost invariant = { λ s. AreRead (many_from output_from s.count s.bytes.now) };
}

impl<'a> Outputs<'a> {
    /// The same outputs once more.
    pub(crate) fn again(&self) -> Outputs<'a>
        ensures { result ≡ self.now }
    {
        Outputs {
            count: self.count,
            bytes: self.bytes,
        }
    }
}

impl<'a> Iterator for Outputs<'a> {
    type Item = TxOut<'a>;

    ghost next_gives = { YieldsFirstBy seen_output (λ s. s) };

    ghost remaining = { item_count (λ s. s) };

    fn next(&mut self) -> Option<TxOut<'a>> {
        if self.count == 0 {
            return None;
        }
        match output_in(self.bytes) {
            Ok((output, rest)) => {
                self.count -= 1;
                self.bytes = rest;
                Some(output)
            }
            Err(_) => unreachable!(),
        }
    }
}

/// The output at the front, or the first fault.
#[tactic(auto, unfolding(block_grammar::specs::Reading::output_from))]
fn output_in<'a>(bytes: &'a [u8]) -> Result<(TxOut<'a>, &'a [u8]), Fault<'a>>
    ensures { seen (λ x. (seen_output x.0, x.1.now)) result ≡ output_from bytes.now }
{
    let (value, rest) = u64_at(bytes)?;
    let (script, rest) = counted_at(rest)?;
    Ok((TxOut { value, script }, rest))
}

/// The bytes after so many outputs.
fn behind_outputs<'a>(count: u64, bytes: &'a [u8]) -> Result<&'a [u8], Fault<'a>>
    ensures { seen_rest (λ rest. rest.now) result ≡ rest_read (many_from output_from count bytes.now) }
{
    let mut rest = bytes;
    for _ in 0..count {
        let (_output, after) = output_in(rest)?;
        rest = after;
    }
    Ok(rest)
}

/// Outputs behind their number, which is 1 at least, or the first fault.
pub(crate) fn outputs_in<'a>(bytes: &'a [u8]) -> Result<(Outputs<'a>, &'a [u8]), Fault<'a>>
    ensures { seen (λ x. (x.0, x.1.now)) result ≡ some_from TxKind.NoOutput output_from bytes.now }
{
    let (count, rest) = some_size_at(TxKind::NoOutput, bytes)?;
    let after = behind_outputs(count, rest)?;
    Ok((Outputs { count, bytes: rest }, after))
}
