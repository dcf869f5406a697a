//! The transactions of a block, one after the other.

ghost use Rattle.std.specs.Prelude.{◌≡◌};
ghost use Rattle.std.specs.Option.{option_map};
ghost use Rattle.std.specs.Iterator.{YieldsFirstBy, item_count};
ghost use Rattle.block_grammar.specs.Combinators.{many_from};
ghost use Rattle.block_grammar.specs.Reading.{transaction_from};
ghost use Rattle.block_reader.specs.Seen.{found_at};

use std::marker::Model;
use tx_reader::{Tx, read_tx};

/// The transactions of a block that are still to come, in order. Contracts see them as a list.
#[derive(Drop)]
pub struct Txs<'a> {
    pub(crate) count: u64,
    /// They stand at the front, and bytes may follow them.
    pub(crate) bytes: &'a [u8],
}

impl<'a> Model for Txs<'a> {
    ghost use Rattle.std.specs.Prelude.{List};
    ghost use Rattle.block_grammar.specs.Transaction.{Transaction};
    ghost use Rattle.block_grammar.specs.Combinators.{many_from};
    ghost use Rattle.block_grammar.specs.Reading.{transaction_from};
    ghost use Rattle.wire_read.specs.Seen.{values_read, AreRead};

    ghost Value = { List Transaction };

    ghost view = { λ s. values_read (many_from transaction_from s.count s.bytes.now) };

    ghost invariant = { λ s. AreRead (many_from transaction_from s.count s.bytes.now) };
}

impl<'a> Txs<'a> {
    /// The same transactions once more.
    pub(crate) fn again(&self) -> Txs<'a>
        ensures { result ≡ self.now }
    {
        Txs {
            count: self.count,
            bytes: self.bytes,
        }
    }
}

fn tx_of<'a>(bytes: &'a [u8]) -> Option<(Tx<'a>, &'a [u8])>
    ensures { option_map (λ x. (x.0, x.1.now)) result ≡ found_at (transaction_from bytes.now) }
{
    match read_tx(bytes) {
        Ok((tx, len)) => Some((tx, bytes.split_at(len).1)),
        Err(_) => None,
    }
}

impl<'a> Iterator for Txs<'a> {
    type Item = Tx<'a>;

    ghost next_gives = { YieldsFirstBy (λ t. t) (λ s. s) };

    ghost remaining = { item_count (λ s. s) };

    fn next(&mut self) -> Option<Tx<'a>> {
        if self.count == 0 {
            return None;
        }
        match tx_of(self.bytes) {
            Some((tx, rest)) => {
                self.count -= 1;
                self.bytes = rest;
                Some(tx)
            }
            None => unreachable!(),
        }
    }
}
