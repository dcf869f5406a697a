//! The parts of a block, each with the first fault.

ghost use Rattle.std.specs.Prelude.{◌≡◌};
ghost use Rattle.block_grammar.specs.Combinators.{within, many_from};
ghost use Rattle.block_grammar.specs.Reading.{transaction_from, header_from, count_from};
ghost use Rattle.wire_read.specs.Seen.{rest_read};
ghost use Rattle.block_reader.specs.Seen.{stopped, stopped_rest};

use auxpow_header::{Header, read_header};
use block_grammar::BlockKind;
use tx_reader::read_tx;
use wire_read::size_at;

/// The first fault in a block, and the bytes from its place on.
#[derive(Clone, Copy, Debug)]
pub(crate) struct Stop<'a> {
    pub(crate) kind: BlockKind,
    pub(crate) rest: &'a [u8],
}

pub(crate) fn header_in<'a>(bytes: &'a [u8]) -> Result<(Header<'a>, &'a [u8]), Stop<'a>>
    ensures { stopped (λ x. (x.0, x.1.now)) result ≡ within BlockKind.Header header_from bytes.now }
{
    match read_header(bytes) {
        Ok((header, len)) => Ok((header, bytes.split_at(len).1)),
        Err(fault) => Err(Stop {
            kind: BlockKind::Header(fault.kind),
            rest: bytes.split_at(fault.at).1,
        }),
    }
}

/// The number of transactions, which is 1 at least.
#[tactic(auto, unfolding(block_grammar::specs::Reading::count_from))]
pub(crate) fn count_in<'a>(bytes: &'a [u8]) -> Result<(u64, &'a [u8]), Stop<'a>>
    ensures { stopped (λ x. (x.0, x.1.now)) result ≡ count_from bytes.now }
{
    if let Some(0) = bytes.first() {
        return Err(Stop {
            kind: BlockKind::NoTransaction,
            rest: bytes,
        });
    }
    match size_at(bytes) {
        Ok((count, rest)) => Ok((count, rest)),
        Err(fault) => Err(Stop {
            kind: BlockKind::Count(fault.kind),
            rest: fault.rest,
        }),
    }
}

/// The bytes after a transaction.
fn behind_transaction<'a>(bytes: &'a [u8]) -> Result<&'a [u8], Stop<'a>>
    ensures { stopped_rest (λ rest. rest.now) result ≡ rest_read (within BlockKind.Transaction transaction_from bytes.now) }
{
    match read_tx(bytes) {
        Ok((_tx, len)) => Ok(bytes.split_at(len).1),
        Err(fault) => Err(Stop {
            kind: BlockKind::Transaction(fault.kind),
            rest: bytes.split_at(fault.at).1,
        }),
    }
}

/// The bytes after so many transactions.
pub(crate) fn behind_transactions<'a>(count: u64, bytes: &'a [u8]) -> Result<&'a [u8], Stop<'a>>
    ensures { stopped_rest (λ rest. rest.now) result ≡ rest_read (many_from (within BlockKind.Transaction transaction_from) count bytes.now) }
{
    let mut rest = bytes;
    for _ in 0..count {
        rest = behind_transaction(rest)?;
    }
    Ok(rest)
}
