//! The witness of a transaction.

ghost use Rattle.std.specs.Prelude.{◌≡◌, ◌-◌, ◌≤◌, false, ◌||◌};
ghost use Rattle.block_grammar.specs.Witness.{has_item};
ghost use Rattle.block_grammar.specs.Combinators.{map_from, many_from, nonzero_from};
ghost use Rattle.block_grammar.specs.Reading.{counted_from, stack_from, last_stack_from, stacks_from};
ghost use Rattle.wire_read.specs.Seen.{seen, seen_rest, rest_read};

use block_grammar::TxKind;
use std::marker::Model;
use wire_read::{Fault, counted_at, size_at};

/// The witness of a transaction (BIP 144): a list of byte strings for each input. Contracts see these lists.
#[derive(Drop)]
pub(crate) struct Witness<'a> {
    inputs: u64,
    /// It stands at the front, and bytes may follow it.
    bytes: &'a [u8],
}

impl<'a> Model for Witness<'a> {
    ghost use Rattle.std.specs.Prelude.{◌-◌, false, List, ℕ};
    ghost use Rattle.block_grammar.specs.Reading.{stacks_from};
    ghost use Rattle.wire_read.specs.Seen.{values_read};

    ghost Value = { List (List (List ℕ)) };

    ghost view = { λ w. values_read (stacks_from false (w.inputs - 1) w.bytes.now) };
}

/// The bytes after so many byte strings.
fn behind_items<'a>(count: u64, bytes: &'a [u8]) -> Result<&'a [u8], Fault<'a>>
    ensures { seen_rest (λ rest. rest.now) result ≡ rest_read (many_from counted_from count bytes.now) }
{
    let mut rest = bytes;
    for _ in 0..count {
        let (_item, after) = counted_at(rest)?;
        rest = after;
    }
    Ok(rest)
}

/// Whether the list at the front has a byte string.
fn stack_in<'a>(bytes: &'a [u8]) -> Result<(bool, &'a [u8]), Fault<'a>>
    ensures { seen (λ x. (x.0, x.1.now)) result ≡ map_from has_item stack_from bytes.now }
{
    let (count, rest) = size_at(bytes)?;
    let after = behind_items(count, rest)?;
    Ok((count != 0, after))
}

/// The bytes after a list.
fn behind_stack<'a>(bytes: &'a [u8]) -> Result<&'a [u8], Fault<'a>>
    ensures { seen_rest (λ rest. rest.now) result ≡ rest_read (stack_from bytes.now) }
{
    let (_has_item, rest) = stack_in(bytes)?;
    Ok(rest)
}

/// The bytes after a list that isn't empty.
fn behind_some_stack<'a>(bytes: &'a [u8]) -> Result<&'a [u8], Fault<'a>>
    ensures { seen_rest (λ rest. rest.now) result ≡ rest_read (nonzero_from TxKind.EmptyWitness stack_from bytes.now) }
{
    if let Some(0) = bytes.first() {
        return Err(Fault {
            kind: TxKind::EmptyWitness,
            rest: bytes,
        });
    }
    behind_stack(bytes)
}

/// The bytes after the last list, which may be empty only where one before it isn't.
#[tactic(auto, unfolding(block_grammar::specs::Reading::last_stack_from))]
fn behind_last<'a>(some: bool, bytes: &'a [u8]) -> Result<&'a [u8], Fault<'a>>
    ensures { seen_rest (λ rest. rest.now) result ≡ rest_read (last_stack_from some bytes.now) }
{
    if some {
        behind_stack(bytes)
    } else {
        behind_some_stack(bytes)
    }
}

fn either(first: bool, second: bool) -> bool
    ensures { result ≡ (first || second) }
{
    first || second
}

/// The bytes after the lists of so many inputs and of one more.
fn behind_stacks<'a>(more: u64, bytes: &'a [u8]) -> Result<&'a [u8], Fault<'a>>
    ensures { seen_rest (λ rest. rest.now) result ≡ rest_read (stacks_from false more bytes.now) }
{
    let mut some = false;
    let mut rest = bytes;
    for _ in 0..more {
        let (has_item, after) = stack_in(rest)?;
        some = either(some, has_item);
        rest = after;
    }
    behind_last(some, rest)
}

/// The witness of so many inputs, or the first fault.
pub(crate) fn witness_in<'a>(
    inputs: u64,
    bytes: &'a [u8],
) -> Result<(Witness<'a>, &'a [u8]), Fault<'a>>
    requires { 1 ≤ inputs }
    ensures { seen (λ x. (x.0, x.1.now)) result ≡ stacks_from false (inputs - 1) bytes.now }
{
    let after = behind_stacks(inputs - 1, bytes)?;
    Ok((Witness { inputs, bytes }, after))
}
