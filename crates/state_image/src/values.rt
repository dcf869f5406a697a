//! The readers of the values of an image.

ghost use Rattle.std.specs.Prelude.{◌≡◌};
ghost use Rattle.undo_records.specs.Fields.{seen, seen_coin};
ghost use Rattle.undo_records.specs.Reading.{held_from};
ghost use Rattle.std.specs.Option.{option_copied};
ghost use Rattle.image_grammar.specs.Reading.{coin_from, entry_from, entry_of_pair, undo_head_from, comes_after, later_name_from, item_count_from, history_head_from};

use nmc_base::{Hash32, OutPoint};
use std::cmp::Ordering;
use undo_records::coins::{NEW, bad_tag, named_coin_at, new_coin_at};
use undo_records::fault::{Fault, FaultKind, cut};
use undo_records::fields::{hash_at, name_at, u32_at};
use undo_records::found::FoundCoin;
use undo_records::lists::later_point_at;

/// A coin of either kind.
fn coin_at<'a>(bytes: &'a [u8]) -> Result<(FoundCoin<'a>, &'a [u8]), Fault<'a>>
    ensures { seen (λ x. (seen_coin x.0, x.1.now)) result ≡ coin_from bytes.now }
{
    let Some((tag, _)) = bytes.split_first() else {
        return Err(cut());
    };
    if *tag == NEW {
        new_coin_at(bytes)
    } else {
        named_coin_at(bytes)
    }
}

/// A coin behind an outpoint that is greater than the one before.
pub(crate) fn entry_at<'a>(
    last: Option<OutPoint>,
    bytes: &'a [u8],
) -> Result<(OutPoint, FoundCoin<'a>, &'a [u8]), Fault<'a>>
    ensures { seen (λ x. (entry_of_pair (x.0, seen_coin x.1), x.2.now)) result ≡ entry_from last bytes.now }
{
    let (at, rest) = later_point_at(last, bytes)?;
    let (coin, rest) = coin_at(rest)?;
    Ok((at, coin, rest))
}

/// The hash of a record's block, and the number of its operations.
pub(crate) fn undo_head_at<'a>(bytes: &'a [u8]) -> Result<(Hash32, u32, &'a [u8]), Fault<'a>>
    ensures { seen (λ x. ((x.0.0, x.1), x.2.now)) result ≡ undo_head_from bytes.now }
{
    let (hash, rest) = hash_at(bytes)?;
    let (ops, rest) = u32_at(rest)?;
    Ok((Hash32(hash), ops, rest))
}

/// Whether the name is greater than the one before, if there is one: by their bytes.
fn comes_after(last: Option<&[u8]>, name: &[u8]) -> bool
    ensures { result ≡ comes_after (option_copied last.entry) name.now }
{
    match last {
        Some(before) => match before.cmp(name) {
            Ordering::Less => true,
            Ordering::Equal => false,
            Ordering::Greater => false,
        },
        None => true,
    }
}

/// A name that is greater than the one before. One that isn't is a fault at its length byte.
fn later_name_at<'a>(
    last: Option<&[u8]>,
    bytes: &'a [u8],
) -> Result<(&'a [u8], &'a [u8]), Fault<'a>>
    ensures { seen (λ x. (x.0.now, x.1.now)) result ≡ later_name_from (option_copied last.entry) bytes.entry.now }
{
    let (name, rest) = name_at(bytes)?;
    if comes_after(last, name) {
        return Ok((name, rest));
    }
    Err(Fault {
        kind: FaultKind::Unsorted,
        rest: bytes,
    })
}

/// The number of a name's items. 0 is a fault at its first byte.
fn item_count_at<'a>(bytes: &'a [u8]) -> Result<(u32, &'a [u8]), Fault<'a>>
    ensures { seen (λ x. (x.0, x.1.now)) result ≡ item_count_from bytes.now }
{
    let (items, rest) = u32_at(bytes)?;
    if items == 0 {
        return Err(bad_tag(bytes));
    }
    Ok((items, rest))
}

/// A name that is greater than the one before, and the number of its items.
pub(crate) fn history_head_at<'a>(
    last: Option<&[u8]>,
    bytes: &'a [u8],
) -> Result<(&'a [u8], u32, &'a [u8]), Fault<'a>>
    ensures { seen (λ x. ((x.0.now, x.1), x.2.now)) result ≡ history_head_from (option_copied last.entry) bytes.entry.now }
{
    let (name, rest) = later_name_at(last, bytes)?;
    let (items, rest) = item_count_at(rest)?;
    Ok((name, items, rest))
}

/// The coin of a name behind an outpoint that is greater than the one before.
#[tactic(auto, unfolding(undo_records::specs::Reading::held_from))]
pub(crate) fn held_at<'a>(
    last: Option<OutPoint>,
    bytes: &'a [u8],
) -> Result<(OutPoint, FoundCoin<'a>, &'a [u8]), Fault<'a>>
    ensures { seen (λ x. (entry_of_pair (x.0, seen_coin x.1), x.2.now)) result ≡ held_from last bytes.now }
{
    let (at, rest) = later_point_at(last, bytes)?;
    let (coin, rest) = named_coin_at(rest)?;
    Ok((at, coin, rest))
}
