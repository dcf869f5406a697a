//! The readers of the lists of a record. They take memory item by item, so that a count alone costs none.

ghost use Rattle.std.specs.Prelude.{◌≡◌, ◌++◌, ◌∷◌, [], None};
ghost use Rattle.block_grammar.specs.Combinators.{many_from, map_from, then_from};
ghost use Rattle.undo_records.specs.Reading.{op_from, ops_from, is_after, later_point_from, held_from, coins_from, expired_from};
ghost use Rattle.undo_records.specs.Fields.{seen, Gives, Grown, grown_by};

use crate::coins::named_coin_at;
use crate::fault::{Fault, FaultKind, Stop};
use crate::fields::{point_at, u32_at};
use crate::ops::op_at;
use crate::owned::{owned_coin, owned_op};
use crate::version::Version;
use chain_names::{HeldCoin, KeptOp};
use nmc_base::{OutPoint, RoomyList};
use std::alloc::Global;
use std::cmp::Ordering;

/// Adds the operation at the front to those before it, and answers the bytes behind it.
fn next_op<'a>(
    alloc: Global,
    version: Version,
    ops: &mut RoomyList<KeptOp>,
    bytes: &'a [u8],
) -> Result<&'a [u8], Stop<'a>>
    ensures { Gives (λ rest. (ops.new.items, rest.now)) result (map_from (λ op. ops.old.items ++ op ∷ []) (op_from version) bytes.now) }
{
    let (found, rest) = op_at(version, bytes)?;
    ops.reserve(1)?;
    let op = owned_op(alloc, found)?;
    ops.push(op);
    Ok(rest)
}

/// So many operations.
fn many_ops<'a>(
    alloc: Global,
    version: Version,
    count: u32,
    ops: &mut RoomyList<KeptOp>,
    bytes: &'a [u8],
) -> Result<&'a [u8], Stop<'a>>
    requires { ops.old.items ≡ [] }
    ensures { Gives (λ rest. (ops.new.items, rest.now)) result (many_from (op_from version) count bytes.now) }
{
    let mut rest = bytes;
    for _ in 0..count {
        let after = next_op(alloc, version, ops, rest)?;
        rest = after;
    }
    Ok(rest)
}

/// Operations behind their number.
#[tactic(auto, unfolding(crate::specs::Reading::ops_from))]
fn ops_at<'a>(
    alloc: Global,
    version: Version,
    ops: &mut RoomyList<KeptOp>,
    bytes: &'a [u8],
) -> Result<&'a [u8], Stop<'a>>
    requires { ops.old.items ≡ [] }
    ensures { Gives (λ rest. (ops.new.items, rest.now)) result (ops_from version bytes.now) }
{
    let (count, rest) = u32_at(bytes)?;
    many_ops(alloc, version, count, ops, rest)
}

/// Whether the outpoint is greater than the one before, if there is one.
fn is_after(last: Option<OutPoint>, point: &OutPoint) -> bool
    ensures { result ≡ is_after last point.now }
{
    match last {
        Some(before) => match before.order(point) {
            Ordering::Less => true,
            Ordering::Equal => false,
            Ordering::Greater => false,
        },
        None => true,
    }
}

/// An outpoint that is greater than the one before, if there is one. One that isn't is a fault at its first byte.
#[tactic(auto, unfolding(crate::specs::Reading::later_point_from))]
pub fn later_point_at<'a>(
    last: Option<OutPoint>,
    bytes: &'a [u8],
) -> Result<(OutPoint, &'a [u8]), Fault<'a>>
    ensures { seen (λ x. (x.0, x.1.now)) result ≡ later_point_from last bytes.now }
{
    let (point, rest) = point_at(bytes)?;
    if is_after(last, &point) {
        return Ok((point, rest));
    }
    Err(Fault {
        kind: FaultKind::Unsorted,
        rest: bytes,
    })
}

/// Adds the coin at the front to those before it, and answers its outpoint and the bytes behind it.
#[tactic(auto, unfolding(crate::specs::Reading::held_from))]
fn next_coin<'a>(
    alloc: Global,
    last: Option<OutPoint>,
    coins: &mut RoomyList<HeldCoin>,
    bytes: &'a [u8],
) -> Result<(OutPoint, &'a [u8]), Stop<'a>>
    ensures { Gives {A = Grown} (λ x. ((coins.new.items, x.0), x.1.now)) result (map_from (grown_by coins.old.items) (held_from last) bytes.now) }
{
    let (at, rest) = later_point_at(last, bytes)?;
    let (found, rest) = named_coin_at(rest)?;
    coins.reserve(1)?;
    let coin = owned_coin(alloc, found)?;
    coins.push(HeldCoin { at, coin });
    Ok((at, rest))
}

/// So many coins, each behind a greater outpoint than the one before.
fn many_coins<'a>(
    alloc: Global,
    count: u32,
    coins: &mut RoomyList<HeldCoin>,
    bytes: &'a [u8],
) -> Result<&'a [u8], Stop<'a>>
    requires { coins.old.items ≡ [] }
    ensures { Gives (λ rest. (coins.new.items, rest.now)) result (coins_from None count bytes.now) }
{
    let mut last = None;
    let mut rest = bytes;
    for _ in 0..count {
        let (at, after) = next_coin(alloc, last, coins, rest)?;
        last = Some(at);
        rest = after;
    }
    Ok(rest)
}

/// Expired coins behind their number.
#[tactic(auto, unfolding(crate::specs::Reading::expired_from))]
fn expired_at<'a>(
    alloc: Global,
    coins: &mut RoomyList<HeldCoin>,
    bytes: &'a [u8],
) -> Result<&'a [u8], Stop<'a>>
    requires { coins.old.items ≡ [] }
    ensures { Gives (λ rest. (coins.new.items, rest.now)) result (expired_from bytes.now) }
{
    let (count, rest) = u32_at(bytes)?;
    many_coins(alloc, count, coins, rest)
}

/// Both lists of a record, into empty ones.
pub(crate) fn lists_at<'a>(
    alloc: Global,
    version: Version,
    ops: &mut RoomyList<KeptOp>,
    expired: &mut RoomyList<HeldCoin>,
    bytes: &'a [u8],
) -> Result<&'a [u8], Stop<'a>>
    requires ops { ops.old.items ≡ [] }
    requires expired { expired.old.items ≡ [] }
    ensures { Gives (λ rest. ((ops.new.items, expired.new.items), rest.now)) result (then_from (ops_from version) (λ _. expired_from) bytes.now) }
{
    let rest = ops_at(alloc, version, ops, bytes)?;
    expired_at(alloc, expired, rest)
}
