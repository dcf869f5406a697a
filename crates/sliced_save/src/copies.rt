//! Copies of what an index holds.

ghost use Rattle.std.specs.Prelude.{◌≡◌, IfOk};
ghost use Rattle.chain_names.specs.Seen.{seen_undo};

use chain_names::{Change, ChangeRoom, Coin, HeldCoin, Item, KeptOp, OpParts, Undo};
use nmc_base::{Boxed, Bytes, CompactBytes, NoMemory, RoomyList};
use std::alloc::Global;

/// An equal coin.
pub(crate) fn copy_coin(alloc: Global, coin: &Coin) -> Result<Coin, NoMemory>
    ensures { IfOk result (λ copy. copy ≡ coin.now) }
{
    match coin {
        Coin::New { hash, height } => Ok(Coin::New {
            hash: *hash,
            height: *height,
        }),
        Coin::Named { name, height } => Ok(Coin::Named {
            name: CompactBytes::copy_of(alloc, name.as_slice())?,
            height: *height,
        }),
    }
}

/// An equal item.
pub(crate) fn copy_item(alloc: Global, item: &Item) -> Result<Item, NoMemory>
    ensures { IfOk result (λ copy. copy ≡ item.now) }
{
    Ok(Item {
        height: item.height,
        registered: item.registered,
        at: item.at,
        value: Bytes::copy_of(alloc, item.value.as_slice())?,
    })
}

/// An equal item before, if there is one.
fn copy_before(alloc: Global, before: &Option<Boxed<Item>>) -> Result<Option<Boxed<Item>>, NoMemory>
    ensures { IfOk result (λ copy. copy ≡ before.now) }
{
    match before {
        None => Ok(None),
        Some(item) => {
            let copy = copy_item(alloc, item.as_ref())?;
            Ok(Some(Boxed::new(alloc, copy)?))
        }
    }
}

/// An equal change.
fn copy_change(alloc: Global, change: &Change) -> Result<Change, NoMemory>
    ensures { IfOk result (λ copy. copy ≡ change.now) }
{
    Ok(Change {
        spent: change.spent,
        coin: copy_coin(alloc, &change.coin)?,
        name: CompactBytes::copy_of(alloc, change.name.as_slice())?,
        before: copy_before(alloc, &change.before)?,
    })
}

/// An equal operation.
fn copy_op(alloc: Global, op: &KeptOp) -> Result<KeptOp, NoMemory>
    ensures { IfOk result (λ copy. copy ≡ op.now) }
{
    match op.parts() {
        OpParts::New { made } => Ok(KeptOp::commitment(*made)),
        OpParts::First { made, change } => {
            let copy = copy_change(alloc, change)?;
            Ok(ChangeRoom::new(alloc)?.first(*made, copy))
        }
        OpParts::Update { made, change } => {
            let copy = copy_change(alloc, change)?;
            Ok(ChangeRoom::new(alloc)?.update(*made, copy))
        }
    }
}

/// Puts equal operations behind those that are there, for which there is room.
fn copy_ops(alloc: Global, ops: &[KeptOp]) -> Result<RoomyList<KeptOp>, NoMemory>
    ensures { IfOk result (λ copy. copy.items ≡ ops.now) }
{
    let mut copy = RoomyList::new(alloc);
    copy.reserve(ops.len())?;
    let mut rest = ops;
    while let [op, more @ ..] = rest {
        copy.push(copy_op(alloc, op)?);
        rest = more;
    }
    Ok(copy)
}

/// An equal coin that an output holds.
fn copy_held(alloc: Global, held: &HeldCoin) -> Result<HeldCoin, NoMemory>
    ensures { IfOk result (λ copy. copy ≡ held.now) }
{
    Ok(HeldCoin {
        at: held.at,
        coin: copy_coin(alloc, &held.coin)?,
    })
}

fn copy_helds(alloc: Global, helds: &[HeldCoin]) -> Result<RoomyList<HeldCoin>, NoMemory>
    ensures { IfOk result (λ copy. copy.items ≡ helds.now) }
{
    let mut copy = RoomyList::new(alloc);
    copy.reserve(helds.len())?;
    let mut rest = helds;
    while let [held, more @ ..] = rest {
        copy.push(copy_held(alloc, held)?);
        rest = more;
    }
    Ok(copy)
}

/// An equal record, without spare room.
pub(crate) fn copy_undo(alloc: Global, undo: &Undo) -> Result<Undo, NoMemory>
    ensures { IfOk result (λ copy. seen_undo copy ≡ seen_undo undo.now) }
{
    let ops = copy_ops(alloc, undo.ops.as_slice())?;
    let expired = copy_helds(alloc, undo.expired.as_slice())?;
    Ok(Undo {
        block: undo.block,
        ops,
        expired,
    })
}
