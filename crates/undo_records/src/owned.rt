//! What was found, with memory of its own.

ghost use Rattle.std.specs.Prelude.{◌≡◌, IfOk};
ghost use Rattle.undo_records.specs.Fields.{seen_coin, seen_item, seen_before, seen_change, seen_op, op_of};

use crate::found::{ChangeKind, FoundChange, FoundCoin, FoundItem, FoundOp};
use chain_names::{Change, ChangeRoom, Coin, Item, KeptOp};
use nmc_base::{Boxed, Bytes, CompactBytes, NoMemory};
use std::alloc::Global;

/// The same coin.
pub fn owned_coin(alloc: Global, found: FoundCoin<'_>) -> Result<Coin, NoMemory>
    ensures { IfOk result (λ coin. coin ≡ seen_coin found.entry) }
{
    match found {
        FoundCoin::New { hash, height } => Ok(Coin::New { hash, height }),
        FoundCoin::Named { name, height } => {
            let name = CompactBytes::copy_of(alloc, name)?;
            Ok(Coin::Named { name, height })
        }
    }
}

/// The same item.
pub fn owned_item(alloc: Global, found: FoundItem<'_>) -> Result<Item, NoMemory>
    ensures { IfOk result (λ item. item ≡ seen_item found.entry) }
{
    let value = Bytes::copy_of(alloc, found.value)?;
    Ok(Item {
        height: found.height,
        registered: found.registered,
        at: found.at,
        value,
    })
}

fn owned_before(
    alloc: Global,
    found: Option<FoundItem<'_>>,
) -> Result<Option<Boxed<Item>>, NoMemory>
    ensures { IfOk result (λ before. before ≡ seen_before found.entry) }
{
    match found {
        Some(item) => {
            let item = owned_item(alloc, item)?;
            Ok(Some(Boxed::new(alloc, item)?))
        }
        None => Ok(None),
    }
}

fn owned_change(
    alloc: Global,
    kind: ChangeKind,
    change: FoundChange<'_>,
) -> Result<KeptOp, NoMemory>
    ensures { IfOk result (λ op. op ≡ op_of kind (seen_change change.entry)) }
{
    let room = ChangeRoom::new(alloc)?;
    let made = change.made;
    let change = Change {
        spent: change.spent,
        coin: owned_coin(alloc, change.coin)?,
        name: CompactBytes::copy_of(alloc, change.name)?,
        before: owned_before(alloc, change.before)?,
    };
    match kind {
        ChangeKind::First => Ok(room.first(made, change)),
        ChangeKind::Update => Ok(room.update(made, change)),
    }
}

/// The same operation.
pub fn owned_op(alloc: Global, found: FoundOp<'_>) -> Result<KeptOp, NoMemory>
    ensures { IfOk result (λ op. op ≡ seen_op found.entry) }
{
    match found {
        FoundOp::New { made } => Ok(KeptOp::commitment(made)),
        FoundOp::Change(kind, change) => owned_change(alloc, kind, change),
    }
}
