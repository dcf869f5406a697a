//! A record is as wide as its fields, which a proof knows of fields that are read.

ghost use Rattle.std.specs.Prelude.{◌≡◌, length};
ghost use Rattle.std.specs.List.{AllByRecursion};
ghost use Rattle.chain_names.specs.declared.coin.Coin.TheVariants.{New};
ghost use Rattle.chain_names.specs.Limits.{IsWithinLimits};
ghost use Rattle.chain_names.specs.Measured.{IsMeasuredCoin, IsMeasuredItem};
ghost use Rattle.chain_names.specs.Seen.{seen_undo};
ghost use Rattle.chain_names.specs.Writable.{IsWritablePoint, IsWritable};
ghost use Rattle.undo_records.specs.Measured.{IsMeasuredBefore, IsMeasuredChange, IsMeasuredOp, IsMeasuredHeld, IsMeasured};

use chain_names::{Change, Coin, HeldCoin, Item, KeptOp, OpParts, Undo};
use nmc_base::{Boxed, Hash20, Hash32, OutPoint};

/// The widths of an outpoint.
pub fn read_point(at: OutPoint)
    ensures { IsWritablePoint at }
{}

fn read_commitment(at: OutPoint, hash: Hash20, height: u32)
    ensures { IsMeasuredCoin at (New hash height) }
{}

/// The widths of a coin and its outpoint.
pub fn read_coin(at: OutPoint, coin: &Coin)
    ensures { IsMeasuredCoin at coin.now }
{
    match coin {
        Coin::New { hash, height } => read_commitment(at, *hash, *height),
        Coin::Named { height, .. } => {
            let _height = *height;
        }
    }
}

/// The widths of an item.
pub fn read_item(item: &Item)
    ensures { IsMeasuredItem item.now }
{
    let (_height, _registered) = (item.height, item.registered);
    read_point(item.at);
}

fn read_before(before: &Option<Boxed<Item>>)
    ensures { IsMeasuredBefore before.now }
{
    if let Some(item) = before {
        read_item(item.as_ref());
    }
}

fn read_change(made: OutPoint, change: &Change)
    ensures { IsMeasuredChange made change.now.spent change.now.coin change.now.before }
{
    read_point(made);
    read_coin(change.spent, &change.coin);
    read_before(&change.before);
}

fn read_op(op: &KeptOp)
    ensures { IsMeasuredOp op.now }
{
    match op.parts() {
        OpParts::New { made } => read_point(*made),
        OpParts::First { made, change } => read_change(*made, change),
        OpParts::Update { made, change } => read_change(*made, change),
    }
}

fn read_ops(ops: &[KeptOp])
    ensures { AllByRecursion IsMeasuredOp ops.now }
{
    let mut rest = ops;
    while let [op, more @ ..] = rest {
        read_op(op);
        rest = more;
    }
}

fn read_expired(expired: &[HeldCoin])
    ensures { AllByRecursion IsMeasuredHeld expired.now }
{
    let mut rest = expired;
    while let [held, more @ ..] = rest {
        read_coin(held.at, &held.coin);
        rest = more;
    }
}

fn read_block(block: Hash32)
    ensures { length block.0 ≡ 32 }
{}

/// The widths of a record.
pub fn read_record(undo: &Undo)
    ensures { IsMeasured (seen_undo undo.now) }
{
    read_block(undo.block);
    read_ops(undo.ops.as_slice());
    read_expired(undo.expired.as_slice());
}

/// A record within its limits has a text, since its fields are as wide as their types.
pub(crate) fn read_widths(undo: &Undo)
    requires { IsWithinLimits (seen_undo undo.now) }
    ensures { IsWritable (seen_undo undo.now) }
{
    read_record(undo);
}
