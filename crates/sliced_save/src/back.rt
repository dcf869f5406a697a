//! What takes a block back from the parts of a mirror, by the block's record alone.

ghost use Rattle.std.specs.Prelude.{◌≡◌, ◌+◌, ◌*◌, ◌≤◌, OnOk, length, reverse};
ghost use Rattle.std.specs.List.{AllByRecursion};
ghost use Rattle.chain_names.specs.Changes.{back_op, back_ops, moved_back, restored, undone};
ghost use Rattle.chain_names.specs.Limits.{IsWithinLimits, IsWithinLimitsOp, HoldsName};
ghost use Rattle.chain_names.specs.Seen.{seen_undo};
ghost use Rattle.chain_names.specs.Writable.{HasShortName};
ghost use Rattle.chain_state.specs.StageBack.{newest_work};
ghost use Rattle.sliced_save.specs.Mirror.{coin_at, maps_at, maps_below};

use crate::coins::MirrorCoins;
use crate::names::MirrorNames;
use crate::undos::MirrorUndos;
use chain_names::{Change, HeldCoin, KeptOp, OpParts, Undo};
use nmc_base::{NoMemory, OutPoint, Steps};
use std::alloc::Global;
use std::sync::ledger::Ledger;

/// The coins that expired are back.
fn put_back<L: Ledger>(
    alloc: Global,
    coins: &mut MirrorCoins,
    helds: &[HeldCoin],
    steps: &mut Steps<L>,
) -> Result<(), NoMemory>
    requires { AllByRecursion HoldsName helds.now }
    ensures coins { OnOk result (coin_at coins.new ≡ restored helds.now (coin_at coins.old)) }
    ensures cost { steps.new ≤ steps.old + 2 * length helds.now }
{
    let mut rest = helds;
    while let Some((held, fewer)) = rest.split_last() {
        coins.set(alloc, held.at, &held.coin, steps)?;
        rest = fewer;
    }
    Ok(())
}

/// The coin that was made is gone, the one that was spent is back, and the name's last item is gone.
fn move_back<L: Ledger>(
    alloc: Global,
    coins: &mut MirrorCoins,
    names: &mut MirrorNames,
    made: OutPoint,
    change: &Change,
    steps: &mut Steps<L>,
) -> Result<(), NoMemory>
    requires { HasShortName change.now.coin }
    ensures maps { OnOk result (maps_at coins.new names.new ≡ moved_back (maps_at coins.old names.old) made change.now.spent change.now.coin change.now.name) }
    ensures cost { steps.new ≤ steps.old + 6 }
{
    coins.unset(alloc, made, steps)?;
    coins.set(alloc, change.spent, &change.coin, steps)?;
    names.shrink(alloc, change.name.as_slice(), steps)
}

/// One operation is taken back.
fn undo_op<L: Ledger>(
    alloc: Global,
    coins: &mut MirrorCoins,
    names: &mut MirrorNames,
    op: &KeptOp,
    steps: &mut Steps<L>,
) -> Result<(), NoMemory>
    requires { IsWithinLimitsOp op.now }
    ensures maps { OnOk result (maps_at coins.new names.new ≡ back_op op.now (maps_at coins.old names.old)) }
    ensures cost { steps.new ≤ steps.old + 6 }
{
    match op.parts() {
        OpParts::New { made } => coins.unset(alloc, *made, steps),
        OpParts::First { made, change } => move_back(alloc, coins, names, *made, change, steps),
        OpParts::Update { made, change } => move_back(alloc, coins, names, *made, change, steps),
    }
}

/// The operations are taken back, from the last to the first.
fn undo_ops<L: Ledger>(
    alloc: Global,
    coins: &mut MirrorCoins,
    names: &mut MirrorNames,
    ops: &[KeptOp],
    steps: &mut Steps<L>,
) -> Result<(), NoMemory>
    requires { AllByRecursion IsWithinLimitsOp ops.now }
    ensures maps { OnOk result (maps_at coins.new names.new ≡ back_ops ops.now (maps_at coins.old names.old)) }
    ensures cost { steps.new ≤ steps.old + 6 * length ops.now }
{
    let mut rest = ops;
    while let Some((op, fewer)) = rest.split_last() {
        undo_op(alloc, coins, names, op, steps)?;
        rest = fewer;
    }
    Ok(())
}

/// The block of this record is taken back.
fn undo_block<L: Ledger>(
    alloc: Global,
    coins: &mut MirrorCoins,
    names: &mut MirrorNames,
    undo: &Undo,
    steps: &mut Steps<L>,
) -> Result<(), NoMemory>
    requires { IsWithinLimits (seen_undo undo.now) }
    ensures maps { OnOk result (maps_at coins.new names.new ≡ undone (seen_undo undo.now).ops (seen_undo undo.now).expired (maps_at coins.old names.old)) }
    ensures cost { steps.new ≤ steps.old + (6 * length (seen_undo undo.now).ops + 2 * length (seen_undo undo.now).expired) }
{
    put_back(alloc, coins, undo.expired.as_slice(), steps)?;
    undo_ops(alloc, coins, names, undo.ops.as_slice(), steps)?;
    Ok(())
}

/// The newest block is taken back, if there is one.
pub(crate) fn undo_newest<L: Ledger>(
    alloc: Global,
    coins: &mut MirrorCoins,
    names: &mut MirrorNames,
    undos: &MirrorUndos,
    steps: &mut Steps<L>,
) -> Result<(), NoMemory>
    ensures maps { OnOk result (maps_at coins.new names.new ≡ maps_below (reverse undos.now) (maps_at coins.old names.old)) }
    ensures cost { steps.new ≤ steps.old + (6 * newest_work (reverse undos.now) + 1) }
{
    match undos.newest(steps) {
        None => Ok(()),
        Some(undo) => {
            undo_block(alloc, coins, names, undo, steps)?;
            Ok(())
        }
    }
}
