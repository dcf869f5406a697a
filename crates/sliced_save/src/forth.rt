//! What a block does to the parts of a mirror, as the tables of the index have it now.

ghost use Rattle.std.specs.Prelude.{◌≡◌, ◌+◌, ◌*◌, ◌≤◌, length, OnOk};
ghost use Rattle.chain_names.specs.Tables.{coins_in, names_in};
ghost use Rattle.sliced_save.specs.Changes.{AreShortCoins, AreFitNames, refreshed_point, refreshed_op, refreshed_ops, refreshed_helds, grown_op, grown_ops};
ghost use Rattle.sliced_save.specs.Mirror.{coin_at, items_at};

use crate::coins::MirrorCoins;
use crate::names::MirrorNames;
use chain_names::{HeldCoin, KeptOp, OpParts};
use name_coins::Coins;
use name_table::Table;
use nmc_base::{NoMemory, OutPoint, Steps};
use std::alloc::Global;
use std::sync::ledger::Ledger;

/// The outpoint has the coin that it has in the table.
fn refresh_point<L: Ledger>(
    alloc: Global,
    coins: &mut MirrorCoins,
    at: OutPoint,
    table: &Coins,
    steps: &mut Steps<L>,
) -> Result<(), NoMemory>
    requires { AreShortCoins (coins_in table.now) }
    ensures coins { OnOk result (coin_at coins.new ≡ refreshed_point table.now at (coin_at coins.old)) }
    ensures cost { steps.new ≤ steps.old + 3 }
{
    match table.get(&at, steps) {
        Some(coin) => coins.set(alloc, at, coin, steps),
        None => coins.unset(alloc, at, steps),
    }
}

/// The outpoint that was made, and the one that was spent.
fn refresh_both<L: Ledger>(
    alloc: Global,
    coins: &mut MirrorCoins,
    made: OutPoint,
    spent: OutPoint,
    table: &Coins,
    steps: &mut Steps<L>,
) -> Result<(), NoMemory>
    requires { AreShortCoins (coins_in table.now) }
    ensures coins { OnOk result (coin_at coins.new ≡ refreshed_point table.now spent (refreshed_point table.now made (coin_at coins.old))) }
    ensures cost { steps.new ≤ steps.old + 6 }
{
    refresh_point(alloc, coins, made, table, steps)?;
    refresh_point(alloc, coins, spent, table, steps)?;
    Ok(())
}

/// The outpoints that the operation made and spent.
fn refresh_op<L: Ledger>(
    alloc: Global,
    coins: &mut MirrorCoins,
    op: &KeptOp,
    table: &Coins,
    steps: &mut Steps<L>,
) -> Result<(), NoMemory>
    requires { AreShortCoins (coins_in table.now) }
    ensures coins { OnOk result (coin_at coins.new ≡ refreshed_op table.now op.now (coin_at coins.old)) }
    ensures cost { steps.new ≤ steps.old + 6 }
{
    match op.parts() {
        OpParts::New { made } => refresh_point(alloc, coins, *made, table, steps),
        OpParts::First { made, change } => {
            refresh_both(alloc, coins, *made, change.spent, table, steps)
        }
        OpParts::Update { made, change } => {
            refresh_both(alloc, coins, *made, change.spent, table, steps)
        }
    }
}

/// The outpoints of all operations.
pub(crate) fn refresh_ops<L: Ledger>(
    alloc: Global,
    coins: &mut MirrorCoins,
    ops: &[KeptOp],
    table: &Coins,
    steps: &mut Steps<L>,
) -> Result<(), NoMemory>
    requires { AreShortCoins (coins_in table.now) }
    ensures coins { OnOk result (coin_at coins.new ≡ refreshed_ops table.now ops.now (coin_at coins.old)) }
    ensures cost { steps.new ≤ steps.old + 6 * length ops.now }
{
    let mut rest = ops;
    while let [op, more @ ..] = rest {
        refresh_op(alloc, coins, op, table, steps)?;
        rest = more;
    }
    Ok(())
}

/// The outpoints of the coins that expired.
pub(crate) fn refresh_helds<L: Ledger>(
    alloc: Global,
    coins: &mut MirrorCoins,
    helds: &[HeldCoin],
    table: &Coins,
    steps: &mut Steps<L>,
) -> Result<(), NoMemory>
    requires { AreShortCoins (coins_in table.now) }
    ensures coins { OnOk result (coin_at coins.new ≡ refreshed_helds table.now helds.now (coin_at coins.old)) }
    ensures cost { steps.new ≤ steps.old + 3 * length helds.now }
{
    let mut rest = helds;
    while let [held, more @ ..] = rest {
        refresh_point(alloc, coins, held.at, table, steps)?;
        rest = more;
    }
    Ok(())
}

/// The name that the operation gave a value has all its items.
fn grow_op<L: Ledger>(
    alloc: Global,
    names: &mut MirrorNames,
    op: &KeptOp,
    table: &Table,
    steps: &mut Steps<L>,
) -> Result<(), NoMemory>
    requires { AreFitNames (names_in table.now) }
    ensures names { OnOk result (items_at names.new ≡ grown_op table.now op.now (items_at names.old)) }
    ensures cost { steps.new ≤ steps.old + 3 }
{
    match op.parts() {
        OpParts::New { .. } => Ok(()),
        OpParts::First { change, .. } => {
            let name = change.name.as_slice();
            let items = table.history(name, steps);
            names.grow(alloc, name, items, steps)
        }
        OpParts::Update { change, .. } => {
            let name = change.name.as_slice();
            let items = table.history(name, steps);
            names.grow(alloc, name, items, steps)
        }
    }
}

/// The names that the operations gave a value have all their items.
pub(crate) fn grow_ops<L: Ledger>(
    alloc: Global,
    names: &mut MirrorNames,
    ops: &[KeptOp],
    table: &Table,
    steps: &mut Steps<L>,
) -> Result<(), NoMemory>
    requires { AreFitNames (names_in table.now) }
    ensures names { OnOk result (items_at names.new ≡ grown_ops table.now ops.now (items_at names.old)) }
    ensures cost { steps.new ≤ steps.old + 3 * length ops.now }
{
    let mut rest = ops;
    while let [op, more @ ..] = rest {
        grow_op(alloc, names, op, table, steps)?;
        rest = more;
    }
    Ok(())
}
