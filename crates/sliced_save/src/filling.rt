//! What the parts of an index hold, copied into those of a mirror.

ghost use Rattle.std.specs.Prelude.{◌≡◌, ◌+◌, ◌*◌, ◌≤◌, length, map, IfOk};
ghost use Rattle.std.specs.List.{AllByRecursion};
ghost use Rattle.chain_names.specs.Limits.{IsWithinLimits};
ghost use Rattle.chain_names.specs.Seen.{seen_undo};
ghost use Rattle.chain_names.specs.Tables.{AreCoinsFilled, coins_in, names_in};
ghost use Rattle.sliced_save.specs.Changes.{AreShortCoins, AreFitNames};
ghost use Rattle.sliced_save.specs.Mirror.{coin_at, items_at};

use crate::coins::MirrorCoins;
use crate::names::MirrorNames;
use crate::undos::MirrorUndos;
use chain_names::Undo;
use name_coins::Coins;
use name_table::Table;
use nmc_base::{NoMemory, Steps};
use std::alloc::Global;
use std::sync::ledger::Ledger;

/// These records, that of the oldest block first.
pub(crate) fn undos_of<L: Ledger>(
    alloc: Global,
    undos: &[Undo],
    steps: &mut Steps<L>,
) -> Result<MirrorUndos, NoMemory>
    requires { AllByRecursion IsWithinLimits (map seen_undo undos.now) }
    ensures undos { IfOk result (λ u. u ≡ map seen_undo undos.now) }
    ensures grows { steps.old ≤ steps.new }
    ensures cost { steps.new ≤ steps.old + length undos.now }
{
    let mut made = MirrorUndos::new();
    let mut rest = undos;
    while let [undo, more @ ..] = rest {
        made.push(alloc, undo, steps)?;
        rest = more;
    }
    Ok(made)
}

/// The coins of a table. Each is looked at once, and put once.
pub(crate) fn coins_of<L: Ledger>(
    alloc: Global,
    table: &Coins,
    steps: &mut Steps<L>,
) -> Result<MirrorCoins, NoMemory>
    requires filled { AreCoinsFilled table.now }
    requires short { AreShortCoins (coins_in table.now) }
    ensures coins { IfOk result (λ coins. coin_at coins ≡ coins_in table.now) }
    ensures least { IfOk result (λ _. steps.old + length table.now ≤ steps.new) }
    ensures cost { steps.new ≤ steps.old + (3 * length table.now + 1) }
{
    let mut coins = MirrorCoins::new();
    for i in 0..usize::MAX {
        match table.item(i, steps) {
            None => return Ok(coins),
            Some((at, coin)) => coins.set(alloc, *at, coin, steps)?,
        }
    }
    Err(NoMemory)
}

/// The names of a table with their items. Each is looked at once, and put once.
pub(crate) fn names_of<L: Ledger>(
    alloc: Global,
    table: &Table,
    steps: &mut Steps<L>,
) -> Result<MirrorNames, NoMemory>
    requires { AreFitNames (names_in table.now) }
    ensures names { IfOk result (λ names. items_at names ≡ names_in table.now) }
    ensures least { IfOk result (λ _. steps.old + length table.now ≤ steps.new) }
    ensures cost { steps.new ≤ steps.old + (3 * length table.now + 1) }
{
    let mut names = MirrorNames::new();
    for i in 0..usize::MAX {
        match table.entry_at(i, steps) {
            None => return Ok(names),
            Some((name, items)) => names.grow(alloc, name, items, steps)?,
        }
    }
    Err(NoMemory)
}
