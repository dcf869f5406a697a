//! Gives an image out value by value.

ghost use Rattle.std.specs.Prelude.{◌≡◌, ◌+◌, ◌^◌, ◌<◌, ◌≤◌, [], slice_get, IfSome};
ghost use Rattle.std.specs.List.{AllByRecursion};
ghost use Rattle.std.specs.Option.{option_copied};
ghost use Rattle.chain_names.specs.Limits.{IsWithinLimits, IsWithinLimitsOp, HoldsName};
ghost use Rattle.chain_names.specs.Seen.{seen_undo};
ghost use Rattle.sliced_save.specs.Kept.{IsKeptItem};
ghost use Rattle.sliced_save.specs.Left.{Writes};

use crate::mirror::Mirror;
use chain_names::{HeldCoin, Item, KeptOp, Undo};
use image_writer::page::Page;
use image_writer::values::{put_count, put_held, put_item, put_name, put_op};
use nmc_base::Steps;
use pin_views::SharedStack;
use std::sync::ledger::Ledger;

/// Where the giving of an image stands: what comes next, by its places among the records, coins and names.
#[derive(Clone, Copy)]
pub(crate) enum Stage {
    /// The records from this one on.
    InUndos { from: usize },
    /// The operations of a record from this one on.
    InOps { undo: usize, from: usize },
    /// The coins that expired with a record's block from this one on.
    InExpired { undo: usize, from: usize },
    /// The coins from this one on.
    InCoins { from: usize },
    /// The names from this one on.
    InNames { from: usize },
    /// The items of a name from this one on.
    InItems { name: usize, from: usize },
}

/// The head of the next record; behind the last, the number of coins.
#[tactic(auto, unfolding(undo_records::specs::Text::undo_text))]
fn step_undos<L: Ledger>(
    from: usize,
    mirror: &Mirror,
    page: &mut Page,
    steps: &mut Steps<L>,
) -> Stage
    requires { page.old ≡ [] }
    ensures writes { Writes mirror.now (Stage.InUndos from) result page.new }
    ensures cost { steps.new ≤ steps.old + 1 }
{
    match mirror.undos.at(from, steps) {
        Some(undo) => {
            page.put(&undo.block.0);
            put_count(page, undo.ops.len());
            Stage::InOps {
                undo: from,
                from: 0,
            }
        }
        None => {
            put_count(page, mirror.coins.count());
            Stage::InCoins { from: 0 }
        }
    }
}

/// The operation of a record at a place, or None exactly past the end.
fn op_at(undo: &Undo, from: usize) -> Option<&KeptOp>
    requires { IsWithinLimits (seen_undo undo.now) }
    ensures op { option_copied result ≡ slice_get undo.now.ops.items from }
    ensures within { IfSome result (λ op. IsWithinLimitsOp op.now) }
{
    undo.ops.item(from)
}

/// The coin that expired with a record's block at a place, or None exactly past the end.
fn held_at(undo: &Undo, from: usize) -> Option<&HeldCoin>
    requires { IsWithinLimits (seen_undo undo.now) }
    ensures held { option_copied result ≡ slice_get undo.now.expired.items from }
    ensures named { IfSome result (λ held. HoldsName held.now) }
{
    undo.expired.item(from)
}

/// The item of a name at a place, or None exactly past the end.
fn item_at(items: &SharedStack<Item>, from: usize) -> Option<&Item>
    requires { AllByRecursion IsKeptItem items.now }
    ensures item { option_copied result ≡ slice_get items.now from }
    ensures kept { IfSome result (λ item. IsKeptItem item.now) }
    ensures within { IfSome result (λ _. from + 1 < 2 ^ 64) }
{
    let _count = items.len();
    match items.at(from) {
        Some(item) => Some(item),
        None => None,
    }
}

/// The next operation; behind the last, the number of coins that expired.
fn step_ops<L: Ledger>(
    undo: usize,
    from: usize,
    mirror: &Mirror,
    page: &mut Page,
    steps: &mut Steps<L>,
) -> Stage
    requires { page.old ≡ [] }
    ensures writes { Writes mirror.now (Stage.InOps undo from) result page.new }
    ensures cost { steps.new ≤ steps.old + 1 }
{
    let Some(record) = mirror.undos.at(undo, steps) else {
        return Stage::InOps { undo, from };
    };
    match op_at(record, from) {
        Some(op) => {
            put_op(page, op);
            Stage::InOps {
                undo,
                from: from + 1,
            }
        }
        None => {
            put_count(page, record.expired.len());
            Stage::InExpired { undo, from: 0 }
        }
    }
}

/// The next coin that expired; behind the last, the next record.
fn step_expired<L: Ledger>(
    undo: usize,
    from: usize,
    mirror: &Mirror,
    page: &mut Page,
    steps: &mut Steps<L>,
) -> Stage
    requires { page.old ≡ [] }
    ensures writes { Writes mirror.now (Stage.InExpired undo from) result page.new }
    ensures cost { steps.new ≤ steps.old + 2 }
{
    let Some(record) = mirror.undos.at(undo, steps) else {
        return Stage::InExpired { undo, from };
    };
    match held_at(record, from) {
        Some(held) => {
            put_held(page, &held.at, &held.coin);
            Stage::InExpired {
                undo,
                from: from + 1,
            }
        }
        None => step_undos(undo + 1, mirror, page, steps),
    }
}

/// The next coin; behind the last, the number of names.
fn step_coins<L: Ledger>(
    from: usize,
    mirror: &Mirror,
    page: &mut Page,
    steps: &mut Steps<L>,
) -> Stage
    requires { page.old ≡ [] }
    ensures writes { Writes mirror.now (Stage.InCoins from) result page.new }
    ensures cost { steps.new ≤ steps.old + 1 }
{
    match mirror.coins.at(from, steps) {
        Some((at, coin)) => {
            put_held(page, at, coin);
            Stage::InCoins { from: from + 1 }
        }
        None => {
            put_count(page, mirror.names.count());
            Stage::InNames { from: 0 }
        }
    }
}

/// The next name with the number of its items; behind the last, nothing.
fn step_names<L: Ledger>(
    from: usize,
    mirror: &Mirror,
    page: &mut Page,
    steps: &mut Steps<L>,
) -> Stage
    requires { page.old ≡ [] }
    ensures writes { Writes mirror.now (Stage.InNames from) result page.new }
    ensures cost { steps.new ≤ steps.old + 1 }
{
    match mirror.names.at(from, steps) {
        Some((name, items)) => {
            put_name(page, name);
            put_count(page, items.len());
            Stage::InItems {
                name: from,
                from: 0,
            }
        }
        None => Stage::InNames { from },
    }
}

/// The next item; behind the last, the next name.
fn step_items<L: Ledger>(
    name: usize,
    from: usize,
    mirror: &Mirror,
    page: &mut Page,
    steps: &mut Steps<L>,
) -> Stage
    requires { page.old ≡ [] }
    ensures writes { Writes mirror.now (Stage.InItems name from) result page.new }
    ensures cost { steps.new ≤ steps.old + 2 }
{
    let Some((_, items)) = mirror.names.at(name, steps) else {
        return Stage::InItems { name, from };
    };
    match item_at(items, from) {
        Some(item) => {
            put_item(page, item);
            Stage::InItems {
                name,
                from: from + 1,
            }
        }
        None => step_names(name + 1, mirror, page, steps),
    }
}

impl Stage {
    /// Puts the next value into the page, and answers where the giving stands behind it.
    pub(crate) fn step<L: Ledger>(
        self,
        mirror: &Mirror,
        page: &mut Page,
        steps: &mut Steps<L>,
    ) -> Stage
        requires { page.old ≡ [] }
        ensures writes { Writes mirror.now self result page.new }
        ensures cost { steps.new ≤ steps.old + 2 }
    {
        match self {
            Stage::InUndos { from } => step_undos(from, mirror, page, steps),
            Stage::InOps { undo, from } => step_ops(undo, from, mirror, page, steps),
            Stage::InExpired { undo, from } => step_expired(undo, from, mirror, page, steps),
            Stage::InCoins { from } => step_coins(from, mirror, page, steps),
            Stage::InNames { from } => step_names(from, mirror, page, steps),
            Stage::InItems { name, from } => step_items(name, from, mirror, page, steps),
        }
    }
}
