//! Writes an image value by value.

ghost use Rattle.std.specs.Prelude.{◌≡◌, []};
ghost use Rattle.std.specs.List.{AllByRecursion};
ghost use Rattle.chain_names.specs.Limits.{IsWithinLimitsOp, HoldsName};
ghost use Rattle.image_writer.specs.Left.{AreWithin, IsWithin, Writes};
ghost use Rattle.image_writer.specs.Listed.{AreShort, IsShortItem};

use crate::listed::Listed;
use crate::page::Page;
use crate::places::entry;
use crate::values::{put_count, put_held, put_item, put_name, put_op};
use chain_names::{HeldCoin, Item, KeptOp, Undo};

/// Where the writing of an image stands: what comes next, and what behind it.
#[derive(Clone, Copy)]
pub(crate) enum Stage<'a> {
    /// Records, the oldest first.
    InUndos {
        undos: &'a [Undo],
    },
    /// Operations of a record.
    InOps {
        ops: &'a [KeptOp],
        expired: &'a [HeldCoin],
        undos: &'a [Undo],
    },
    /// Coins that expired with a record's block.
    InExpired {
        expired: &'a [HeldCoin],
        undos: &'a [Undo],
    },
    /// Coins, from this one on.
    InCoins {
        from: usize,
    },
    /// Names, from this one on.
    InNames {
        from: usize,
    },
    /// Items of the name before this one.
    InItems {
        items: &'a [Item],
        from: usize,
    },
}

/// The head of the next record; behind the last, the number of coins.
#[tactic(auto, unfolding(undo_records::specs::Text::undo_text))]
fn step_undos<'a>(undos: &'a [Undo], listed: &Listed<'a>, page: &mut Page) -> Stage<'a>
    requires within { AllByRecursion IsWithin undos.now }
    requires empty { page.old ≡ [] }
    ensures { Writes listed.now (Stage.InUndos undos.entry) result page.new }
{
    match undos {
        [undo, more @ ..] => {
            page.put(&undo.block.0);
            put_count(page, undo.ops.len());
            Stage::InOps {
                ops: undo.ops.as_slice(),
                expired: undo.expired.as_slice(),
                undos: more,
            }
        }
        [] => {
            put_count(page, listed.coins.len());
            Stage::InCoins { from: 0 }
        }
    }
}

/// The next operation; behind the last, the number of coins that expired.
fn step_ops<'a>(
    ops: &'a [KeptOp],
    expired: &'a [HeldCoin],
    undos: &'a [Undo],
    listed: &Listed<'a>,
    page: &mut Page,
) -> Stage<'a>
    requires ops { AllByRecursion IsWithinLimitsOp ops.now }
    requires expired { AllByRecursion HoldsName expired.now }
    requires undos { AllByRecursion IsWithin undos.now }
    requires empty { page.old ≡ [] }
    ensures { Writes listed.now (Stage.InOps ops.entry expired.entry undos.entry) result page.new }
{
    match ops {
        [op, more @ ..] => {
            put_op(page, op);
            Stage::InOps {
                ops: more,
                expired,
                undos,
            }
        }
        [] => {
            put_count(page, expired.len());
            Stage::InExpired { expired, undos }
        }
    }
}

/// The next coin that expired; behind the last, the next record.
fn step_expired<'a>(
    expired: &'a [HeldCoin],
    undos: &'a [Undo],
    listed: &Listed<'a>,
    page: &mut Page,
) -> Stage<'a>
    requires expired { AllByRecursion HoldsName expired.now }
    requires undos { AllByRecursion IsWithin undos.now }
    requires empty { page.old ≡ [] }
    ensures { Writes listed.now (Stage.InExpired expired.entry undos.entry) result page.new }
{
    match expired {
        [held, more @ ..] => {
            put_held(page, &held.at, &held.coin);
            Stage::InExpired {
                expired: more,
                undos,
            }
        }
        [] => step_undos(undos, listed, page),
    }
}

/// The next coin; behind the last, the number of names.
fn step_coins<'a>(from: usize, listed: &Listed<'a>, page: &mut Page) -> Stage<'a>
    requires short { AreShort listed.now }
    requires empty { page.old ≡ [] }
    ensures { Writes listed.now (Stage.InCoins from) result page.new }
{
    match listed.coins.get(from) {
        Some(place) => {
            let (at, coin) = listed.coin_table.listed(place);
            put_held(page, at, coin);
            Stage::InCoins { from: from + 1 }
        }
        None => {
            put_count(page, listed.names.len());
            Stage::InNames { from: 0 }
        }
    }
}

/// The next name with the number of its items; behind the last, nothing.
fn step_names<'a>(from: usize, listed: &Listed<'a>, page: &mut Page) -> Stage<'a>
    requires short { AreShort listed.now }
    requires empty { page.old ≡ [] }
    ensures { Writes listed.now (Stage.InNames from) result page.new }
{
    match listed.names.get(from) {
        Some(place) => {
            let (name, items) = entry(listed.name_table, place);
            put_name(page, name);
            put_count(page, items.len());
            Stage::InItems {
                items,
                from: from + 1,
            }
        }
        None => Stage::InNames { from },
    }
}

/// The next item; behind the last, the next name.
fn step_items<'a>(items: &'a [Item], from: usize, listed: &Listed<'a>, page: &mut Page) -> Stage<'a>
    requires items { AllByRecursion IsShortItem items.now }
    requires short { AreShort listed.now }
    requires empty { page.old ≡ [] }
    ensures { Writes listed.now (Stage.InItems items.entry from) result page.new }
{
    match items {
        [item, more @ ..] => {
            put_item(page, item);
            Stage::InItems { items: more, from }
        }
        [] => step_names(from, listed, page),
    }
}

impl<'a> Stage<'a> {
    /// Puts the next value into the page, and answers where the writing stands behind it.
    pub(crate) fn step(self, listed: &Listed<'a>, page: &mut Page) -> Stage<'a>
        requires within { AreWithin self }
        requires short { AreShort listed.now }
        requires empty { page.old ≡ [] }
        ensures { Writes listed.now self.entry result page.new }
    {
        match self {
            Stage::InUndos { undos } => step_undos(undos, listed, page),
            Stage::InOps {
                ops,
                expired,
                undos,
            } => step_ops(ops, expired, undos, listed, page),
            Stage::InExpired { expired, undos } => step_expired(expired, undos, listed, page),
            Stage::InCoins { from } => step_coins(from, listed, page),
            Stage::InNames { from } => step_names(from, listed, page),
            Stage::InItems { items, from } => step_items(items, from, listed, page),
        }
    }
}
