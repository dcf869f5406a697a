//! The lengths of the values of an image in version 2. Each is added to what was counted before; where the sum is greater than
//! 2^64 - 1, it stays at that.

ghost use Rattle.std.specs.Prelude.{◌≡◌, ◌+◌, length, map};
ghost use Rattle.std.specs.List.{flat_map};
ghost use Rattle.chain_names.specs.declared.coin.HeldCoin.{HeldCoin};
ghost use Rattle.chain_names.specs.Seen.{seen_undo};
ghost use Rattle.chain_names.specs.Writable.{change_of};
ghost use Rattle.undo_records.specs.declared.version.Version.TheVariants.{Two};
ghost use Rattle.undo_records.specs.Text.{name_text, item_text, before_text, change_text, op_text, held_text, undo_text};
ghost use Rattle.image_grammar.specs.Image.{History};
ghost use Rattle.image_grammar.specs.Text.{history_text};
ghost use Rattle.image_writer.specs.Lengths.{capped};

use crate::widths::read_hash;
use chain_names::{Change, Coin, HeldCoin, Item, KeptOp, OpParts, Undo};
use nmc_base::{Boxed, OutPoint};
use undo_records::widths::{read_coin, read_item, read_point};

/// A name behind its length.
pub fn add_name(total: u64, name: &[u8]) -> u64
    ensures { result ≡ capped (total + length (name_text name.now)) }
{
    total.saturating_add(1).saturating_add(name.len() as u64)
}

/// An item.
#[tactic(auto, using(crate::proofs::LengthLemmas::item_length))]
pub fn add_item(total: u64, item: &Item) -> u64
    ensures { result ≡ capped (total + length (item_text Two item.now)) }
{
    read_item(item);
    let value = item.value.as_slice();
    total.saturating_add(46).saturating_add(value.len() as u64)
}

/// A coin behind its outpoint.
#[tactic(auto, using(crate::proofs::LengthLemmas::new_length, crate::proofs::LengthLemmas::named_length))]
pub fn add_held(total: u64, at: OutPoint, coin: &Coin) -> u64
    ensures { let held : HeldCoin = record { at = at; coin = coin.now } in result ≡ capped (total + length (held_text held)) }
{
    read_coin(at, coin);
    match coin {
        Coin::New { .. } => total.saturating_add(61),
        Coin::Named { name, .. } => add_name(total.saturating_add(41), name.as_slice()),
    }
}

#[tactic(auto, unfolding(undo_records::specs::Text::before_text))]
fn add_before(total: u64, before: &Option<Boxed<Item>>) -> u64
    ensures { result ≡ capped (total + length (before_text Two before.now)) }
{
    match before {
        Some(item) => add_item(total.saturating_add(1), item.as_ref()),
        None => total.saturating_add(1),
    }
}

#[tactic(auto, using(crate::proofs::LengthLemmas::change_length))]
fn add_change(total: u64, made: OutPoint, change: &Change) -> u64
    ensures { result ≡ capped (total + length (change_text Two (change_of made change.now.spent change.now.coin change.now.name change.now.before))) }
{
    read_point(made);
    let points = add_held(total.saturating_add(36), change.spent, &change.coin);
    add_before(add_name(points, change.name.as_slice()), &change.before)
}

#[tactic(auto, using(crate::proofs::LengthLemmas::point_length), unfolding(undo_records::specs::Text::op_text))]
fn add_op(total: u64, op: &KeptOp) -> u64
    ensures { result ≡ capped (total + length (op_text Two op.now)) }
{
    let tag = total.saturating_add(1);
    match op.parts() {
        OpParts::New { made } => {
            read_point(*made);
            tag.saturating_add(36)
        }
        OpParts::First { made, change } => add_change(tag, *made, change),
        OpParts::Update { made, change } => add_change(tag, *made, change),
    }
}

fn add_ops(total: u64, ops: &[KeptOp]) -> u64
    ensures { result ≡ capped (total + length (flat_map (op_text Two) ops.now)) }
{
    let mut sum = total;
    let mut rest = ops;
    while let [op, more @ ..] = rest {
        sum = add_op(sum, op);
        rest = more;
    }
    sum
}

fn add_expired(total: u64, expired: &[HeldCoin]) -> u64
    ensures { result ≡ capped (total + length (flat_map held_text expired.now)) }
{
    let mut sum = total;
    let mut rest = expired;
    while let [held, more @ ..] = rest {
        sum = add_held(sum, held.at, &held.coin);
        rest = more;
    }
    sum
}

/// A record.
#[tactic(auto, using(crate::proofs::LengthLemmas::undo_length))]
pub fn add_undo(total: u64, undo: &Undo) -> u64
    ensures { result ≡ capped (total + length (undo_text Two (seen_undo undo.now))) }
{
    read_hash(undo.block);
    let ops = add_ops(total.saturating_add(36), undo.ops.as_slice());
    add_expired(ops.saturating_add(4), undo.expired.as_slice())
}

/// The length of records.
pub(crate) fn add_undos(total: u64, undos: &[Undo]) -> u64
    ensures { result ≡ capped (total + length (flat_map (undo_text Two) (map seen_undo undos.now))) }
{
    let mut sum = total;
    let mut rest = undos;
    while let [undo, more @ ..] = rest {
        sum = add_undo(sum, undo);
        rest = more;
    }
    sum
}

fn add_items(total: u64, items: &[Item]) -> u64
    ensures { result ≡ capped (total + length (flat_map (item_text Two) items.now)) }
{
    let mut sum = total;
    let mut rest = items;
    while let [item, more @ ..] = rest {
        sum = add_item(sum, item);
        rest = more;
    }
    sum
}

/// A name with its items.
#[tactic(auto, using(crate::proofs::LengthLemmas::history_length))]
pub(crate) fn add_history(total: u64, name: &[u8], items: &[Item]) -> u64
    ensures { let history : History = record { name = name.now; items = items.now } in result ≡ capped (total + length (history_text Two history)) }
{
    add_items(add_name(total, name).saturating_add(4), items)
}
