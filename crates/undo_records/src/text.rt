//! The writers of the parts of a record, in version 2. Where memory runs out, half a text may stand at the list's end.

ghost use Rattle.std.specs.Prelude.{◌≡◌, ◌++◌, ◌<◌, ◌≤◌, ◌^◌, ◌∷◌, length, OnOk};
ghost use Rattle.std.specs.List.{flat_map, AllByRecursion};
ghost use Rattle.std.specs.Int.{w16, w32, to_le_bytes};
ghost use Rattle.nmc_base.specs.declared.limits.TheConstants.{LONGEST_VALUE};
ghost use Rattle.chain_names.specs.Limits.{IsShortBefore, IsWithinLimitsOp, HoldsName};
ghost use Rattle.chain_names.specs.Writable.{change_of, IsWritableName, HasShortName};
ghost use Rattle.undo_records.specs.declared.version.Version.TheVariants.{Two};
ghost use Rattle.undo_records.specs.Text.{point_text, name_text, coin_text, item_text, before_text, change_text, op_text, held_text};

use crate::coins::{NAMED, NEW, NONE_BEFORE, SOME_BEFORE};
use crate::ops::{FIRST, MADE, UPDATE};
use chain_names::{Change, Coin, HeldCoin, Item, KeptOp, OpParts};
use nmc_base::{Boxed, Bytes, NoMemory, OutPoint};

/// A number of 4 bytes, low byte first.
pub fn add_u32(out: &mut Bytes, number: u32) -> Result<(), NoMemory>
    ensures { OnOk result (out.new ≡ out.old ++ to_le_bytes w32 number) }
{
    out.extend(&number.to_le_bytes())
}

/// An outpoint.
#[tactic(auto, unfolding(crate::specs::Text::point_text))]
pub fn add_point(out: &mut Bytes, point: &OutPoint) -> Result<(), NoMemory>
    ensures { OnOk result (out.new ≡ out.old ++ point_text point.now) }
{
    out.extend(&point.txid.0)?;
    add_u32(out, point.index)
}

/// A name behind its length, which is one byte.
pub fn add_name(out: &mut Bytes, name: &[u8]) -> Result<(), NoMemory>
    requires { IsWritableName name.now }
    ensures { OnOk result (out.new ≡ out.old ++ name_text name.now) }
{
    out.extend(&[name.len() as u8])?;
    out.extend(name)
}

/// A coin behind its tag.
#[tactic(auto, unfolding(crate::specs::Text::coin_text))]
pub fn add_coin(out: &mut Bytes, coin: &Coin) -> Result<(), NoMemory>
    requires { HasShortName coin.now }
    ensures { OnOk result (out.new ≡ out.old ++ coin_text coin.now) }
{
    match coin {
        Coin::New { hash, height } => {
            out.extend(&[NEW])?;
            add_u32(out, *height)?;
            out.extend(&hash.0)
        }
        Coin::Named { name, height } => {
            out.extend(&[NAMED])?;
            add_u32(out, *height)?;
            add_name(out, name.as_slice())
        }
    }
}

/// A value behind its length.
fn add_value(out: &mut Bytes, value: &[u8]) -> Result<(), NoMemory>
    requires { length value.now ≤ LONGEST_VALUE }
    ensures { OnOk result (out.new ≡ out.old ++ (to_le_bytes w16 (length value.now) ++ value.now)) }
{
    let len = value.len() as u16;
    out.extend(&len.to_le_bytes())?;
    out.extend(value)
}

/// An item of a history, with its registration height.
#[tactic(auto, unfolding(crate::specs::Text::item_text))]
pub fn add_item(out: &mut Bytes, item: &Item) -> Result<(), NoMemory>
    requires { length item.now.value ≤ LONGEST_VALUE }
    ensures { OnOk result (out.new ≡ out.old ++ item_text Two item.now) }
{
    add_u32(out, item.height)?;
    add_u32(out, item.registered)?;
    add_point(out, &item.at)?;
    add_value(out, item.value.as_slice())
}

/// The item before, if there was one.
#[tactic(auto, unfolding(crate::specs::Text::before_text))]
fn add_before(out: &mut Bytes, before: &Option<Boxed<Item>>) -> Result<(), NoMemory>
    requires { IsShortBefore before.now }
    ensures { OnOk result (out.new ≡ out.old ++ before_text Two before.now) }
{
    match before {
        Some(item) => {
            out.extend(&[SOME_BEFORE])?;
            add_item(out, item.as_ref())
        }
        None => out.extend(&[NONE_BEFORE]),
    }
}

/// A first change or an update, behind its tag.
#[tactic(auto, unfolding(crate::specs::Text::change_text))]
fn add_change(out: &mut Bytes, tag: u8, made: &OutPoint, change: &Change) -> Result<(), NoMemory>
    requires coin { HasShortName change.now.coin }
    requires name { IsWritableName change.now.name }
    requires before { IsShortBefore change.now.before }
    ensures { OnOk result (out.new ≡ out.old ++ tag ∷ change_text Two (change_of made.now change.now.spent change.now.coin change.now.name change.now.before)) }
{
    out.extend(&[tag])?;
    add_point(out, made)?;
    add_point(out, &change.spent)?;
    add_coin(out, &change.coin)?;
    add_name(out, change.name.as_slice())?;
    add_before(out, &change.before)
}

#[tactic(auto, unfolding(crate::specs::Text::op_text))]
fn add_op(out: &mut Bytes, op: &KeptOp) -> Result<(), NoMemory>
    requires { IsWithinLimitsOp op.now }
    ensures { OnOk result (out.new ≡ out.old ++ op_text Two op.now) }
{
    match op.parts() {
        OpParts::New { made } => {
            out.extend(&[MADE])?;
            add_point(out, made)
        }
        OpParts::First { made, change } => add_change(out, FIRST, made, change),
        OpParts::Update { made, change } => add_change(out, UPDATE, made, change),
    }
}

pub(crate) fn add_ops(out: &mut Bytes, ops: &[KeptOp]) -> Result<(), NoMemory>
    requires { AllByRecursion IsWithinLimitsOp ops.now }
    ensures { OnOk result (out.new ≡ out.old ++ flat_map (op_text Two) ops.now) }
{
    let mut rest = ops;
    while let [op, more @ ..] = rest {
        add_op(out, op)?;
        rest = more;
    }
    Ok(())
}

/// A coin behind its outpoint.
#[tactic(auto, unfolding(crate::specs::Text::held_text))]
pub fn add_held(out: &mut Bytes, held: &HeldCoin) -> Result<(), NoMemory>
    requires { HasShortName held.now.coin }
    ensures { OnOk result (out.new ≡ out.old ++ held_text held.now) }
{
    add_point(out, &held.at)?;
    add_coin(out, &held.coin)
}

pub(crate) fn add_expired(out: &mut Bytes, expired: &[HeldCoin]) -> Result<(), NoMemory>
    requires { AllByRecursion HoldsName expired.now }
    ensures { OnOk result (out.new ≡ out.old ++ flat_map held_text expired.now) }
{
    let mut rest = expired;
    while let [held, more @ ..] = rest {
        add_held(out, held)?;
        rest = more;
    }
    Ok(())
}
