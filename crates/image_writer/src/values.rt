//! The values of an image in version 2, each put behind the bytes of a page that has room for it.

ghost use Rattle.std.specs.Prelude.{◌≡◌, ◌+◌, ◌++◌, ◌∷◌, ◌≤◌, length};
ghost use Rattle.std.specs.Int.{w16, w32, to_le_bytes};
ghost use Rattle.nmc_base.specs.declared.limits.TheConstants.{LONGEST_VALUE};
ghost use Rattle.chain_names.specs.declared.coin.HeldCoin.{HeldCoin};
ghost use Rattle.chain_names.specs.Limits.{IsShortBefore, IsWithinLimitsOp};
ghost use Rattle.chain_names.specs.Writable.{change_of, IsWritableName, HasShortName};
ghost use Rattle.undo_records.specs.declared.version.Version.TheVariants.{Two};
ghost use Rattle.undo_records.specs.Text.{point_text, name_text, coin_text, item_text, before_text, change_text, op_text, held_text};
ghost use Rattle.image_grammar.specs.Text.{head_text, profile_byte};
ghost use Rattle.image_writer.specs.declared.page.TheConstants.{PAGE};
ghost use Rattle.image_writer.specs.Page.{Grows};

use crate::page::Page;
use chain_names::{Change, Coin, Item, KeptOp, OpParts};
use nmc_base::{Base, Boxed, OutPoint, Profile};
use undo_records::coins::{NAMED, NEW};
use undo_records::ops::{FIRST, MADE, UPDATE};

/// The byte of an operation that has an item before it.
const SOME_BEFORE: u8 = 1;

/// The byte of an operation that has none.
const NONE_BEFORE: u8 = 0;

/// A number of 4 bytes, low byte first.
pub(crate) fn put_u32(page: &mut Page, number: u32)
    requires { length page.old + 4 ≤ PAGE }
    ensures text { page.new ≡ page.old ++ to_le_bytes w32 number }
    ensures grows { Grows 4 page.old page.new }
{
    page.put(&number.to_le_bytes());
}

/// The low four bytes of a count. The text of an image has no more of it.
pub fn put_count(page: &mut Page, count: usize)
    requires { length page.old + 4 ≤ PAGE }
    ensures text { page.new ≡ page.old ++ to_le_bytes w32 count }
    ensures grows { Grows 4 page.old page.new }
{
    page.put(&count.to_le_bytes()[..4]);
}

/// The byte of a profile.
fn profile_number(profile: Profile) -> u8
    ensures { result ≡ profile_byte profile }
{
    match profile {
        Profile::Regtest => 1,
        Profile::Main => 2,
    }
}

/// What an image begins with: a mark, the version, and the base.
pub fn put_head(page: &mut Page, base: &Base)
    requires { length page.old + 42 ≤ PAGE }
    ensures text { page.new ≡ page.old ++ head_text Two base.now }
    ensures grows { Grows 42 page.old page.new }
{
    page.put(b"NMCI");
    page.put(&[2, profile_number(base.profile)]);
    put_u32(page, base.height);
    page.put(&base.hash.0);
}

/// An outpoint.
#[tactic(auto, unfolding(undo_records::specs::Text::point_text))]
fn put_point(page: &mut Page, point: &OutPoint)
    requires { length page.old + 36 ≤ PAGE }
    ensures text { page.new ≡ page.old ++ point_text point.now }
    ensures grows { Grows 36 page.old page.new }
{
    page.put(&point.txid.0);
    put_u32(page, point.index);
}

/// A name behind its length, which is one byte.
pub fn put_name(page: &mut Page, name: &[u8])
    requires name { IsWritableName name.now }
    requires room { length page.old + 256 ≤ PAGE }
    ensures text { page.new ≡ page.old ++ name_text name.now }
    ensures grows { Grows 256 page.old page.new }
{
    page.put(&[name.len() as u8]);
    page.put(name);
}

/// A coin behind its tag.
#[tactic(auto, unfolding(undo_records::specs::Text::coin_text))]
fn put_coin(page: &mut Page, coin: &Coin)
    requires name { HasShortName coin.now }
    requires room { length page.old + 261 ≤ PAGE }
    ensures text { page.new ≡ page.old ++ coin_text coin.now }
    ensures grows { Grows 261 page.old page.new }
{
    match coin {
        Coin::New { hash, height } => {
            page.put(&[NEW]);
            put_u32(page, *height);
            page.put(&hash.0);
        }
        Coin::Named { name, height } => {
            page.put(&[NAMED]);
            put_u32(page, *height);
            put_name(page, name.as_slice());
        }
    }
}

/// A value behind its length.
fn put_value(page: &mut Page, value: &[u8])
    requires value { length value.now ≤ LONGEST_VALUE }
    requires room { length page.old + 1025 ≤ PAGE }
    ensures text { page.new ≡ page.old ++ (to_le_bytes w16 (length value.now) ++ value.now) }
    ensures grows { Grows 1025 page.old page.new }
{
    let len = value.len() as u16;
    page.put(&len.to_le_bytes());
    page.put(value);
}

/// An item of a history, with its registration height.
#[tactic(auto, unfolding(undo_records::specs::Text::item_text))]
pub fn put_item(page: &mut Page, item: &Item)
    requires value { length item.now.value ≤ LONGEST_VALUE }
    requires room { length page.old + 1069 ≤ PAGE }
    ensures text { page.new ≡ page.old ++ item_text Two item.now }
    ensures grows { Grows 1069 page.old page.new }
{
    put_u32(page, item.height);
    put_u32(page, item.registered);
    put_point(page, &item.at);
    put_value(page, item.value.as_slice());
}

/// The item before, if there was one.
#[tactic(auto, unfolding(undo_records::specs::Text::before_text))]
fn put_before(page: &mut Page, before: &Option<Boxed<Item>>)
    requires value { IsShortBefore before.now }
    requires room { length page.old + 1070 ≤ PAGE }
    ensures text { page.new ≡ page.old ++ before_text Two before.now }
    ensures grows { Grows 1070 page.old page.new }
{
    match before {
        Some(item) => {
            page.put(&[SOME_BEFORE]);
            put_item(page, item.as_ref());
        }
        None => page.put(&[NONE_BEFORE]),
    }
}

/// A first change or an update, behind its tag.
#[tactic(auto, unfolding(undo_records::specs::Text::change_text))]
fn put_change(page: &mut Page, tag: u8, made: &OutPoint, change: &Change)
    requires coin { HasShortName change.now.coin }
    requires name { IsWritableName change.now.name }
    requires before { IsShortBefore change.now.before }
    requires room { length page.old + 1660 ≤ PAGE }
    ensures text { page.new ≡ page.old ++ tag ∷ change_text Two (change_of made.now change.now.spent change.now.coin change.now.name change.now.before) }
    ensures grows { Grows 1660 page.old page.new }
{
    page.put(&[tag]);
    put_point(page, made);
    put_point(page, &change.spent);
    put_coin(page, &change.coin);
    put_name(page, change.name.as_slice());
    put_before(page, &change.before);
}

/// What undoes a name operation, behind its tag.
#[tactic(auto, unfolding(undo_records::specs::Text::op_text))]
pub fn put_op(page: &mut Page, op: &KeptOp)
    requires op { IsWithinLimitsOp op.now }
    requires room { length page.old + 1660 ≤ PAGE }
    ensures text { page.new ≡ page.old ++ op_text Two op.now }
    ensures grows { Grows 1660 page.old page.new }
{
    match op.parts() {
        OpParts::New { made } => {
            page.put(&[MADE]);
            put_point(page, made);
        }
        OpParts::First { made, change } => put_change(page, FIRST, made, change),
        OpParts::Update { made, change } => put_change(page, UPDATE, made, change),
    }
}

/// A coin behind its outpoint.
#[tactic(auto, unfolding(undo_records::specs::Text::held_text))]
pub fn put_held(page: &mut Page, at: &OutPoint, coin: &Coin)
    requires name { HasShortName coin.now }
    requires room { length page.old + 297 ≤ PAGE }
    ensures text { let held : HeldCoin = record { at = at.now; coin = coin.now } in page.new ≡ page.old ++ held_text held }
    ensures grows { Grows 297 page.old page.new }
{
    put_point(page, at);
    put_coin(page, coin);
}
