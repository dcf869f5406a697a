//! What stands at a place of a table. Nobody reads the steps that this takes.

ghost use Rattle.std.specs.Prelude.{◌≡◌, ◌<◌, ◌≤◌, Some, length, slice_get, IfSome, MatchOption};
ghost use Rattle.std.specs.List.{IsDistinct};
ghost use Rattle.std.specs.Map.{keys_of};
ghost use Rattle.std.specs.Option.{option_copied};
ghost use Rattle.std.specs.Str.{bytes_eq};
ghost use Rattle.chain_names.specs.Points.{same_point};
ghost use Rattle.chain_names.specs.Tables.{names_in, AreCoinsFilled};
ghost use Rattle.chain_names.specs.declared.coin.HeldCoin.{HeldCoin};
ghost use Rattle.image_grammar.specs.Image.{History};
ghost use Rattle.image_writer.specs.Places.{coin_place_cmp, name_place_cmp, held_at, history_at, name_at, IsCoinAt, IsNameAt};

use crate::listed::{CoinPlace, NamePlace};
use chain_names::{Coin, Item};
use name_coins::Coins;
use name_table::Table;
use nmc_base::{OutPoint, Steps};
use std::cmp::Ordering;
use std::marker::{Brand, Model};
use std::sync::ledger::{Blank, Ledger};

/// The coins of a table, each of whose places is filled. Contracts see the table.
#[derive(Drop)]
pub(crate) struct FilledCoins<'a> {
    coins: &'a Coins,
}

impl<'a> Model for FilledCoins<'a> {
    ghost use Rattle.chain_names.specs.Tables.{CoinSlots, AreCoinsFilled};

    ghost Value = { CoinSlots };

    ghost view = { λ t. t.coins.now };

    ghost invariant = { λ t. AreCoinsFilled t.coins.now };
}

fn counted_item<'a, L: Ledger>(
    coins: &'a Coins,
    place: u32,
    blank: Blank,
) -> Option<(&'a OutPoint, &'a Coin)>
    requires filled { AreCoinsFilled coins.now }
    requires name { blank.name ≡ L.name }
    requires parts { blank.parts ≡ L.parts }
    requires some { 0 < blank.parts }
    ensures item { MatchOption result (length coins.now ≤ place) (λ p. slice_get coins.now place ≡ Some (p.0.now, Some p.1.now)) }
    ensures distinct { IsDistinct same_point (keys_of coins.now) }
{
    let mut steps = Steps::<L>::new(blank);
    coins.item(place as usize, &mut steps)
}

impl<'a> FilledCoins<'a> {
    pub(crate) fn new(coins: &'a Coins) -> FilledCoins<'a>
        requires { AreCoinsFilled coins.now }
        ensures { result ≡ coins.now }
    {
        FilledCoins { coins }
    }

    /// The coin at a place, or None exactly past the end.
    pub(crate) fn item(&self, place: u32) -> Option<(&'a OutPoint, &'a Coin)>
        ensures item { MatchOption result (length self.now ≤ place) (λ p. slice_get self.now place ≡ Some (p.0.now, Some p.1.now)) }
        ensures distinct { IsDistinct same_point (keys_of self.now) }
    {
        counted_item::<Brand>(self.coins, place, Blank::new(1))
    }

    /// The coin of a place that is listed.
    pub(crate) fn listed(&self, coin: &CoinPlace) -> (&'a OutPoint, &'a Coin)
        requires { IsCoinAt self.now coin.now }
        ensures { let held : HeldCoin = record { at = result.0.now; coin = result.1.now } in held ≡ held_at self.now coin.now }
    {
        match self.item(coin.place) {
            Some(held) => held,
            None => unreachable!(),
        }
    }

    fn point_at(&self, place: u32) -> Option<OutPoint>
        ensures { result ≡ slice_get (keys_of self.now) place }
    {
        match self.item(place) {
            Some((at, _)) => Some(*at),
            None => None,
        }
    }

    /// How two coins stand in the order of their outpoints. The table is looked at only where the first bytes are the same.
    pub(crate) fn order(&self, a: &CoinPlace, b: &CoinPlace) -> Ordering
        ensures { result ≡ coin_place_cmp self.now a.now b.now }
    {
        match a.front.cmp(&b.front) {
            Ordering::Equal => self.point_at(a.place).cmp(&self.point_at(b.place)),
            other => other,
        }
    }

    /// The same order, the first bytes compared as numbers. No contract tells this: `order` carries what is promised.
    pub(crate) fn quick_order(&self, a: &CoinPlace, b: &CoinPlace) -> Ordering {
        match u32::from_be_bytes(a.front).cmp(&u32::from_be_bytes(b.front)) {
            Ordering::Equal => self.order(a, b),
            other => other,
        }
    }
}

fn counted_entry<'a, L: Ledger>(
    names: &'a Table,
    place: u32,
    blank: Blank,
) -> Option<(&'a [u8], &'a [Item])>
    requires name { blank.name ≡ L.name }
    requires parts { blank.parts ≡ L.parts }
    requires some { 0 < blank.parts }
    ensures name { MatchOption result (slice_get (keys_of names.now) place ≡ None) (λ p. slice_get (keys_of names.now) place ≡ Some p.0.now) }
    ensures items { IfSome result (λ p. p.1.now ≡ names_in names.now p.0.now) }
{
    let mut steps = Steps::<L>::new(blank);
    names.entry_at(place as usize, &mut steps)
}

/// The name of a place that is listed, and its items.
pub(crate) fn entry<'a>(names: &'a Table, name: &NamePlace) -> (&'a [u8], &'a [Item])
    requires { IsNameAt names.now name.now }
    ensures { let history : History = record { name = result.0.now; items = result.1.now } in history ≡ history_at names.now name.now }
{
    match counted_entry::<Brand>(names, name.place, Blank::new(1)) {
        Some(entry) => entry,
        None => unreachable!(),
    }
}

fn counted_name<'a, L: Ledger>(names: &'a Table, place: u32, blank: Blank) -> Option<&'a [u8]>
    requires name { blank.name ≡ L.name }
    requires parts { blank.parts ≡ L.parts }
    requires some { 0 < blank.parts }
    ensures name { option_copied result ≡ slice_get (keys_of names.now) place }
    ensures distinct { IsDistinct bytes_eq (keys_of names.now) }
{
    let mut steps = Steps::<L>::new(blank);
    names.name_at(place as usize, &mut steps)
}

/// The name at a place, or None exactly past the end.
pub(crate) fn name_in<'a>(names: &'a Table, place: u32) -> Option<&'a [u8]>
    ensures name { option_copied result ≡ slice_get (keys_of names.now) place }
    ensures distinct { IsDistinct bytes_eq (keys_of names.now) }
{
    counted_name::<Brand>(names, place, Blank::new(1))
}

/// How two names stand in the order of their bytes. The table is looked at only where the first bytes are the same.
pub(crate) fn name_order(names: &Table, a: &NamePlace, b: &NamePlace) -> Ordering
    ensures { result ≡ name_place_cmp names.now a.now b.now }
{
    match a.front.cmp(&b.front) {
        Ordering::Equal => name_in(names, a.place).cmp(&name_in(names, b.place)),
        other => other,
    }
}

/// The same order, the first bytes compared as numbers. No contract tells this: `name_order` carries what is promised.
pub(crate) fn quick_name_order(names: &Table, a: &NamePlace, b: &NamePlace) -> Ordering {
    match u64::from_be_bytes(a.front).cmp(&u64::from_be_bytes(b.front)) {
        Ordering::Equal => name_order(names, a, b),
        other => other,
    }
}
