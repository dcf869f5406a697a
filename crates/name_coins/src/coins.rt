//! The table of coins, by outpoint.

ghost use Rattle.std.specs.Prelude.{◌≡◌, ◌+◌, ◌≤◌, [], true, false, Some, None, length, slice_get, IfOk, IfSome, OnOk, OnErr, MatchOption};
ghost use Rattle.std.specs.List.{IsDistinct};
ghost use Rattle.std.specs.Map.{keys_of, lookup};
ghost use Rattle.std.specs.Option.{is_some, option_copied};
ghost use Rattle.indexmap.specs.IndexSet.{insert_key};
ghost use Rattle.chain_names.specs.Measured.{IsMeasuredCoin, AreCoinsMeasured};
ghost use Rattle.chain_names.specs.Points.{same_point, changed};
ghost use Rattle.chain_names.specs.Tables.{coins_in, coin_places, AreCoinsFilled};

use crate::widths::read_widths;
use chain_names::Coin;
use indexmap::IndexMap;
use nmc_base::{NoMemory, OutPoint, Steps};
use std::alloc::Global;
use std::marker::Model;
use std::sync::ledger::Ledger;

/// The coins, by outpoint. A coin is put only where its outpoint has a place, so that this can't fail.
///
/// Contracts see each outpoint that has a place, in the order of the places, and its coin where the place is filled.
#[derive(Drop)]
pub struct Coins {
    places: IndexMap<OutPoint, Option<Coin>>,
}

impl Model for Coins {
    ghost use Rattle.std.specs.List.{IsDistinct};
    ghost use Rattle.std.specs.Map.{keys_of};
    ghost use Rattle.chain_names.specs.Measured.{AreCoinsMeasured};
    ghost use Rattle.chain_names.specs.Points.{same_point};
    ghost use Rattle.chain_names.specs.Tables.{CoinSlots, coins_in};

    ghost Value = { CoinSlots };

    ghost view = { λ c. c.places.entries };

    ghost invariant = { λ c. AreCoinsMeasured (coins_in c.places.entries) × IsDistinct same_point (keys_of c.places.entries) };
}

impl Coins {
    /// No coin, and no place.
    pub fn new(alloc: Global) -> Result<Coins, NoMemory>
        ensures empty { IfOk result (λ c. c ≡ []) }
    {
        Ok(Coins {
            places: IndexMap::new(alloc),
        })
    }

    /// Each coin and its outpoint are as wide as their fields.
    pub fn widths(&self)
        ensures { AreCoinsMeasured (coins_in self.now) }
    {
        // A proof knows what the type keeps where a field is looked at.
        let _places = &self.places;
    }

    /// The coin at the outpoint.
    pub fn get<L: Ledger>(&self, at: &OutPoint, steps: &mut Steps<L>) -> Option<&Coin>
        ensures value { option_copied result ≡ coins_in self.now at.now }
        ensures cost { steps.new ≡ steps.old + 1 }
    {
        steps.tick();
        match self.places.get(at) {
            Some(place) => place.as_ref(),
            None => None,
        }
    }

    /// Gives the outpoint a place, if it has none. Where memory runs out, nothing changes.
    pub fn place<L: Ledger>(&mut self, at: OutPoint, steps: &mut Steps<L>) -> Result<(), NoMemory>
        ensures coins { coins_in self.new ≡ coins_in self.old }
        ensures ok { OnOk result (coin_places self.new ≡ changed same_point (coin_places self.old) at true) }
        // A new place stands last.
        ensures list { OnOk result (keys_of self.new ≡ insert_key same_point (keys_of self.old) at) }
        ensures err { OnErr result (self.new ≡ self.old) }
        ensures cost { steps.new ≡ steps.old + 1 }
    {
        steps.tick();
        if !self.places.contains_key(&at) {
            let before = self.places.insert(at, None)?;
            drop(before);
        }
        Ok(())
    }

    /// Gives the outpoint's place up, if there is no coin in it.
    pub fn unplace<L: Ledger>(&mut self, at: &OutPoint, steps: &mut Steps<L>)
        ensures coins { coins_in self.new ≡ coins_in self.old }
        ensures places { coin_places self.new ≡ changed same_point (coin_places self.old) at.now (is_some (coins_in self.old at.now)) }
        // Where there is no such place, the list stays as it was, order and all.
        ensures list { coin_places self.old at.now ≡ is_some (coins_in self.old at.now) → self.new ≡ self.old }
        ensures cost { steps.new ≡ steps.old + 1 }
    {
        steps.tick();
        if self.has_empty(at) {
            drop(self.places.swap_remove(at));
        }
    }

    /// Puts the coin in the outpoint's place, over one that is there.
    pub fn put<L: Ledger>(&mut self, at: &OutPoint, coin: Coin, steps: &mut Steps<L>)
        requires placed { coin_places self.old at.now ≡ true }
        ensures coins { coins_in self.new ≡ changed same_point (coins_in self.old) at.now (Some coin) }
        ensures places { coin_places self.new ≡ coin_places self.old }
        ensures list { keys_of self.new ≡ keys_of self.old }
        ensures cost { steps.new ≡ steps.old + 1 }
    {
        steps.tick();
        read_widths(*at, &coin);
        match self.places.insert(*at, Some(coin)) {
            Ok(before) => drop(before),
            Err(_) => unreachable!(),
        }
    }

    /// Takes the coin out of the outpoint's place, which stays.
    pub fn take<L: Ledger>(&mut self, at: &OutPoint, steps: &mut Steps<L>) -> Option<Coin>
        ensures value { result ≡ coins_in self.old at.now }
        ensures coins { coins_in self.new ≡ changed same_point (coins_in self.old) at.now None }
        ensures places { coin_places self.new ≡ coin_places self.old }
        ensures list { keys_of self.new ≡ keys_of self.old }
        ensures cost { steps.new ≡ steps.old + 1 }
    {
        steps.tick();
        let place = self.places.get_mut(at)?;
        place.take()
    }

    /// The i-th of the places, counted from 0, and its coin, or None exactly past the end: a walk meets each place once.
    pub fn item<L: Ledger>(&self, i: usize, steps: &mut Steps<L>) -> Option<(&OutPoint, &Coin)>
        requires filled { AreCoinsFilled self.now }
        ensures item { MatchOption result (length self.now ≤ i) (λ p. slice_get self.now i ≡ Some (p.0.now, Some p.1.now)) }
        ensures held { IfSome result (λ p. coins_in self.now p.0.now ≡ Some p.1.now) }
        ensures measured { IfSome result (λ p. IsMeasuredCoin p.0.now p.1.now) }
        ensures distinct { IsDistinct same_point (keys_of self.now) }
        ensures cost { steps.new ≡ steps.old + 1 }
    {
        steps.tick();
        let (at, place) = self.places.get_index(i)?;
        match place {
            Some(coin) => Some((at, coin)),
            None => unreachable!(),
        }
    }

    // Whether the outpoint has a place, with no coin in it.
    fn has_empty(&self, at: &OutPoint) -> bool
        ensures empty { result ≡ true → lookup (same_point at.now) self.now ≡ Some None }
        ensures other { result ≡ false → coin_places self.now at.now ≡ is_some (coins_in self.now at.now) }
    {
        match self.places.get(at) {
            Some(place) => place.is_none(),
            None => false,
        }
    }
}
