//! The coins of a mirror.

ghost use Rattle.std.specs.Prelude.{◌≡◌, ◌+◌, ◌^◌, ◌<◌, ◌≤◌, [], Some, None, length, slice_get, IfOk, IfSome, OnOk};
ghost use Rattle.std.specs.Option.{option_map};
ghost use Rattle.chain_names.specs.Points.{same_point, changed};
ghost use Rattle.chain_names.specs.Writable.{HasShortName};
ghost use Rattle.sliced_save.specs.Kept.{AreKeptCoins, IsKeptCoin, coins_length};
ghost use Rattle.sliced_save.specs.Lengths.{held_weight};
ghost use Rattle.sliced_save.specs.Mirror.{coin_at};
ghost use Rattle.sliced_save.specs.declared.most.TheConstants.{MOST};

use crate::copies::copy_coin;
use crate::most::MOST;
use chain_names::Coin;
use image_writer::lengths::add_held;
use nmc_base::{NoMemory, OutPoint, Steps};
use pin_views::{MapWaste, SharedMap};
use std::alloc::Global;
use std::marker::Model;
use std::sync::ledger::Ledger;
use undo_records::widths::read_coin;

/// The coins of a mirror, and how long they are in an image.
///
/// Contracts see each coin behind its outpoint, in the order of outpoints. Each look-up, write and removal is a step.
#[derive(Drop)]
pub(crate) struct MirrorCoins {
    map: SharedMap<OutPoint, Coin>,
    len: u64,
}

impl Model for MirrorCoins {
    ghost use Rattle.std.specs.Prelude.{◌≡◌, ◌≤◌};
    ghost use Rattle.sliced_save.specs.Kept.{AreKeptCoins, coins_length};
    ghost use Rattle.sliced_save.specs.Mirror.{CoinPairs};
    ghost use Rattle.sliced_save.specs.declared.most.TheConstants.{MOST};

    ghost Value = { CoinPairs };

    ghost view = { λ c. c.map };

    ghost invariant = { λ c. AreKeptCoins c.map × (c.len ≡ coins_length c.map) × (c.len ≤ MOST) };
}

impl MirrorCoins {
    /// No coin. It takes no memory.
    pub(crate) fn new() -> MirrorCoins
        ensures { result ≡ [] }
    {
        MirrorCoins {
            map: SharedMap::new(),
            len: 0,
        }
    }

    /// How many coins there are.
    pub(crate) fn count(&self) -> usize
        ensures { result ≡ length self.now }
    {
        self.map.len()
    }

    /// How long they are in an image.
    pub(crate) fn text_len(&self) -> u64
        ensures length { result ≡ coins_length self.now }
        ensures most { result ≤ MOST }
        ensures kept { AreKeptCoins self.now }
    {
        self.len
    }

    /// The i-th coin behind its outpoint, counted from 0, or None exactly past the end.
    pub(crate) fn at<L: Ledger>(&self, i: usize, steps: &mut Steps<L>) -> Option<(&OutPoint, &Coin)>
        ensures pair { option_map (λ p. (p.0.now, p.1.now)) result ≡ slice_get self.now i }
        ensures kept { IfSome result (λ p. IsKeptCoin (p.0.now, p.1.now)) }
        ensures within { IfSome result (λ _. i + 1 < 2 ^ 64) }
        ensures cost { steps.new ≡ steps.old + 1 }
    {
        steps.tick();
        let _count = self.map.len();
        match self.map.at(i) {
            Some(pair) => Some(pair),
            None => None,
        }
    }

    /// Equal coins, which stay as they are whatever becomes of these. It takes no memory.
    pub(crate) fn pin(&self) -> Result<MirrorCoins, NoMemory>
        ensures { IfOk result (λ coins. coins ≡ self.now) }
    {
        let map = self.map.pin()?;
        let len = self.len;
        Ok(MirrorCoins { map, len })
    }

    /// What is to be let go of where the coins are given up.
    pub(crate) fn into_waste(self) -> Option<MapWaste<OutPoint, Coin>> {
        self.map.into_waste()
    }

    /// How long the coin of the outpoint is in an image; 0 where it has none.
    fn len_at<L: Ledger>(&self, at: &OutPoint, steps: &mut Steps<L>) -> u64
        ensures weight { result ≡ held_weight at.now (coin_at self.now at.now) }
        ensures part { result ≤ coins_length self.now }
        ensures cost { steps.new ≡ steps.old + 1 }
    {
        steps.tick();
        match self.map.get(at) {
            Some(coin) => add_held(0, *at, coin),
            None => 0,
        }
    }

    /// The outpoint has this coin.
    pub(crate) fn set<L: Ledger>(
        &mut self,
        alloc: Global,
        at: OutPoint,
        coin: &Coin,
        steps: &mut Steps<L>,
    ) -> Result<(), NoMemory>
        requires { HasShortName coin.now }
        ensures coins { OnOk result (coin_at self.new ≡ changed same_point (coin_at self.old) at (Some coin.now)) }
        ensures grows { steps.old ≤ steps.new }
        ensures cost { steps.new ≤ steps.old + 2 }
    {
        let others = self.len - self.len_at(&at, steps);
        let len = add_held(others, at, coin);
        if len > MOST {
            return Err(NoMemory);
        }
        read_coin(at, coin);
        let copy = copy_coin(alloc, coin)?;
        steps.tick();
        self.map.set(alloc, at, copy)?;
        self.len = len;
        Ok(())
    }

    /// The outpoint has no coin.
    pub(crate) fn unset<L: Ledger>(
        &mut self,
        alloc: Global,
        at: OutPoint,
        steps: &mut Steps<L>,
    ) -> Result<(), NoMemory>
        ensures coins { OnOk result (coin_at self.new ≡ changed same_point (coin_at self.old) at None) }
        ensures cost { steps.new ≤ steps.old + 2 }
    {
        let others = self.len - self.len_at(&at, steps);
        steps.tick();
        self.map.unset(alloc, &at)?;
        self.len = others;
        Ok(())
    }
}
