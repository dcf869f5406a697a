//! The coins of a table below some blocks.

ghost use Rattle.std.specs.Prelude.{◌≡◌, ◌<◌, OnOk, OnErr};
ghost use Rattle.std.specs.Option.{option_copied};
ghost use Rattle.chain_names.specs.Points.{same_point, changed};
ghost use Rattle.chain_names.specs.Tables.{coins_in};
ghost use Rattle.states_below.specs.Views.{coins_below};

use chain_names::Coin;
use indexmap::IndexMap;
use name_coins::Coins;
use nmc_base::{NoMemory, OutPoint, Steps};
use std::alloc::Global;
use std::marker::Brand;
use std::sync::ledger::{Blank, Ledger};

/// The coins of a table, as they are once some were taken away and others put back.
#[derive(Drop)]
pub(crate) struct CoinsBelow<'a> {
    pub(crate) under: &'a Coins,
    /// The outpoints that were touched, each with the coin that it has now.
    pub(crate) over: IndexMap<OutPoint, Option<&'a Coin>>,
}

/// The coin at the outpoint. Nobody reads the steps that it takes.
fn coin_at<'a, L: Ledger>(coins: &'a Coins, at: &OutPoint, blank: Blank) -> Option<&'a Coin>
    requires name { blank.name ≡ L.name }
    requires parts { blank.parts ≡ L.parts }
    requires some { 0 < blank.parts }
    ensures { option_copied result ≡ coins_in coins.now at.now }
{
    let mut steps = Steps::<L>::new(blank);
    coins.get(at, &mut steps)
}

impl<'a> CoinsBelow<'a> {
    /// The coins of the table itself.
    pub(crate) fn new(alloc: Global, coins: &'a Coins) -> CoinsBelow<'a>
        ensures coins { coins_below result ≡ coins_in coins.entry.now }
        ensures table { result.under ≡ coins.entry }
    {
        CoinsBelow {
            under: coins,
            over: IndexMap::new(alloc),
        }
    }

    /// The coin at the outpoint.
    pub(crate) fn get(&self, at: &OutPoint) -> Option<&'a Coin>
        ensures { option_copied result ≡ coins_below self.now at.now }
    {
        match self.over.get(at) {
            Some(coin) => *coin,
            None => coin_at::<Brand>(self.under, at, Blank::new(1)),
        }
    }

    /// Gives the outpoint another coin, or none. Where memory runs out, nothing changes.
    pub(crate) fn set(&mut self, at: &OutPoint, coin: Option<&'a Coin>) -> Result<(), NoMemory>
        ensures ok { OnOk result (coins_below self.new ≡ changed same_point (coins_below self.old) at.now (option_copied coin.entry)) }
        ensures err { OnErr result (coins_below self.new ≡ coins_below self.old) }
        ensures table { self.new.under ≡ self.old.under }
    {
        self.over.insert(*at, coin)?;
        Ok(())
    }
}
