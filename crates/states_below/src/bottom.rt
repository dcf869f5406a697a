//! Whether what is left at the base is what a start list may hold.

ghost use Rattle.std.specs.Prelude.{◌≡◌, ◌<◌, ◌≤◌, true, false};
ghost use Rattle.std.specs.Option.{option_copied};
ghost use Rattle.nmc_base.specs.Heights.{highest};
ghost use Rattle.chain_names.specs.Tables.{AreCoinsFilled};
ghost use Rattle.sound_states.specs.Walk.{IsBottom};
ghost use Rattle.states_below.specs.Bottom as bottom;
ghost use Rattle.states_below.specs.Bottom.{AllNamesPass, AllPointsPass};
ghost use Rattle.states_below.specs.Scan.{AllPass, TellsWhether};
ghost use Rattle.states_below.specs.StepTests as tests;
ghost use Rattle.states_below.specs.Undoing.{maps_below};
ghost use Rattle.states_below.specs.Views.{coins_below};

use crate::below::Below;
use crate::fitting::entry_of;
use chain_names::{Coin, Item};
use nmc_base::{NoMemory, Profile, Steps};
use std::marker::Brand;
use std::sync::ledger::{Blank, Ledger};

fn entry_low(item: Option<&Item>, base: u32) -> bool
    ensures { result ≡ bottom.entry_low base (option_copied item.entry) }
{
    match item {
        None => true,
        Some(item) => item.height <= base,
    }
}

/// Whether each item begins its registration.
fn all_begin(items: &[Item]) -> bool
    ensures { result ≡ tests.all_by bottom.begins_registration items.now }
{
    let mut rest = items;
    while let [item, more @ ..] = rest {
        if item.registered != item.height {
            return false;
        }
        rest = more;
    }
    true
}

fn coin_low(coin: Option<&Coin>, base: u32) -> bool
    ensures { result ≡ bottom.coin_low base (option_copied coin.entry) }
{
    match coin {
        None => true,
        Some(Coin::New { height, .. }) => *height <= base,
        Some(Coin::Named { height, .. }) => *height <= base,
    }
}

impl<'a> Below<'a> {
    fn bottom_name(&self, profile: Profile, base: u32, name: &[u8]) -> bool
        requires { base ≤ highest }
        ensures { result ≡ bottom.bottom_name profile base (maps_below self.now) name.now }
    {
        let items = self.names.history(name);
        entry_low(entry_of(items), base)
            && all_begin(items)
            && self.has_its_coin(profile, base, name)
    }

    /// Whether each name is as it has to be at the base.
    pub(crate) fn names_at_bottom<L: Ledger>(
        &self,
        profile: Profile,
        base: u32,
        blank: Blank,
    ) -> Result<bool, NoMemory>
        requires low { base ≤ highest }
        requires name { blank.name ≡ L.name }
        requires parts { blank.parts ≡ L.parts }
        requires some { 0 < blank.parts }
        ensures { TellsWhether (AllNamesPass (bottom.bottom_name profile base (maps_below self.now))) result }
    {
        let mut steps = Steps::<L>::new(blank);
        for i in 0..usize::MAX {
            match self.names.under.name_at(i, &mut steps) {
                Some(name) => {
                    if !self.bottom_name(profile, base, name) {
                        return Ok(false);
                    }
                }
                None => return Ok(true),
            }
        }
        // So many names aren't in any memory.
        Err(NoMemory)
    }

    /// Whether no coin at the outpoint of a coin of the table is too high.
    fn table_at_bottom<L: Ledger>(&self, base: u32, blank: Blank) -> Result<bool, NoMemory>
        requires filled { AreCoinsFilled self.now.coins.under.now }
        requires name { blank.name ≡ L.name }
        requires parts { blank.parts ≡ L.parts }
        requires some { 0 < blank.parts }
        ensures { TellsWhether (AllPass (λ point coin. bottom.coin_low base (coins_below self.now.coins point)) self.now.coins.under.now) result }
    {
        let mut steps = Steps::<L>::new(blank);
        for i in 0..usize::MAX {
            match self.coins.under.item(i, &mut steps) {
                Some((point, _)) => {
                    if !coin_low(self.coins.get(point), base) {
                        return Ok(false);
                    }
                }
                None => return Ok(true),
            }
        }
        // So many coins aren't in any memory.
        Err(NoMemory)
    }

    /// Whether no coin that was put back is too high.
    fn layer_at_bottom(&self, base: u32) -> bool
        ensures yes { result ≡ true → tests.all_by (bottom.layer_low base) self.now.coins.over.entries ≡ true }
        ensures no { result ≡ false → AllPointsPass (λ point. bottom.coin_low base (coins_below self.now.coins point)) → ⊥ }
    {
        for i in 0..self.coins.over.len() {
            match self.coins.over.get_index(i) {
                Some((_, coin)) => {
                    if !coin_low(*coin, base) {
                        return false;
                    }
                }
                None => return true,
            }
        }
        true
    }

    /// Whether no coin is too high at the base.
    pub(crate) fn coins_at_bottom<L: Ledger>(
        &self,
        base: u32,
        blank: Blank,
    ) -> Result<bool, NoMemory>
        requires filled { AreCoinsFilled self.now.coins.under.now }
        requires name { blank.name ≡ L.name }
        requires parts { blank.parts ≡ L.parts }
        requires some { 0 < blank.parts }
        ensures { TellsWhether (AllPointsPass (λ point. bottom.coin_low base (coins_below self.now.coins point))) result }
    {
        if !self.layer_at_bottom(base) {
            return Ok(false);
        }
        self.table_at_bottom::<L>(base, blank)
    }

    /// Whether what is left at the base is as it has to be there.
    pub(crate) fn at_bottom(&self, profile: Profile, base: u32) -> Result<bool, NoMemory>
        requires low { base ≤ highest }
        requires filled { AreCoinsFilled self.now.coins.under.now }
        ensures { TellsWhether (IsBottom profile base (maps_below self.now)) result }
    {
        if !self.names_at_bottom::<Brand>(profile, base, Blank::new(1))? {
            return Ok(false);
        }
        self.coins_at_bottom::<Brand>(base, Blank::new(1))
    }
}
