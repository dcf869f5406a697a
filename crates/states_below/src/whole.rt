//! Whether tables are sound with their records.

ghost use Rattle.std.specs.Prelude.{◌≡◌, ◌+◌, ◌≤◌, ℕ, List, length};
ghost use Rattle.std.specs.List.{AllByRecursion};
ghost use Rattle.nmc_base.specs.Heights.{highest};
ghost use Rattle.chain_names.specs.Sound.{IsSound};
ghost use Rattle.chain_names.specs.State.{FitsItem};
ghost use Rattle.chain_names.specs.Tables.{coins_in, names_in, AreCoinsFilled};
ghost use Rattle.sound_states.specs.Walk.{HasFewCoins};
ghost use Rattle.states_below.specs.Scan.{TellsWhether};
ghost use Rattle.states_below.specs.Undoing.{maps_below};
ghost use Rattle.states_below.specs.Views.{coins_below, names_below};
ghost use Rattle.states_below.specs.Walking.{IsWithin, newest_first};

use crate::below::Below;
use chain_names::Undo;
use name_coins::Coins;
use name_table::Table;
use nmc_base::{NoMemory, Profile};
use std::alloc::Global;

impl<'a> Below<'a> {
    /// Whether the tables, which nothing was undone of yet, are sound with these records.
    fn is_sound(
        &mut self,
        alloc: Global,
        profile: Profile,
        base: u32,
        tip: u32,
        undos: &'a [Undo],
    ) -> Result<bool, NoMemory>
        requires low { tip ≤ highest }
        requires coins { coins_below self.old.coins ≡ coins_in self.old.coins.under.now }
        requires names { names_below self.old.names ≡ names_in self.old.names.under.now }
        requires lengths { (name : List ℕ) → AllByRecursion (FitsItem name) (names_below self.old.names name) }
        requires few { HasFewCoins (maps_below self.old) (newest_first undos.now) }
        requires heights { tip ≡ base + length undos.now }
        requires within { AllByRecursion IsWithin undos.now }
        requires filled { AreCoinsFilled self.old.coins.under.now }
        ensures { TellsWhether (IsSound profile base tip (maps_below self.old) (newest_first undos.entry.now)) result }
    {
        if !self.is_state(profile, tip)? {
            return Ok(false);
        }
        self.is_walk(alloc, profile, base, tip, undos)
    }
}

/// Whether the tables at the tip and the records that undo the blocks above the base, the oldest first, are sound.
///
/// It goes over all coins and over all names at the tip, over the records from the newest to the oldest, and over all names and
/// coins once more as they are at the base: a few look-ups for each coin, name and expired coin, and some 17 for each operation.
/// Tables and records stay as they are. Memory is taken for what undoing the records changes, an entry for each outpoint and each
/// name that a record touches; want of it is the only answer besides.
pub fn is_image_sound(
    alloc: Global,
    profile: Profile,
    base: u32,
    tip: u32,
    undos: &[Undo],
    coins: &Coins,
    names: &Table,
) -> Result<bool, NoMemory>
    requires low { tip ≤ highest }
    requires lengths { (name : List ℕ) → AllByRecursion (FitsItem name) (names_in names.now name) }
    requires few { HasFewCoins (record { coins = coins_in coins.now; names = names_in names.now }) (newest_first undos.now) }
    requires heights { tip ≡ base + length undos.now }
    requires within { AllByRecursion IsWithin undos.now }
    requires filled { AreCoinsFilled coins.now }
    ensures { TellsWhether (IsSound profile base tip (record { coins = coins_in coins.now; names = names_in names.now }) (newest_first undos.now)) result }
{
    let mut below = Below::new(alloc, coins, names);
    below.is_sound(alloc, profile, base, tip, undos)
}
