//! Walks down from the tip to the base.

ghost use Rattle.std.specs.Prelude.{◌≡◌, ◌+◌, ◌≤◌, length};
ghost use Rattle.std.specs.List.{AllByRecursion};
ghost use Rattle.nmc_base.specs.Heights.{highest};
ghost use Rattle.chain_names.specs.Tables.{AreCoinsFilled};
ghost use Rattle.sound_states.specs.Walk.{IsWalk};
ghost use Rattle.states_below.specs.Scan.{TellsWhether};
ghost use Rattle.states_below.specs.Undoing.{maps_below};
ghost use Rattle.states_below.specs.Walking.{IsWithin, WalksDown, newest_first};

use crate::below::Below;
use chain_names::Undo;
use nmc_base::{NoMemory, Profile};
use std::alloc::Global;

impl<'a> Below<'a> {
    /// Undoes the records from the newest to the oldest, as long as all that is looked at fits.
    pub(crate) fn walk_down(
        &mut self,
        alloc: Global,
        profile: Profile,
        base: u32,
        tip: u32,
        undos: &'a [Undo],
    ) -> Result<bool, NoMemory>
        requires low { tip ≤ highest }
        requires heights { tip ≡ base + length undos.now }
        requires within { AllByRecursion IsWithin undos.now }
        ensures walks { WalksDown profile base tip undos.entry.now (maps_below self.old) (maps_below self.new) result }
        ensures table { self.new.coins.under ≡ self.old.coins.under }
    {
        let mut rest = undos;
        let mut height = tip;
        while let Some((undo, more)) = rest.split_last() {
            if !self.step(alloc, profile, height, undo)? {
                return Ok(false);
            }
            height -= 1;
            rest = more;
        }
        Ok(true)
    }

    /// Whether the walk down to the base finds nothing wrong.
    pub(crate) fn is_walk(
        &mut self,
        alloc: Global,
        profile: Profile,
        base: u32,
        tip: u32,
        undos: &'a [Undo],
    ) -> Result<bool, NoMemory>
        requires low { tip ≤ highest }
        requires heights { tip ≡ base + length undos.now }
        requires within { AllByRecursion IsWithin undos.now }
        requires filled { AreCoinsFilled self.old.coins.under.now }
        ensures { TellsWhether (IsWalk profile base tip (maps_below self.old) (newest_first undos.entry.now)) result }
    {
        if !self.walk_down(alloc, profile, base, tip, undos)? {
            return Ok(false);
        }
        self.at_bottom(profile, base)
    }
}
