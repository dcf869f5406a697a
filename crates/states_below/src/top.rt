//! Whether each name is as it has to be at the tip.

ghost use Rattle.std.specs.Prelude.{◌≡◌, ◌<◌, ◌≤◌};
ghost use Rattle.nmc_base.specs.Heights.{highest};
ghost use Rattle.chain_names.specs.State.{IsState};
ghost use Rattle.chain_names.specs.Tables.{coins_in, names_in, AreCoinsFilled};
ghost use Rattle.states_below.specs.Bottom.{AllNamesPass};
ghost use Rattle.states_below.specs.Scan.{TellsWhether};
ghost use Rattle.states_below.specs.Top as tests;
ghost use Rattle.states_below.specs.Top.{IsMeasuredState};
ghost use Rattle.states_below.specs.Undoing.{maps_below};
ghost use Rattle.states_below.specs.Views.{coins_below, names_below};

use crate::below::Below;
use crate::scan::coins_pass;
use chain_names::Item;
use nmc_base::{NoMemory, Profile, Steps};
use std::marker::Brand;
use std::sync::ledger::{Blank, Ledger};

/// Whether the heights of the items don't fall, and are no higher than the tip.
fn rises_to(items: &[Item], tip: u32) -> bool
    ensures { result ≡ tests.rises_to tip 0 items.now }
{
    let mut least = 0;
    let mut rest = items;
    while let [item, more @ ..] = rest {
        if item.height < least || item.height > tip {
            return false;
        }
        least = item.height;
        rest = more;
    }
    true
}

impl<'a> Below<'a> {
    fn top_name(&self, profile: Profile, tip: u32, name: &[u8]) -> bool
        requires { tip ≤ highest }
        ensures { result ≡ tests.top_name profile tip (maps_below self.now) name.now }
    {
        rises_to(self.names.history(name), tip) && self.has_its_coin(profile, tip, name)
    }

    /// Whether each name is as it has to be at the tip.
    pub(crate) fn names_at_top<L: Ledger>(
        &self,
        profile: Profile,
        tip: u32,
        blank: Blank,
    ) -> Result<bool, NoMemory>
        requires low { tip ≤ highest }
        requires name { blank.name ≡ L.name }
        requires parts { blank.parts ≡ L.parts }
        requires some { 0 < blank.parts }
        ensures { TellsWhether (AllNamesPass (tests.top_name profile tip (maps_below self.now))) result }
    {
        let mut steps = Steps::<L>::new(blank);
        for i in 0..usize::MAX {
            match self.names.under.name_at(i, &mut steps) {
                Some(name) => {
                    if !self.top_name(profile, tip, name) {
                        return Ok(false);
                    }
                }
                None => return Ok(true),
            }
        }
        // So many names aren't in any memory.
        Err(NoMemory)
    }

    /// Whether the tables are a state at the tip.
    pub(crate) fn is_state(&self, profile: Profile, tip: u32) -> Result<bool, NoMemory>
        requires low { tip ≤ highest }
        requires filled { AreCoinsFilled self.now.coins.under.now }
        requires coins { coins_below self.now.coins ≡ coins_in self.now.coins.under.now }
        requires names { names_below self.now.names ≡ names_in self.now.names.under.now }
        requires measured { IsMeasuredState (maps_below self.now) }
        ensures { TellsWhether (IsState profile tip (maps_below self.now)) result }
    {
        if !coins_pass::<Brand>(
            profile,
            tip,
            self.coins.under,
            self.names.under,
            Blank::new(1),
        )? {
            return Ok(false);
        }
        self.names_at_top::<Brand>(profile, tip, Blank::new(1))
    }
}
