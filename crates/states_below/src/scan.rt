//! Whether each coin of a table is as it has to be at the tip.

ghost use Rattle.std.specs.Prelude.{◌≡◌, ◌<◌, ◌≤◌};
ghost use Rattle.nmc_base.specs.Heights.{highest};
ghost use Rattle.chain_names.specs.Tables.{names_in, AreCoinsFilled};
ghost use Rattle.states_below.specs.Scan as scan;
ghost use Rattle.states_below.specs.Scan.{AllPass, TellsWhether};

use crate::fitting::is_item_at;
use chain_names::Coin;
use name_coins::Coins;
use name_table::Table;
use nmc_base::{NoMemory, OutPoint, Profile, Steps};
use std::sync::ledger::{Blank, Ledger};

fn coin_passes<L: Ledger>(
    profile: Profile,
    tip: u32,
    names: &Table,
    point: &OutPoint,
    coin: &Coin,
    steps: &mut Steps<L>,
) -> bool
    requires { tip ≤ highest }
    ensures { result ≡ scan.sound_coin profile tip (names_in names.now) point.now coin.now }
{
    match coin {
        Coin::New { height, .. } => *height <= tip,
        Coin::Named { name, height } => {
            *height <= tip
                && !profile.expired(*height, tip + 1)
                && is_item_at(names.last(name.as_slice(), steps), *height, point)
        }
    }
}

/// Whether each coin is no higher than the tip and, where it is a name's, is the name's last item and stands in the next block.
pub(crate) fn coins_pass<L: Ledger>(
    profile: Profile,
    tip: u32,
    coins: &Coins,
    names: &Table,
    blank: Blank,
) -> Result<bool, NoMemory>
    requires tip { tip ≤ highest }
    requires filled { AreCoinsFilled coins.now }
    requires name { blank.name ≡ L.name }
    requires parts { blank.parts ≡ L.parts }
    requires some { 0 < blank.parts }
    ensures { TellsWhether (AllPass (scan.sound_coin profile tip (names_in names.now)) coins.now) result }
{
    let mut steps = Steps::<L>::new(blank);
    for i in 0..usize::MAX {
        match coins.item(i, &mut steps) {
            Some((point, coin)) => {
                if !coin_passes(profile, tip, names, point, coin, &mut steps) {
                    return Ok(false);
                }
            }
            None => return Ok(true),
        }
    }
    // So many coins aren't in any memory.
    Err(NoMemory)
}
