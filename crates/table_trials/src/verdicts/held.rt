//! The coins and names that verdicts are asked over.

ghost use Rattle.std.specs.Prelude.{◌≤◌, [], ◌∷◌, if◌then◌else◌};
ghost use Rattle.std.specs.Option.{option_map};
ghost use Rattle.std.specs.Str.{bytes_eq};
ghost use Rattle.std.specs.Map.{lookup};
ghost use Rattle.chain_names.specs.Points.{same_point, point_at};
ghost use Rattle.nmc_base.specs.Heights.{highest};
ghost use Rattle.name_rules.specs.Seen.{seen_coin};

use name_rules::{CoinRef, NameView};
use nmc_base::{OutPoint, Steps};
use std::sync::ledger::Ledger;

/// Coins by their outpoints, and one name with the height of its one value.
#[derive(Drop)]
pub(super) struct Held<'a> {
    pub coins: &'a [(OutPoint, CoinRef<'a>)],
    pub name: &'a [u8],
    pub height: u32,
    ghost within: { height ≤ highest },
}

impl<'a> NameView for Held<'a> {
    ghost maps = { λ v. record {
      coins = λ point. option_map seen_coin (lookup (same_point point) v.coins.now);
      names = λ name. if bytes_eq name v.name.now then record { height = v.height; registered = v.height; at = point_at [] 0; value = [] } ∷ [] else [];
    } };

    fn coin<L: Ledger>(&self, at: &OutPoint, steps: &mut Steps<L>) -> Option<CoinRef<'_>> {
        steps.tick();
        for (point, coin) in self.coins {
            if at == point {
                return Some(*coin);
            }
        }
        None
    }

    fn entry_height<L: Ledger>(&self, name: &[u8], steps: &mut Steps<L>) -> Option<u32> {
        steps.tick();
        if name == self.name {
            Some(self.height)
        } else {
            None
        }
    }
}
