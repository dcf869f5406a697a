//! What the rules on names look at.

ghost use Rattle.std.specs.Prelude.{◌≡◌, ◌+◌, ◌≤◌, IfSome};
ghost use Rattle.std.specs.Option.{option_map};
ghost use Rattle.nmc_base.specs.Heights.{highest};
ghost use Rattle.chain_names.specs.Coins.{Maps, entry_of};
ghost use Rattle.name_rules.specs.Seen.{seen_coin};

use nmc_base::{Hash20, OutPoint, Steps};
use std::sync::ledger::Ledger;

/// The coin of a name output, as the tables hold it, and the height of its block.
#[derive(Clone, Copy, PartialEq, Eq, Debug)]
pub enum CoinRef<'a> {
    /// A commitment to a name.
    New { hash: &'a Hash20, height: u32 },
    /// A name.
    Named { name: &'a [u8], height: u32 },
}

/// What the rules look at: the live coins at the height of a block, and the histories of names.
pub trait NameView {
    /// The coins and the histories.
    ghost maps: { Self → Maps };

    /// The live coin at an outpoint.
    fn coin<L: Ledger>(&self, at: &OutPoint, steps: &mut Steps<L>) -> Option<CoinRef<'_>>
        ensures coin { option_map seen_coin result ≡ (maps self.now).coins at.now }
        ensures cost { steps.new ≤ steps.old + 1 };

    /// The height at which a name was given its last value, also where the name is expired.
    fn entry_height<L: Ledger>(&self, name: &[u8], steps: &mut Steps<L>) -> Option<u32>
        ensures entry { result ≡ option_map (λ i. i.height) (entry_of ((maps self.now).names name.now)) }
        ensures height { IfSome result (λ h. h ≤ highest) }
        ensures cost { steps.new ≤ steps.old + 1 };
}
