//! The inputs that spend a live coin.

ghost use Rattle.std.specs.Prelude.{◌≡◌, ◌+◌, ◌≤◌, length};
ghost use Rattle.chain_names.specs.Verdict.{name_inputs};
ghost use Rattle.name_rules.specs.Found.{shortened};
ghost use Rattle.name_rules.specs.Seen.{found_inputs};

use crate::found::Found;
use crate::view::{CoinRef, NameView};
use nmc_base::{OutPoint, Steps};
use std::sync::ledger::Ledger;
use tx_reader::Inputs;

/// A live coin that an input spends.
#[derive(Clone, Copy, Debug)]
pub(crate) struct Spent<'v> {
    pub at: OutPoint,
    pub coin: CoinRef<'v>,
}

/// The inputs that spend a live coin: the first, and whether there are more.
pub(crate) fn name_inputs<'v, V: NameView, L: Ledger>(
    view: &'v V,
    inputs: Inputs<'_>,
    steps: &mut Steps<L>,
) -> Found<Spent<'v>>
    ensures found { found_inputs result ≡ shortened (name_inputs (V.maps view.now).coins inputs.entry) }
    ensures cost { steps.new ≤ steps.old + length inputs.entry }
{
    let mut found = Found::Nothing;
    for input in inputs {
        if let Some(coin) = view.coin(&input.previous, steps) {
            let at = input.previous;
            found = found.and(Spent { at, coin });
        }
    }
    found
}
