//! The rows of a mirror's names, pinned as they stand.

ghost use Rattle.std.specs.Prelude.{◌≡◌, ◌≢◌, ◌+◌, [], Some, length, slice_get, IfSome};
ghost use Rattle.std.specs.Option.{option_map};
ghost use Rattle.chain_names.specs.Coins.{entry_of};
ghost use Rattle.pin_views.specs.Rows.{row_of};
ghost use Rattle.sliced_save.specs.Rows.{FitsRow, rows_of};

use crate::names::MirrorNames;
use chain_names::Item;
use nmc_base::Steps;
use pin_views::{MapWaste, NameKey, SharedStack};
use std::marker::Model;
use std::sync::ledger::Ledger;

/// The row of each name of a mirror, as the names were when these were pinned: its last item, with its height, whether the name is
/// expired or not. They stand over the mirror's own parts, and stay as they are whatever becomes of the mirror.
///
/// Contracts see the names with their rows, in the order of the names.
#[derive(Drop)]
pub struct Rows {
    names: MirrorNames,
}

impl Model for Rows {
    ghost use Rattle.std.specs.Prelude.{List, ℕ};
    ghost use Rattle.pin_views.specs.declared.rows.Row.{Row};
    ghost use Rattle.sliced_save.specs.Rows.{rows_of};

    ghost Value = { List (List ℕ × Row) };

    ghost view = { λ r. rows_of r.names };
}

/// The last item of a name that has one.
fn last_of(items: &SharedStack<Item>) -> &Item
    requires { items.now ≢ [] }
    ensures { Some result.now ≡ entry_of items.now }
{
    match items.at(items.len() - 1) {
        Some(item) => item,
        None => unreachable!(),
    }
}

impl Rows {
    /// The rows of these names.
    pub(crate) fn of(names: MirrorNames) -> Rows
        ensures { result ≡ rows_of names }
    {
        Rows { names }
    }

    /// How many rows there are.
    pub fn len(&self) -> usize
        ensures { result ≡ length self.now }
    {
        self.names.count()
    }

    /// The i-th name with its last item, counted from 0 in the order of the names, or None exactly past the end.
    pub fn at<L: Ledger>(&self, i: usize, steps: &mut Steps<L>) -> Option<(&[u8], &Item)>
        ensures row { option_map (λ p. (p.0.now, row_of p.1.now)) result ≡ slice_get self.now i }
        // A name has at most 255 bytes, a value 1,023, and no height is above 2,000,000,000.
        ensures fits { IfSome result (λ p. FitsRow p.0.now (row_of p.1.now)) }
        ensures cost { steps.new ≡ steps.old + 1 }
    {
        match self.names.at(i, steps) {
            Some((name, items)) => Some((name, last_of(items))),
            None => None,
        }
    }

    /// What is to be let go of where the rows are given up: nothing where others stand over the same parts. It takes no memory.
    pub fn into_waste(self) -> Option<MapWaste<NameKey, SharedStack<Item>>> {
        self.names.into_waste()
    }
}
