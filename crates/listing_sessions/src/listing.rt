//! A listing that is paged through.

ghost use Rattle.std.specs.Prelude.{◌≡◌, ◌+◌, ◌*◌, ◌<◌, ◌≤◌, ◌++◌, Some, length, not, slice_get, take, vec_capacity, vec_len};
ghost use Rattle.std.specs.List.{flat_map};
ghost use Rattle.listing_sessions.specs.Listing.{row_text};
ghost use Rattle.listing_sessions.specs.Pages.{GivesPage, is_live, left_of, longest_row, pinned};
ghost use Rattle.listing_sessions.specs.declared.page.TheConstants.{LARGEST_PAGE, LONGEST_PAGE};
ghost use Rattle.nmc_base.specs.Expiry.{is_expired};
ghost use Rattle.nmc_base.specs.Heights.{highest};
ghost use Rattle.pin_views.specs.Rows.{row_of};
ghost use Rattle.sliced_save.specs.Rows.{FitsRow};

use crate::page::{write_head, write_row};
use chain_names::Item;
use nmc_base::{Profile, Steps};
use sliced_save::Rows;
use std::marker::Model;
use std::sync::ledger::Ledger;

/// A listing that is paged through: the rows of a chain's names, the profile of the chain and the height of its tip, and how many of
/// the rows were given.
///
/// Contracts see just that.
#[derive(Drop)]
pub(crate) struct Listing {
    rows: Rows,
    profile: Profile,
    height: u32,
    position: usize,
}

impl Model for Listing {
    ghost use Rattle.std.specs.Prelude.{◌≤◌, length};
    ghost use Rattle.nmc_base.specs.Heights.{highest};
    ghost use Rattle.listing_sessions.specs.Pages.{Pinned, pinned};

    ghost Value = { Pinned };

    ghost view = { λ l. pinned l.rows l.profile l.height l.position };

    ghost invariant = { λ l. (l.height ≤ highest) × (l.position ≤ length l.rows) };
}

impl Listing {
    /// Of these rows none was given yet.
    pub(crate) fn new(rows: Rows, profile: Profile, height: u32) -> Listing
        requires { height ≤ highest }
        ensures { result ≡ pinned rows profile height 0 }
    {
        Listing {
            rows,
            profile,
            height,
            position: 0,
        }
    }

    /// Its rows, where nobody pages through them any more.
    pub(crate) fn into_rows(self) -> Rows
        ensures { result ≡ self.rows }
    {
        self.rows
    }

    /// Writes the next page, of so many rows at most, in place of the text, and moves behind it.
    pub(crate) fn turn<L: Ledger>(&mut self, size: u32, text: &mut Vec<u8>, steps: &mut Steps<L>)
        requires size { size ≤ LARGEST_PAGE }
        requires room { LONGEST_PAGE ≤ vec_capacity text.old }
        ensures page { GivesPage size self.old text.new.items self.new }
        ensures short { vec_len text.new ≤ LONGEST_PAGE }
        ensures capacity { vec_capacity text.old ≤ vec_capacity text.new }
        ensures cost { steps.new ≤ steps.old + size }
    {
        let left = self.rows.len() - self.position;
        let size = size as usize;
        let count = left.min(size);
        write_head(text, left <= size, count as u32);
        self.write_rows(count, text, steps);
        self.position += count;
    }

    /// Appends so many of the rows that weren't given.
    fn write_rows<L: Ledger>(&self, count: usize, text: &mut Vec<u8>, steps: &mut Steps<L>)
        requires few { count ≤ LARGEST_PAGE }
        requires within { self.now.position + count ≤ length self.now.rows }
        requires room { vec_len text.old + count * longest_row ≤ vec_capacity text.old }
        ensures text { text.new.items ≡ text.old.items ++ flat_map (row_text (is_live self.now.profile self.now.height)) (take count (left_of self.now)) }
        ensures short { vec_len text.new ≤ vec_len text.old + count * longest_row }
        ensures capacity { vec_capacity text.old ≤ vec_capacity text.new }
        ensures cost { steps.new ≡ steps.old + count }
    {
        for i in 0..count {
            let (name, item) = self.left(i, steps);
            write_row(text, name, item, self.serves(item));
        }
    }

    /// The name and the item of the i-th of the rows that weren't given.
    fn left<L: Ledger>(&self, i: usize, steps: &mut Steps<L>) -> (&[u8], &Item)
        requires { self.now.position + i < length self.now.rows }
        ensures row { Some (result.0.now, row_of result.1.now) ≡ slice_get (left_of self.now) i }
        ensures fits { FitsRow result.0.now (row_of result.1.now) }
        ensures cost { steps.new ≡ steps.old + 1 }
    {
        // The number of rows fits its type.
        let _count = self.rows.len();
        match self.rows.at(self.position + i, steps) {
            Some(found) => found,
            None => unreachable!(),
        }
    }

    /// Whether a name is served whose last item this is: its value isn't expired at the height of the tip.
    fn serves(&self, item: &Item) -> bool
        requires { item.now.height ≤ highest }
        ensures { result ≡ not (is_expired self.now.profile item.now.height self.now.height) }
    {
        !self.profile.expired(item.height, self.height)
    }
}
