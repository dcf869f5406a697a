//! The histories of a table below some blocks.

ghost use Rattle.std.specs.Prelude.{◌≡◌, ◌<◌, take, OnOk, OnErr};
ghost use Rattle.std.specs.Str.{bytes_eq};
ghost use Rattle.chain_names.specs.Changes.{without_entry};
ghost use Rattle.chain_names.specs.Points.{changed};
ghost use Rattle.chain_names.specs.Tables.{names_in};
ghost use Rattle.states_below.specs.Views.{names_below};

use chain_names::Item;
use indexmap::IndexMap;
use name_table::Table;
use nmc_base::{NoMemory, Steps};
use std::alloc::Global;
use std::marker::Brand;
use std::sync::ledger::{Blank, Ledger};

/// The histories of a table, as they are once last items were taken away.
#[derive(Drop)]
pub(crate) struct NamesBelow<'a> {
    pub(crate) under: &'a Table,
    /// The names that were touched, each with the number of items that it has left.
    pub(crate) left: IndexMap<Vec<u8>, usize>,
}

/// The items of the name. Nobody reads the steps that it takes.
fn items_at<'a, L: Ledger>(names: &'a Table, name: &[u8], blank: Blank) -> &'a [Item]
    requires named { blank.name ≡ L.name }
    requires parts { blank.parts ≡ L.parts }
    requires some { 0 < blank.parts }
    ensures { result.now ≡ names_in names.now name.now }
{
    let mut steps = Steps::<L>::new(blank);
    names.history(name, &mut steps)
}

/// So many of the first items, or all of them.
fn front_of<'a>(items: &'a [Item], count: usize) -> &'a [Item]
    ensures { result.now ≡ take count items.entry.now }
{
    match items.split_at_checked(count) {
        Some((front, _)) => front,
        None => items,
    }
}

impl<'a> NamesBelow<'a> {
    /// The histories of the table itself.
    pub(crate) fn new(alloc: Global, names: &'a Table) -> NamesBelow<'a>
        ensures names { names_below result ≡ names_in names.entry.now }
        ensures table { result.under ≡ names.entry }
    {
        NamesBelow {
            under: names,
            left: IndexMap::new(alloc),
        }
    }

    /// The items of the name, the oldest first.
    pub(crate) fn history(&self, name: &[u8]) -> &'a [Item]
        ensures { result.now ≡ names_below self.now name.now }
    {
        let items = items_at::<Brand>(self.under, name, Blank::new(1));
        match self.left.get(name) {
            Some(count) => front_of(items, *count),
            None => items,
        }
    }

    /// Takes the name's last item away. Where memory runs out, nothing changes.
    pub(crate) fn pop(&mut self, alloc: Global, name: &[u8]) -> Result<(), NoMemory>
        ensures ok { OnOk result (names_below self.new ≡ changed bytes_eq (names_below self.old) name.now (without_entry (names_below self.old name.now))) }
        ensures err { OnErr result (names_below self.new ≡ names_below self.old) }
    {
        let items = self.history(name);
        let left = items.len().saturating_sub(1);
        let key = Vec::from_slice(alloc, name)?;
        self.left.insert(key, left)?;
        Ok(())
    }
}
