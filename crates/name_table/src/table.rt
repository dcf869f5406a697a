//! The table of names with their histories.

ghost use Rattle.std.specs.Prelude.{◌≡◌, ◌+◌, ◌-◌, ◌≤◌, ◌++◌, ◌∷◌, [], ℕ, List, true, false, if◌then◌else◌, Some, None, slice_get, IfOk, IfSome, OnOk, OnErr, MatchOption};
ghost use Rattle.std.specs.List.{AllByRecursion, IsDistinct};
ghost use Rattle.std.specs.Map.{keys_of};
ghost use Rattle.std.specs.Option.{is_some, option_copied};
ghost use Rattle.std.specs.Str.{bytes_eq};
ghost use Rattle.indexmap.specs.IndexSet.{insert_key};
ghost use Rattle.chain_names.specs.Changes.{without_entry};
ghost use Rattle.chain_names.specs.Coins.{entry_of};
ghost use Rattle.chain_names.specs.Measured.{IsMeasuredItem, AreItemsMeasured};
ghost use Rattle.chain_names.specs.Points.{changed};
ghost use Rattle.chain_names.specs.Tables.{names_in, name_places, room_in};

use crate::widths::read_widths;
use chain_names::Item;
use indexmap::IndexMap;
use nmc_base::{NoMemory, RoomyList, Steps};
use std::alloc::Global;
use std::marker::Model;
use std::sync::ledger::Ledger;

/// The histories of names, the oldest value first. A value is pushed only where its name has room for it, so that this can't
/// fail.
///
/// Contracts see each name that has a place, in the order of the places, its history, and for how many values more it has room.
#[derive(Drop)]
pub struct Table {
    places: IndexMap<Vec<u8>, RoomyList<Item>>,
}

impl Model for Table {
    ghost use Rattle.std.specs.List.{IsDistinct};
    ghost use Rattle.std.specs.Map.{keys_of};
    ghost use Rattle.std.specs.Str.{bytes_eq};
    ghost use Rattle.chain_names.specs.Measured.{AreItemsMeasured};
    ghost use Rattle.chain_names.specs.Tables.{NameSlots, names_in};
    ghost use Rattle.name_table.specs.ByBytes.{by_bytes};

    ghost Value = { NameSlots };

    ghost view = { λ t. by_bytes t.places.entries };

    ghost invariant = { λ t. AreItemsMeasured (names_in (by_bytes t.places.entries)) × IsDistinct bytes_eq (keys_of (by_bytes t.places.entries)) };
}

impl Table {
    /// No name, and no place.
    pub fn new(alloc: Global) -> Result<Table, NoMemory>
        ensures empty { IfOk result (λ t. t ≡ []) }
    {
        Ok(Table {
            places: IndexMap::new(alloc),
        })
    }

    /// Each item of each history is as wide as its fields.
    pub fn widths(&self)
        ensures { AreItemsMeasured (names_in self.now) }
    {
        // A proof knows what the type keeps where a field is looked at.
        let _places = &self.places;
    }

    /// The name's entry: the last value that it was given. A name with no value is absent.
    pub fn last<L: Ledger>(&self, name: &[u8], steps: &mut Steps<L>) -> Option<&Item>
        ensures value { option_copied result ≡ entry_of (names_in self.now name.now) }
        ensures cost { steps.new ≡ steps.old + 1 }
    {
        steps.tick();
        self.held(name).last()
    }

    /// The values that the name was given, the oldest first.
    pub fn history<L: Ledger>(&self, name: &[u8], steps: &mut Steps<L>) -> &[Item]
        ensures items { result.now ≡ names_in self.now name.now }
        ensures measured { AllByRecursion IsMeasuredItem result.now }
        ensures cost { steps.new ≡ steps.old + 1 }
    {
        steps.tick();
        self.held(name)
    }

    /// Gives the name a place, if it has none, and makes room for so many values more. Where memory runs out, nothing changes.
    pub fn place<L: Ledger>(
        &mut self,
        name: &[u8],
        items: usize,
        steps: &mut Steps<L>,
    ) -> Result<(), NoMemory>
        ensures names { names_in self.new ≡ names_in self.old }
        ensures ok { OnOk result (name_places self.new ≡ changed bytes_eq (name_places self.old) name.now true) }
        // A new place stands last.
        ensures list { OnOk result (keys_of self.new ≡ insert_key bytes_eq (keys_of self.old) name.now) }
        ensures room { OnOk result (items ≤ room_in self.new name.now) }
        ensures no_less { (other : List ℕ) → room_in self.old other ≤ room_in self.new other }
        ensures others { room_in self.new ≡ changed bytes_eq (room_in self.old) name.now (room_in self.new name.now) }
        ensures err { OnErr result (self.new ≡ self.old) }
        ensures cost { steps.new ≡ steps.old + 1 }
    {
        steps.tick();
        if self.places.contains_key(name) {
            self.widen(name, items)
        } else {
            self.add(name, items)
        }
    }

    /// Gives the name's place up, if it has no value.
    pub fn unplace<L: Ledger>(&mut self, name: &[u8], steps: &mut Steps<L>)
        ensures names { names_in self.new ≡ names_in self.old }
        ensures places { name_places self.new ≡ changed bytes_eq (name_places self.old) name.now (is_some (entry_of (names_in self.old name.now))) }
        // Where there is no such place, the list stays as it was, order and all.
        ensures list { name_places self.old name.now ≡ is_some (entry_of (names_in self.old name.now)) → self.new ≡ self.old }
        ensures room { room_in self.new ≡ changed bytes_eq (room_in self.old) name.now (if is_some (entry_of (names_in self.old name.now)) then room_in self.old name.now else 0) }
        ensures cost { steps.new ≡ steps.old + 1 }
    {
        steps.tick();
        if self.held(name).is_empty() {
            drop(self.places.swap_remove(name));
        }
    }

    /// Gives the name a value more, which takes one of the places in its room.
    pub fn push<L: Ledger>(&mut self, name: &[u8], item: Item, steps: &mut Steps<L>)
        requires placed { name_places self.old name.now ≡ true }
        requires room { 1 ≤ room_in self.old name.now }
        ensures names { names_in self.new ≡ changed bytes_eq (names_in self.old) name.now (names_in self.old name.now ++ item ∷ []) }
        ensures places { name_places self.new ≡ name_places self.old }
        ensures list { keys_of self.new ≡ keys_of self.old }
        ensures room { room_in self.new ≡ changed bytes_eq (room_in self.old) name.now (room_in self.old name.now - 1) }
        ensures cost { steps.new ≡ steps.old + 1 }
    {
        steps.tick();
        read_widths(&item);
        match self.places.get_mut(name) {
            Some(history) => history.push(item),
            None => unreachable!(),
        }
    }

    /// Takes the name's last value away. Its place and its room stay.
    pub fn pop<L: Ledger>(&mut self, name: &[u8], steps: &mut Steps<L>) -> Option<Item>
        ensures value { result ≡ entry_of (names_in self.old name.now) }
        ensures names { names_in self.new ≡ changed bytes_eq (names_in self.old) name.now (without_entry (names_in self.old name.now)) }
        ensures places { name_places self.new ≡ name_places self.old }
        ensures list { keys_of self.new ≡ keys_of self.old }
        ensures room { room_in self.new ≡ room_in self.old }
        ensures cost { steps.new ≡ steps.old + 1 }
    {
        steps.tick();
        let history = self.places.get_mut(name)?;
        history.pop()
    }

    /// The i-th of the names that have a place, counted from 0, or None exactly past the end: a walk meets each name once.
    pub fn name_at<L: Ledger>(&self, i: usize, steps: &mut Steps<L>) -> Option<&[u8]>
        ensures name { option_copied result ≡ slice_get (keys_of self.now) i }
        ensures placed { IfSome result (λ name. name_places self.now name.now ≡ true) }
        ensures distinct { IsDistinct bytes_eq (keys_of self.now) }
        ensures cost { steps.new ≡ steps.old + 1 }
    {
        steps.tick();
        let (name, _history) = self.places.get_index(i)?;
        Some(name.as_slice())
    }

    /// The i-th of the names that have a place, as `name_at` counts them, and the values that it was given, the oldest first.
    pub fn entry_at<L: Ledger>(&self, i: usize, steps: &mut Steps<L>) -> Option<(&[u8], &[Item])>
        ensures name { MatchOption result (slice_get (keys_of self.now) i ≡ None) (λ p. slice_get (keys_of self.now) i ≡ Some p.0.now) }
        ensures items { IfSome result (λ p. p.1.now ≡ names_in self.now p.0.now) }
        ensures measured { IfSome result (λ p. AllByRecursion IsMeasuredItem p.1.now) }
        ensures distinct { IsDistinct bytes_eq (keys_of self.now) }
        ensures cost { steps.new ≡ steps.old + 1 }
    {
        steps.tick();
        let (name, history) = self.places.get_index(i)?;
        Some((name.as_slice(), history.as_slice()))
    }

    fn held(&self, name: &[u8]) -> &[Item]
        ensures items { result.now ≡ names_in self.now name.now }
        ensures measured { AllByRecursion IsMeasuredItem result.now }
    {
        match self.places.get(name) {
            Some(history) => history.as_slice(),
            None => &[],
        }
    }

    // More room for a name that has a place.
    fn widen(&mut self, name: &[u8], items: usize) -> Result<(), NoMemory>
        requires { name_places self.old name.now ≡ true }
        ensures names { names_in self.new ≡ names_in self.old }
        ensures places { name_places self.new ≡ name_places self.old }
        ensures list { keys_of self.new ≡ keys_of self.old }
        ensures room { OnOk result (items ≤ room_in self.new name.now) }
        ensures no_less { room_in self.old name.now ≤ room_in self.new name.now }
        ensures others { room_in self.new ≡ changed bytes_eq (room_in self.old) name.now (room_in self.new name.now) }
        ensures err { OnErr result (self.new ≡ self.old) }
    {
        match self.places.get_mut(name) {
            Some(history) => history.reserve(items),
            None => unreachable!(),
        }
    }

    // A place for a name that has none.
    fn add(&mut self, name: &[u8], items: usize) -> Result<(), NoMemory>
        requires { name_places self.old name.now ≡ false }
        ensures names { names_in self.new ≡ names_in self.old }
        ensures ok { OnOk result (name_places self.new ≡ changed bytes_eq (name_places self.old) name.now true) }
        // A new place stands last.
        ensures list { OnOk result (keys_of self.new ≡ insert_key bytes_eq (keys_of self.old) name.now) }
        ensures room { OnOk result (items ≤ room_in self.new name.now) }
        ensures others { room_in self.new ≡ changed bytes_eq (room_in self.old) name.now (room_in self.new name.now) }
        ensures err { OnErr result (self.new ≡ self.old) }
    {
        let alloc = *self.places.allocator();
        let key = Vec::from_slice(alloc, name)?;
        let mut history = RoomyList::new(alloc);
        history.reserve(items)?;
        let before = self.places.insert(key, history)?;
        drop(before);
        Ok(())
    }
}
