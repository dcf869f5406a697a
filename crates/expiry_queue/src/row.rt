//! The outpoints of one height.

ghost use Rattle.std.specs.Prelude.{◌≡◌, [], true, false, Some, length, slice_get, OnOk, OnErr};
ghost use Rattle.std.specs.List.{IsDistinct};
ghost use Rattle.std.specs.Map.{keys_of, lookup};
ghost use Rattle.indexmap.specs.IndexSet.{insert_key};
ghost use Rattle.chain_names.specs.Points.{same_point, changed};
ghost use Rattle.expiry_queue.specs.OneRow.{row_queued, row_places};

use indexmap::IndexMap;
use nmc_base::{NoMemory, OutPoint};
use std::alloc::Global;
use std::marker::Model;

/// The outpoints of one height, each with whether its place is filled.
#[derive(Drop)]
pub struct Row {
    points: IndexMap<OutPoint, bool>,
}

impl Model for Row {
    ghost use Rattle.expiry_queue.specs.OneRow.{RowSlots};

    ghost Value = { RowSlots };

    ghost view = { λ r. r.points.entries };
}

impl Row {
    /// No place.
    pub fn new(alloc: Global) -> Row
        ensures { result ≡ [] }
    {
        Row {
            points: IndexMap::new(alloc),
        }
    }

    /// Whether the outpoint is queued.
    pub fn has(&self, at: &OutPoint) -> bool
        ensures { result ≡ row_queued self.now at.now }
    {
        match self.points.get(at) {
            Some(filled) => *filled,
            None => false,
        }
    }

    /// The number of places.
    pub fn len(&self) -> usize
        ensures len { result ≡ length self.now }
        ensures distinct { IsDistinct same_point (keys_of self.now) }
    {
        self.points.len()
    }

    /// The outpoint of the i-th place, counted from 0, or None exactly past the end.
    pub fn item(&self, i: usize) -> Option<OutPoint>
        ensures { result ≡ slice_get (keys_of self.now) i }
    {
        let (at, _filled) = self.points.get_index(i)?;
        Some(*at)
    }

    /// Gives the outpoint a place, if it has none. Where memory runs out, nothing changes.
    pub fn place(&mut self, at: OutPoint) -> Result<(), NoMemory>
        ensures queued { row_queued self.new ≡ row_queued self.old }
        ensures ok { OnOk result (row_places self.new ≡ changed same_point (row_places self.old) at true) }
        ensures list { OnOk result (keys_of self.new ≡ insert_key same_point (keys_of self.old) at) }
        ensures err { OnErr result (self.new ≡ self.old) }
    {
        if !self.points.contains_key(&at) {
            let _before = self.points.insert(at, false)?;
        }
        Ok(())
    }

    /// Gives the outpoint's place up, if it isn't filled.
    pub fn unplace(&mut self, at: &OutPoint)
        ensures queued { row_queued self.new ≡ row_queued self.old }
        ensures places { row_places self.new ≡ changed same_point (row_places self.old) at.now (row_queued self.old at.now) }
        ensures list { row_places self.old at.now ≡ row_queued self.old at.now → self.new ≡ self.old }
    {
        if self.has_empty(at) {
            self.points.swap_remove(at);
        }
    }

    /// Fills the outpoint's place.
    pub fn put(&mut self, at: &OutPoint)
        requires placed { row_places self.old at.now ≡ true }
        ensures queued { row_queued self.new ≡ changed same_point (row_queued self.old) at.now true }
        ensures places { row_places self.new ≡ row_places self.old }
        ensures list { keys_of self.new ≡ keys_of self.old }
    {
        match self.points.insert(*at, true) {
            Ok(_) => {}
            Err(_) => unreachable!(),
        }
    }

    /// Empties the outpoint's place, which stays, and answers whether it was filled.
    pub fn take(&mut self, at: &OutPoint) -> bool
        ensures value { result ≡ row_queued self.old at.now }
        ensures queued { row_queued self.new ≡ changed same_point (row_queued self.old) at.now false }
        ensures places { row_places self.new ≡ row_places self.old }
        ensures list { keys_of self.new ≡ keys_of self.old }
    {
        if !self.has(at) {
            return false;
        }
        match self.points.insert(*at, false) {
            Ok(_) => true,
            Err(_) => unreachable!(),
        }
    }

    // Whether the outpoint has a place that isn't filled.
    fn has_empty(&self, at: &OutPoint) -> bool
        ensures empty { result ≡ true → lookup (same_point at.now) self.now ≡ Some false }
        ensures other { result ≡ false → row_places self.now at.now ≡ row_queued self.now at.now }
    {
        match self.points.get(at) {
            Some(filled) => !*filled,
            None => false,
        }
    }
}
