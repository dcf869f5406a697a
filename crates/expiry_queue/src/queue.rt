//! The outpoints of named coins, by the height of their blocks.

ghost use Rattle.std.specs.Prelude.{◌≡◌, ◌+◌, [], true, false, None, length, nat_eq, slice_get, IfOk, OnOk, OnErr};
ghost use Rattle.std.specs.List.{IsDistinct};
ghost use Rattle.std.specs.Map.{lookup};
ghost use Rattle.std.specs.Option.{is_some};
ghost use Rattle.indexmap.specs.IndexSet.{insert_key};
ghost use Rattle.chain_names.specs.Points.{same_point, changed};
ghost use Rattle.chain_names.specs.Tables.{queued_in, queue_places, row_at, row_points};

use crate::row::Row;
use indexmap::IndexMap;
use nmc_base::{NoMemory, OutPoint, Steps};
use std::alloc::Global;
use std::marker::Model;
use std::sync::ledger::Ledger;

/// The outpoints of named coins, in rows by the height of their blocks. An outpoint is put only where it has a place in the
/// row, so that this can't fail. A row with no place isn't kept.
///
/// Contracts see each height that has a row, and each outpoint that has a place in it, in the order of the places, with whether
/// the place is filled.
#[derive(Drop)]
pub struct Queue {
    rows: IndexMap<u32, Row>,
}

impl Model for Queue {
    ghost use Rattle.chain_names.specs.Tables.{QueueSlots};

    ghost Value = { QueueSlots };

    ghost view = { λ q. q.rows.entries };
}

impl Queue {
    /// No outpoint, and no place.
    pub fn new(alloc: Global) -> Result<Queue, NoMemory>
        ensures empty { IfOk result (λ q. q ≡ []) }
    {
        Ok(Queue {
            rows: IndexMap::new(alloc),
        })
    }

    /// Whether the outpoint is queued at the height.
    pub fn has<L: Ledger>(&self, height: u32, at: &OutPoint, steps: &mut Steps<L>) -> bool
        ensures value { result ≡ queued_in self.now height at.now }
        ensures cost { steps.new ≡ steps.old + 1 }
    {
        steps.tick();
        match self.rows.get(&height) {
            Some(row) => row.has(at),
            None => false,
        }
    }

    /// The number of places at the height. No outpoint has two of them.
    pub fn row_len<L: Ledger>(&self, height: u32, steps: &mut Steps<L>) -> usize
        ensures len { result ≡ length (row_points self.now height) }
        ensures distinct { IsDistinct same_point (row_points self.now height) }
        ensures cost { steps.new ≡ steps.old + 1 }
    {
        steps.tick();
        match self.rows.get(&height) {
            Some(row) => row.len(),
            None => 0,
        }
    }

    /// The outpoint of the i-th place at the height, counted from 0, or None exactly past the end.
    pub fn row_item<L: Ledger>(
        &self,
        height: u32,
        i: usize,
        steps: &mut Steps<L>,
    ) -> Option<OutPoint>
        ensures item { result ≡ slice_get (row_points self.now height) i }
        ensures cost { steps.new ≡ steps.old + 1 }
    {
        steps.tick();
        let row = self.rows.get(&height)?;
        row.item(i)
    }

    /// Gives the outpoint a place at the height, if it has none. Where memory runs out, nothing changes.
    pub fn place<L: Ledger>(
        &mut self,
        height: u32,
        at: OutPoint,
        steps: &mut Steps<L>,
    ) -> Result<(), NoMemory>
        ensures queued { queued_in self.new ≡ queued_in self.old }
        ensures ok { OnOk result (queue_places self.new ≡ changed nat_eq (queue_places self.old) height (changed same_point (queue_places self.old height) at true)) }
        // A new place stands last in its row.
        ensures list { OnOk result (row_points self.new ≡ changed nat_eq (row_points self.old) height (insert_key same_point (row_points self.old height) at)) }
        ensures err { OnErr result (self.new ≡ self.old) }
        ensures cost { steps.new ≡ steps.old + 1 }
    {
        steps.tick();
        if self.rows.contains_key(&height) {
            self.place_in_row(height, at)
        } else {
            self.add_row(height, at)
        }
    }

    /// Gives the outpoint's place at the height up, if it isn't filled, and the row with its last place.
    pub fn unplace<L: Ledger>(&mut self, height: u32, at: &OutPoint, steps: &mut Steps<L>)
        ensures queued { queued_in self.new ≡ queued_in self.old }
        ensures places { queue_places self.new ≡ changed nat_eq (queue_places self.old) height (changed same_point (queue_places self.old height) at.now (queued_in self.old height at.now)) }
        // Where there is no such place, the rows stay as they were, order and all.
        ensures list { queue_places self.old height at.now ≡ queued_in self.old height at.now → row_points self.new ≡ row_points self.old }
        ensures row { row_at self.new height ≡ [] → lookup (nat_eq height) self.new ≡ None }
        ensures cost { steps.new ≡ steps.old + 1 }
    {
        steps.tick();
        self.unplace_in_row(height, at);
        if self.has_empty_row(height) {
            drop(self.rows.swap_remove(&height));
        }
    }

    /// Queues the outpoint at the height, where it has a place.
    pub fn put<L: Ledger>(&mut self, height: u32, at: &OutPoint, steps: &mut Steps<L>)
        requires placed { queue_places self.old height at.now ≡ true }
        ensures queued { queued_in self.new ≡ changed nat_eq (queued_in self.old) height (changed same_point (queued_in self.old height) at.now true) }
        ensures places { queue_places self.new ≡ queue_places self.old }
        ensures list { row_points self.new ≡ row_points self.old }
        ensures cost { steps.new ≡ steps.old + 1 }
    {
        steps.tick();
        match self.rows.get_mut(&height) {
            Some(row) => row.put(at),
            None => unreachable!(),
        }
    }

    /// Takes the outpoint out of the queue at the height, and answers whether it was there. Its place stays.
    pub fn take<L: Ledger>(&mut self, height: u32, at: &OutPoint, steps: &mut Steps<L>) -> bool
        ensures value { result ≡ queued_in self.old height at.now }
        ensures queued { queued_in self.new ≡ changed nat_eq (queued_in self.old) height (changed same_point (queued_in self.old height) at.now false) }
        ensures places { queue_places self.new ≡ queue_places self.old }
        ensures list { row_points self.new ≡ row_points self.old }
        ensures cost { steps.new ≡ steps.old + 1 }
    {
        steps.tick();
        let Some(row) = self.rows.get_mut(&height) else {
            return false;
        };
        row.take(at)
    }

    // A place in a row that is there.
    fn place_in_row(&mut self, height: u32, at: OutPoint) -> Result<(), NoMemory>
        requires { is_some (lookup (nat_eq height) self.old) ≡ true }
        ensures queued { queued_in self.new ≡ queued_in self.old }
        ensures ok { OnOk result (queue_places self.new ≡ changed nat_eq (queue_places self.old) height (changed same_point (queue_places self.old height) at true)) }
        ensures list { OnOk result (row_points self.new ≡ changed nat_eq (row_points self.old) height (insert_key same_point (row_points self.old height) at)) }
        ensures err { OnErr result (self.new ≡ self.old) }
    {
        match self.rows.get_mut(&height) {
            Some(row) => row.place(at),
            None => unreachable!(),
        }
    }

    // A place in a new row.
    fn add_row(&mut self, height: u32, at: OutPoint) -> Result<(), NoMemory>
        requires { lookup (nat_eq height) self.old ≡ None }
        ensures queued { queued_in self.new ≡ queued_in self.old }
        ensures ok { OnOk result (queue_places self.new ≡ changed nat_eq (queue_places self.old) height (changed same_point (queue_places self.old height) at true)) }
        ensures list { OnOk result (row_points self.new ≡ changed nat_eq (row_points self.old) height (insert_key same_point (row_points self.old height) at)) }
        ensures err { OnErr result (self.new ≡ self.old) }
    {
        let mut row = Row::new(*self.rows.allocator());
        row.place(at)?;
        drop(self.rows.insert(height, row)?);
        Ok(())
    }

    // Gives a place up that isn't filled. The row stays.
    fn unplace_in_row(&mut self, height: u32, at: &OutPoint)
        ensures queued { queued_in self.new ≡ queued_in self.old }
        ensures places { queue_places self.new ≡ changed nat_eq (queue_places self.old) height (changed same_point (queue_places self.old height) at.now (queued_in self.old height at.now)) }
        ensures list { queue_places self.old height at.now ≡ queued_in self.old height at.now → row_points self.new ≡ row_points self.old }
    {
        let Some(row) = self.rows.get_mut(&height) else {
            return;
        };
        row.unplace(at);
    }

    // Whether the height has a row with no place.
    fn has_empty_row(&self, height: u32) -> bool
        ensures empty { result ≡ true → row_at self.now height ≡ [] }
        ensures other { result ≡ false → row_at self.now height ≡ [] → lookup (nat_eq height) self.now ≡ None }
    {
        match self.rows.get(&height) {
            Some(row) => row.len() == 0,
            None => false,
        }
    }
}
