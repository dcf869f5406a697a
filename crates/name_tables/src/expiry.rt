//! Takes expired coins off the tables, and puts them back.

ghost use Rattle.std.specs.Prelude.{◌≡◌, ℕ, ◌+◌, ◌*◌, ◌≤◌, [], length, true, IfOk, OnErr};
ghost use Rattle.std.specs.List.{list_any, AllByRecursion, IsDistinct};
ghost use Rattle.nmc_base.specs.declared.hashes.OutPoint.{OutPoint};
ghost use Rattle.std.specs.List.Sorted.{IsStrictlySortedBy};
ghost use Rattle.nmc_base.specs.Hash.{outpoint_cmp};
ghost use Rattle.chain_names.specs.Points.{same_point};
ghost use Rattle.chain_names.specs.Tables.{coins_in, queued_in, queue_places, queue_of, row_points};
ghost use Rattle.name_tables.specs.Expiring.{Expires, CanReturn, Restores};
ghost use Rattle.name_tables.specs.Taking.{TakesDue};

use crate::tables::Tables;
use chain_names::HeldCoin;
use nmc_base::{NoMemory, OutPoint, RoomyList, Steps};
use std::alloc::Global;
use std::sync::ledger::Ledger;

impl Tables {
    /// The outpoints that have a place in a row.
    fn row_points<L: Ledger>(
        &self,
        alloc: Global,
        row: u32,
        steps: &mut Steps<L>,
    ) -> Result<Vec<OutPoint>, NoMemory>
        ensures points { IfOk result (λ points. points.items ≡ row_points self.now.queue row) }
        ensures distinct { IfOk result (λ points. IsDistinct same_point points.items) }
        ensures cost { steps.new ≤ steps.old + 1 + length (row_points self.now.queue row) }
    {
        let mut points = Vec::new(alloc);
        for i in 0..self.queue.row_len(row, steps) {
            let Some(at) = self.queue.row_item(row, i, steps) else {
                unreachable!()
            };
            points.push(at)?;
        }
        Ok(points)
    }

    /// Takes the coins of a row, at these outpoints, off the tables. There is room for them.
    fn take_due<L: Ledger>(
        &mut self,
        row: u32,
        points: &[OutPoint],
        expired: &mut RoomyList<HeldCoin>,
        steps: &mut Steps<L>,
    )
        requires queue { queued_in self.old.queue ≡ queue_of (coins_in self.old.coins) }
        requires none { expired.old.items ≡ [] }
        requires room { length points.now ≤ expired.old.spare }
        requires rising { IsStrictlySortedBy outpoint_cmp points.now }
        ensures due { TakesDue self.old self.new row points.now expired.new.items }
        ensures cost { steps.new ≤ steps.old + length points.now + 2 * length expired.new.items }
    {
        let mut rest = points;
        while let [at, more @ ..] = rest {
            if self.queue.has(row, at, steps) {
                match self.take_coin(at, steps) {
                    Some(coin) => expired.push(HeldCoin { at: *at, coin }),
                    None => unreachable!(),
                }
            }
            rest = more;
        }
    }

    /// The outpoints that have a place in a row, each once and in their order.
    fn due_points<L: Ledger>(
        &self,
        alloc: Global,
        row: u32,
        steps: &mut Steps<L>,
    ) -> Result<Vec<OutPoint>, NoMemory>
        ensures all { IfOk result (λ points. (point : OutPoint) → queued_in self.now.queue row point ≡ true → list_any (same_point point) points.items ≡ true) }
        ensures rising { IfOk result (λ points. IsStrictlySortedBy outpoint_cmp points.items) }
        ensures count { IfOk result (λ points. length points.items ≡ length (row_points self.now.queue row)) }
        ensures distinct { IfOk result (λ points. IsDistinct same_point (row_points self.now.queue row)) }
        ensures cost { steps.new ≤ steps.old + 1 + length (row_points self.now.queue row) }
    {
        let mut points = self.row_points(alloc, row, steps)?;
        points.sort()?;
        Ok(points)
    }

    /// Takes the coins that are due, those of a row, off the tables, in the order of their outpoints. Where memory runs
    /// out, nothing is done.
    pub fn expire<L: Ledger>(
        &mut self,
        alloc: Global,
        row: u32,
        steps: &mut Steps<L>,
    ) -> Result<RoomyList<HeldCoin>, NoMemory>
        requires queue { queued_in self.old.queue ≡ queue_of (coins_in self.old.coins) }
        ensures ok { IfOk result (λ expired. Expires self.old self.new row expired.items) }
        ensures err { OnErr result (self.new ≡ self.old) }
        ensures distinct { IfOk result (λ expired. IsDistinct same_point (row_points self.old.queue row)) }
        ensures cost { IfOk result (λ expired. steps.new ≤ steps.old + 1 + 2 * length (row_points self.old.queue row) + 2 * length expired.items) }
        ensures err_cost { OnErr result (steps.new ≤ steps.old + 1 + length (row_points self.old.queue row)) }
    {
        let points = self.due_points(alloc, row, steps)?;
        let mut expired = RoomyList::new(alloc);
        expired.reserve(points.len())?;
        self.take_due(row, &points, &mut expired, steps);
        Ok(expired)
    }

    /// Puts the coins that expired back, from the last to the first.
    pub fn restore<L: Ledger>(&mut self, expired: RoomyList<HeldCoin>, steps: &mut Steps<L>)
        requires queue { queued_in self.old.queue ≡ queue_of (coins_in self.old.coins) }
        requires expired { (row : ℕ) × AllByRecursion (CanReturn self.old row) expired.items }
        ensures back { Restores self.old self.new expired.items }
        ensures cost { steps.new ≤ steps.old + 2 * length expired.items }
    {
        let mut expired = expired;
        while let Some(HeldCoin { at, coin }) = expired.pop() {
            self.put_coin(&at, coin, steps);
        }
    }
}
