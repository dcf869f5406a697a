//! Makes the places that undoing needs.

ghost use Rattle.std.specs.Prelude.{◌+◌, ◌*◌, ◌≤◌, ◌∷◌, [], length, IfOk, OnOk, OnErr};
ghost use Rattle.std.specs.List.{AllByRecursion};
ghost use Rattle.chain_names.specs.Expired.{is_held_at};
ghost use Rattle.chain_names.specs.declared.coin.HeldCoin.{HeldCoin};
ghost use Rattle.name_tables.specs.Placing.{PlacesOnly};
ghost use Rattle.name_tables.specs.Places.{spends, spends_at, is_queued_at, AreFilledBut};
ghost use Rattle.name_tables.specs.Room.{IsPlaced, HasRoom};
ghost use Rattle.name_tables.specs.Tables.{HoldSame, AreFilled};

use crate::tables::Tables;
use chain_names::{Coin, HeldCoin, KeptOp, OpParts};
use nmc_base::{NoMemory, OutPoint, RoomyList, Steps};
use std::alloc::Global;
use std::sync::ledger::Ledger;

impl Tables {
    /// Makes the places of a coin that is to stand at the outpoint. Where memory runs out, some may stay.
    fn place_coin<L: Ledger>(
        &mut self,
        at: &OutPoint,
        coin: &Coin,
        steps: &mut Steps<L>,
    ) -> Result<(), NoMemory>
        ensures only { let held : HeldCoin = record { at = at.now; coin = coin.now } in PlacesOnly is_held_at is_queued_at self.old self.new (held ∷ []) }
        ensures ok { let held : HeldCoin = record { at = at.now; coin = coin.now } in OnOk result (IsPlaced is_held_at is_queued_at self.new held) }
        ensures cost { steps.new ≤ steps.old + 2 }
    {
        self.coins.place(*at, steps)?;
        match coin {
            Coin::New { .. } => Ok(()),
            Coin::Named { height, .. } => {
                self.queue.place(*height, *at, steps)?;
                Ok(())
            }
        }
    }

    /// Makes the places of what an operation spent.
    fn place_spent<L: Ledger>(&mut self, op: &KeptOp, steps: &mut Steps<L>) -> Result<(), NoMemory>
        ensures only { PlacesOnly spends spends_at self.old self.new (op.now ∷ []) }
        ensures ok { OnOk result (IsPlaced spends spends_at self.new op.now) }
        ensures cost { steps.new ≤ steps.old + 2 }
    {
        match op.parts() {
            OpParts::New { .. } => Ok(()),
            OpParts::First { change, .. } => {
                self.place_coin(&change.spent, &change.coin, steps)?;
                Ok(())
            }
            OpParts::Update { change, .. } => {
                self.place_coin(&change.spent, &change.coin, steps)?;
                Ok(())
            }
        }
    }

    /// Makes the places of what these operations spent.
    fn place_all_spent<L: Ledger>(
        &mut self,
        ops: &[KeptOp],
        steps: &mut Steps<L>,
    ) -> Result<(), NoMemory>
        ensures only { PlacesOnly spends spends_at self.old self.new ops.now }
        ensures ok { OnOk result (AllByRecursion (IsPlaced spends spends_at self.new) ops.now) }
        ensures cost { steps.new ≤ steps.old + 2 * length ops.now }
    {
        let mut rest = ops;
        while let [op, more @ ..] = rest {
            match self.place_spent(op, steps) {
                Ok(()) => {}
                Err(error) => return Err(error),
            }
            rest = more;
        }
        Ok(())
    }

    /// Makes the places of these coins.
    fn place_all_expired<L: Ledger>(
        &mut self,
        expired: &[HeldCoin],
        steps: &mut Steps<L>,
    ) -> Result<(), NoMemory>
        ensures only { PlacesOnly is_held_at is_queued_at self.old self.new expired.now }
        ensures ok { OnOk result (AllByRecursion (IsPlaced is_held_at is_queued_at self.new) expired.now) }
        ensures cost { steps.new ≤ steps.old + 2 * length expired.now }
    {
        let mut rest = expired;
        while let [held, more @ ..] = rest {
            match self.place_coin(&held.at, &held.coin, steps) {
                Ok(()) => {}
                Err(error) => return Err(error),
            }
            rest = more;
        }
        Ok(())
    }

    /// Makes the places of what these operations spent and of these coins. Where memory runs out, some may stay.
    fn place_all<L: Ledger>(
        &mut self,
        ops: &[KeptOp],
        expired: &[HeldCoin],
        steps: &mut Steps<L>,
    ) -> Result<(), NoMemory>
        requires filled { AreFilled self.old }
        ensures same { HoldSame self.old self.new }
        ensures filled { AreFilledBut self.new ops.now expired.now }
        ensures spent { OnOk result (AllByRecursion (IsPlaced spends spends_at self.new) ops.now) }
        ensures held { OnOk result (AllByRecursion (IsPlaced is_held_at is_queued_at self.new) expired.now) }
        ensures cost { steps.new ≤ steps.old + 2 * length ops.now + 2 * length expired.now }
    {
        self.place_all_spent(ops, steps)?;
        self.place_all_expired(expired, steps)?;
        Ok(())
    }

    /// Makes every place that undoing these operations and putting these coins back needs, and an empty list with room for
    /// the outpoints that undoing will empty. Where memory runs out, the places are as they were.
    pub fn make_room<L: Ledger>(
        &mut self,
        alloc: Global,
        ops: &[KeptOp],
        expired: &[HeldCoin],
        steps: &mut Steps<L>,
    ) -> Result<RoomyList<OutPoint>, NoMemory>
        requires filled { AreFilled self.old }
        ensures ok { IfOk result (λ empty. HasRoom self.old self.new ops.now expired.now empty) }
        ensures err { OnErr result (HoldSame self.old self.new × AreFilled self.new) }
        ensures cost { OnOk result (steps.new ≤ steps.old + 2 * length ops.now + 2 * length expired.now) }
        // Giving the places up counts too.
        ensures err_cost { OnErr result (steps.new ≤ steps.old + 4 * length ops.now + 4 * length expired.now) }
    {
        let mut empty = RoomyList::new(alloc);
        let room = ops.len().checked_add(1).ok_or(NoMemory)?;
        empty.reserve(room)?;
        match self.place_all(ops, expired, steps) {
            Ok(()) => Ok(empty),
            Err(error) => {
                self.clear(ops, expired, steps);
                Err(error)
            }
        }
    }
}
