//! Gives places up that nothing stands in any more.

ghost use Rattle.std.specs.Prelude.{◌+◌, ◌*◌, ◌≤◌, List, [], length};
ghost use Rattle.chain_names.specs.declared.coin.HeldCoin.{HeldCoin};
ghost use Rattle.name_tables.specs.Clearing.{GivesUp, GivesUpOp};
ghost use Rattle.name_tables.specs.Places.{AreFilledBut};
ghost use Rattle.name_tables.specs.Tables.{HoldSame, AreFilled};

use crate::tables::Tables;
use chain_names::{Coin, HeldCoin, KeptOp, OpParts};
use nmc_base::{OutPoint, Steps};
use std::sync::ledger::Ledger;

impl Tables {
    /// Gives the places up of a coin that stood at the outpoint, unless they hold something.
    fn give_up<L: Ledger>(&mut self, at: &OutPoint, coin: &Coin, steps: &mut Steps<L>)
        ensures up { GivesUp self.old self.new at.now coin.now }
        ensures cost { steps.new ≤ steps.old + 2 }
    {
        self.coins.unplace(at, steps);
        match coin {
            Coin::New { .. } => {}
            Coin::Named { height, .. } => self.queue.unplace(*height, at, steps),
        }
    }

    /// Gives the places up of what an operation spent.
    fn give_up_spent<L: Ledger>(&mut self, op: &KeptOp, steps: &mut Steps<L>)
        ensures up { GivesUpOp self.old self.new op.now }
        ensures cost { steps.new ≤ steps.old + 2 }
    {
        match op.parts() {
            OpParts::New { .. } => {}
            OpParts::First { change, .. } => self.give_up(&change.spent, &change.coin, steps),
            OpParts::Update { change, .. } => self.give_up(&change.spent, &change.coin, steps),
        }
    }

    /// Gives the places up of what these operations spent.
    fn clear_spent<L: Ledger>(&mut self, ops: &[KeptOp], steps: &mut Steps<L>)
        ensures same { HoldSame self.old self.new }
        ensures filled { (expired : List HeldCoin) → AreFilledBut self.old ops.now expired → AreFilledBut self.new [] expired }
        ensures cost { steps.new ≤ steps.old + 2 * length ops.now }
    {
        let mut rest = ops;
        while let [op, more @ ..] = rest {
            self.give_up_spent(op, steps);
            rest = more;
        }
    }

    /// Gives the places up of these coins.
    fn clear_expired<L: Ledger>(&mut self, expired: &[HeldCoin], steps: &mut Steps<L>)
        ensures same { HoldSame self.old self.new }
        ensures filled { AreFilledBut self.old [] expired.now → AreFilledBut self.new [] [] }
        ensures cost { steps.new ≤ steps.old + 2 * length expired.now }
    {
        let mut rest = expired;
        while let [held, more @ ..] = rest {
            self.give_up(&held.at, &held.coin, steps);
            rest = more;
        }
    }

    /// Gives the places up of what these operations spent and of these coins, unless they hold something.
    pub fn clear<L: Ledger>(&mut self, ops: &[KeptOp], expired: &[HeldCoin], steps: &mut Steps<L>)
        ensures same { HoldSame self.old self.new }
        // Where no other place is empty, none is then.
        ensures filled { AreFilledBut self.old ops.now expired.now → AreFilled self.new }
        ensures cost { steps.new ≤ steps.old + 2 * length ops.now + 2 * length expired.now }
    {
        self.clear_spent(ops, steps);
        self.clear_expired(expired, steps);
    }
}
