//! Coins, histories and the queue of expiry, kept in step.

ghost use Rattle.std.specs.Prelude.{◌≡◌, ℕ, ◌+◌, ◌≤◌, true, false, Some, IfOk};
ghost use Rattle.std.specs.Prelude.{Option};
ghost use Rattle.nmc_base.specs.declared.hashes.OutPoint.{OutPoint};
ghost use Rattle.chain_names.specs.declared.coin.Coin.{Coin};
ghost use Rattle.chain_names.specs.Measured.{AreMeasured};
ghost use Rattle.chain_names.specs.Points.{same_point, changed};
ghost use Rattle.chain_names.specs.Tables.{coins_in, coin_places, queued_in, queue_places, queue_of, is_named_at};
ghost use Rattle.name_tables.specs.Tables.{AreEmpty, maps_by};
ghost use Rattle.name_tables.specs.Queueing.{IsTaken, TakesCoin, PutsCoin};

use chain_names::Coin;
use expiry_queue::Queue;
use name_coins::Coins;
use name_table::Table;
use nmc_base::{NoMemory, OutPoint, Steps};
use std::alloc::Global;
use std::sync::ledger::Ledger;

/// The tables of a chain: the live coins, the histories of names, and the queue in which names expire.
#[derive(Drop)]
pub struct Tables {
    pub coins: Coins,
    pub names: Table,
    pub queue: Queue,
}

impl Tables {
    /// Tables without a place.
    pub fn new(alloc: Global) -> Result<Tables, NoMemory>
        ensures { IfOk result (λ tables. AreEmpty tables) }
    {
        Ok(Tables {
            coins: Coins::new(alloc)?,
            names: Table::new(alloc)?,
            queue: Queue::new(alloc)?,
        })
    }

    /// Each coin, its outpoint, and each item of each history are as wide as their fields.
    pub fn widths(&self)
        ensures { AreMeasured (maps_by self.now) }
    {
        self.coins.widths();
        self.names.widths();
    }

    /// Takes a coin's name out of the queue, where it is a name's. The coin itself was taken already.
    fn dequeue<L: Ledger>(&mut self, at: &OutPoint, coin: &Coin, steps: &mut Steps<L>)
        requires queue { (coins : OutPoint → Option Coin) × IsTaken coins (coins_in self.old.coins) (queued_in self.old.queue) at.now coin.now }
        ensures coins { self.new.coins ≡ self.old.coins }
        ensures names { self.new.names ≡ self.old.names }
        ensures queue { queued_in self.new.queue ≡ queue_of (coins_in self.old.coins) }
        ensures rows { queue_places self.new.queue ≡ queue_places self.old.queue }
        ensures cost { steps.new ≤ steps.old + 1 }
    {
        match coin {
            Coin::New { .. } => {}
            Coin::Named { height, .. } => {
                self.queue.take(*height, at, steps);
            }
        }
    }

    /// Takes the coin at an outpoint, and its name out of the queue.
    pub(crate) fn take_coin<L: Ledger>(
        &mut self,
        at: &OutPoint,
        steps: &mut Steps<L>,
    ) -> Option<Coin>
        requires queue { queued_in self.old.queue ≡ queue_of (coins_in self.old.coins) }
        ensures value { result ≡ coins_in self.old.coins at.now }
        ensures taken { TakesCoin self.old self.new at.now }
        ensures cost { steps.new ≤ steps.old + 2 }
    {
        match self.coins.take(at, steps) {
            None => None,
            Some(coin) => {
                self.dequeue(at, &coin, steps);
                Some(coin)
            }
        }
    }

    /// Puts a coin's name in the queue, where it is a name's. The coin itself is put afterwards.
    fn enqueue<L: Ledger>(&mut self, at: &OutPoint, coin: &Coin, steps: &mut Steps<L>)
        requires queue { queued_in self.old.queue ≡ queue_of (coins_in self.old.coins) }
        requires free { (height : ℕ) → is_named_at height (Some coin.now) ≡ false → is_named_at height (coins_in self.old.coins at.now) ≡ false }
        requires row { (height : ℕ) → is_named_at height (Some coin.now) ≡ true → queue_places self.old.queue height at.now ≡ true }
        ensures coins { self.new.coins ≡ self.old.coins }
        ensures names { self.new.names ≡ self.old.names }
        ensures queue { queued_in self.new.queue ≡ queue_of (changed same_point (coins_in self.old.coins) at.now (Some coin.now)) }
        ensures rows { queue_places self.new.queue ≡ queue_places self.old.queue }
        ensures cost { steps.new ≤ steps.old + 1 }
    {
        match coin {
            Coin::New { .. } => {}
            Coin::Named { height, .. } => self.queue.put(*height, at, steps),
        }
    }

    /// Puts a coin at an outpoint that has none, or one of the same row of the queue, and a name in the queue. Their places
    /// are there.
    pub(crate) fn put_coin<L: Ledger>(&mut self, at: &OutPoint, coin: Coin, steps: &mut Steps<L>)
        requires queue { queued_in self.old.queue ≡ queue_of (coins_in self.old.coins) }
        requires free { (height : ℕ) → is_named_at height (Some coin) ≡ false → is_named_at height (coins_in self.old.coins at.now) ≡ false }
        requires place { coin_places self.old.coins at.now ≡ true }
        requires row { (height : ℕ) → is_named_at height (Some coin) ≡ true → queue_places self.old.queue height at.now ≡ true }
        ensures put { PutsCoin self.old self.new at.now coin }
        ensures cost { steps.new ≤ steps.old + 2 }
    {
        self.enqueue(at, &coin, steps);
        self.coins.put(at, coin, steps);
    }
}
