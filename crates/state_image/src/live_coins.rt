//! The coins of an image.

ghost use Rattle.std.specs.Prelude.{◌≡◌, ◌<◌, None, Some, true, OnOk};
ghost use Rattle.chain_names.specs.Points.{same_point, changed};
ghost use Rattle.chain_names.specs.Tables.{coins_in};
ghost use Rattle.undo_records.specs.Fields.{seen_coin};
ghost use Rattle.state_image.specs.Queueing.{IsQueuedAt, IsQueued, HasItsQueue};
ghost use Rattle.state_image.specs.Standing.{IsKept};
ghost use Rattle.state_image.specs.Turning.{Turns};

use crate::next::Next;
use crate::reading::{Reading, fault_of};
use crate::values::entry_at;
use chain_names::Coin;
use expiry_queue::Queue;
use name_tables::Tables;
use nmc_base::{NoMemory, OutPoint, Steps};
use std::alloc::Global;
use std::marker::Brand;
use std::sync::ledger::{Blank, Ledger};
use undo_records::fault::Stop;
use undo_records::fields::u32_at;
use undo_records::found::FoundCoin;
use undo_records::owned::owned_coin;

/// Puts the outpoint in the queue, under this height.
fn queue_at<L: Ledger>(
    queue: &mut Queue,
    height: u32,
    at: OutPoint,
    steps: &mut Steps<L>,
) -> Result<(), NoMemory>
    ensures { OnOk result (IsQueuedAt height at queue.old queue.new) }
{
    queue.place(height, at, steps)?;
    queue.put(height, &at, steps);
    Ok(())
}

/// Puts the outpoint in the queue, under the height of its coin, where it is a name's.
fn queue_up<L: Ledger>(
    queue: &mut Queue,
    at: OutPoint,
    coin: &Coin,
    steps: &mut Steps<L>,
) -> Result<(), NoMemory>
    ensures { OnOk result (IsQueued at coin.now queue.old queue.new) }
{
    match coin {
        Coin::New { .. } => Ok(()),
        Coin::Named { height, .. } => queue_at(queue, *height, at, steps),
    }
}

/// Puts a coin at an outpoint that has none, and a name in the queue. Nobody reads the steps that it takes.
fn put_coin<L: Ledger>(
    tables: &mut Tables,
    at: OutPoint,
    coin: Coin,
    blank: Blank,
) -> Result<(), NoMemory>
    requires name { blank.name ≡ L.name }
    requires parts { blank.parts ≡ L.parts }
    requires some { 0 < blank.parts }
    ensures coins { OnOk result (coins_in tables.new.coins ≡ changed same_point (coins_in tables.old.coins) at (Some coin)) }
    ensures names { tables.new.names ≡ tables.old.names }
    ensures kept { coins_in tables.old.coins at ≡ None → HasItsQueue tables.old → OnOk result (HasItsQueue tables.new) }
{
    let mut steps = Steps::<L>::new(blank);
    tables.coins.place(at, &mut steps)?;
    queue_up(&mut tables.queue, at, &coin, &mut steps)?;
    tables.coins.put(&at, coin, &mut steps);
    Ok(())
}

/// Puts the coin that was found at an outpoint that has none.
fn add_coin(
    alloc: Global,
    tables: &mut Tables,
    at: OutPoint,
    found: FoundCoin<'_>,
) -> Result<(), NoMemory>
    ensures coins { OnOk result (coins_in tables.new.coins ≡ changed same_point (coins_in tables.old.coins) at (Some (seen_coin found.entry))) }
    ensures names { tables.new.names ≡ tables.old.names }
    ensures kept { coins_in tables.old.coins at ≡ None → HasItsQueue tables.old → OnOk result (HasItsQueue tables.new) }
{
    let coin = owned_coin(alloc, found)?;
    put_coin::<Brand>(tables, at, coin, Blank::new(1))
}

impl Reading {
    /// The number of coins.
    pub(crate) fn read_coin_count<'a>(
        &mut self,
        bytes: &'a [u8],
    ) -> Result<Option<&'a [u8]>, Stop<'a>>
        requires next { self.old.next ≡ Next.CoinCount }
        requires kept { IsKept self.old }
        ensures turns { Turns self.old bytes.entry.now self.new result }
        ensures kept { OnOk result (IsKept self.new) }
    {
        match u32_at(bytes) {
            Ok((coins, rest)) => {
                self.last = None;
                self.next = Next::Coins { coins };
                Ok(Some(rest))
            }
            Err(fault) => fault_of(fault),
        }
    }

    /// The next coin, or the end of the coins.
    pub(crate) fn read_coin<'a>(
        &mut self,
        alloc: Global,
        coins: u32,
        bytes: &'a [u8],
    ) -> Result<Option<&'a [u8]>, Stop<'a>>
        requires next { self.old.next ≡ Next.Coins coins }
        requires kept { IsKept self.old }
        ensures turns { Turns self.old bytes.entry.now self.new result }
        ensures kept { OnOk result (IsKept self.new) }
    {
        let Some(coins) = coins.checked_sub(1) else {
            self.next = Next::NameCount;
            return Ok(Some(bytes));
        };
        match entry_at(self.last, bytes) {
            Ok((at, found, rest)) => {
                add_coin(alloc, &mut self.tables, at, found)?;
                self.last = Some(at);
                self.next = Next::Coins { coins };
                Ok(Some(rest))
            }
            Err(fault) => fault_of(fault),
        }
    }
}
