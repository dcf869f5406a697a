//! A make is put in the tables.

ghost use Rattle.std.specs.Prelude.{◌≡◌, ◌<◌, ◌++◌, ◌∷◌, [], None, Some, OnOk};
ghost use Rattle.std.specs.Str.{bytes_eq};
ghost use Rattle.chain_names.specs.Points.{same_point, changed};
ghost use Rattle.chain_names.specs.Tables.{coins_in, names_in, AreNamesFilled};
ghost use Rattle.name_snapshot.specs.Fields.{seen_make};
ghost use Rattle.name_snapshot.specs.Standing.{IsQueuedAt, IsQueued, HasItsQueue, IsPut};
ghost use Rattle.name_snapshot.specs.Text.{value};

use crate::found::{FoundMake, FoundTold};
use chain_names::{Coin, Item};
use expiry_queue::Queue;
use name_table::Table;
use name_tables::Tables;
use nmc_base::{Bytes, CompactBytes, NoMemory, OutPoint, Steps};
use std::alloc::Global;
use std::marker::Brand;
use std::sync::ledger::{Blank, Ledger};

/// Puts the outpoint in the queue, under this height.
fn queue_at<L: Ledger>(
    queue: &mut Queue,
    height: u32,
    at: OutPoint,
    steps: &mut Steps<L>,
) -> Result<(), NoMemory>
    ensures { OnOk result (IsQueuedAt height at queue.old queue.new) }
{
    queue.place(height, at, steps)?;
    queue.put(height, &at, steps);
    Ok(())
}

/// Puts the outpoint in the queue, under the height of its coin, where it is a name's.
fn queue_up<L: Ledger>(
    queue: &mut Queue,
    at: OutPoint,
    coin: &Coin,
    steps: &mut Steps<L>,
) -> Result<(), NoMemory>
    ensures { OnOk result (IsQueued at coin.now queue.old queue.new) }
{
    match coin {
        Coin::New { .. } => Ok(()),
        Coin::Named { height, .. } => queue_at(queue, *height, at, steps),
    }
}

/// Puts a coin at an outpoint that has none, and a name in the queue. Nobody reads the steps that it takes.
fn put_coin<L: Ledger>(
    tables: &mut Tables,
    at: OutPoint,
    coin: Coin,
    blank: Blank,
) -> Result<(), NoMemory>
    requires name { blank.name ≡ L.name }
    requires parts { blank.parts ≡ L.parts }
    requires some { 0 < blank.parts }
    ensures coins { OnOk result (coins_in tables.new.coins ≡ changed same_point (coins_in tables.old.coins) at (Some coin)) }
    ensures names { tables.new.names ≡ tables.old.names }
    ensures kept { coins_in tables.old.coins at ≡ None → HasItsQueue tables.old → OnOk result (HasItsQueue tables.new) }
{
    let mut steps = Steps::<L>::new(blank);
    tables.coins.place(at, &mut steps)?;
    queue_up(&mut tables.queue, at, &coin, &mut steps)?;
    tables.coins.put(&at, coin, &mut steps);
    Ok(())
}

/// Gives the name an item more. Nobody reads the steps that it takes.
fn push_item<L: Ledger>(
    names: &mut Table,
    name: &[u8],
    item: Item,
    blank: Blank,
) -> Result<(), NoMemory>
    requires name { blank.name ≡ L.name }
    requires parts { blank.parts ≡ L.parts }
    requires some { 0 < blank.parts }
    ensures names { OnOk result (names_in names.new ≡ changed bytes_eq (names_in names.old) name.now (names_in names.old name.now ++ item ∷ [])) }
    ensures filled { AreNamesFilled names.old → OnOk result (AreNamesFilled names.new) }
{
    let mut steps = Steps::<L>::new(blank);
    names.place(name, 1, &mut steps)?;
    names.push(name, item, &mut steps);
    Ok(())
}

/// Puts the coin and the value of a name that has none yet. The value begins its registration.
fn put_value(
    alloc: Global,
    tables: &mut Tables,
    at: OutPoint,
    height: u32,
    name: &[u8],
    bytes: &[u8],
) -> Result<(), NoMemory>
    ensures { OnOk result (IsPut (record { at = at; height = height; told = value name.now bytes.now }) tables.old tables.new) }
{
    let value = Bytes::copy_of(alloc, bytes)?;
    let of_coin = CompactBytes::copy_of(alloc, name)?;
    let coin = Coin::Named {
        name: of_coin,
        height,
    };
    put_coin::<Brand>(tables, at, coin, Blank::new(1))?;
    let item = Item {
        height,
        registered: height,
        at,
        value,
    };
    push_item::<Brand>(&mut tables.names, name, item, Blank::new(1))?;
    Ok(())
}

/// Puts what the make leaves.
pub(crate) fn put_make(
    alloc: Global,
    tables: &mut Tables,
    make: FoundMake<'_>,
) -> Result<(), NoMemory>
    ensures { OnOk result (IsPut (seen_make make.entry) tables.old tables.new) }
{
    let FoundMake { at, height, told } = make;
    match told {
        FoundTold::Commitment { hash } => {
            put_coin::<Brand>(tables, at, Coin::New { hash, height }, Blank::new(1))?;
            Ok(())
        }
        FoundTold::Value { name, bytes } => put_value(alloc, tables, at, height, name, bytes),
    }
}
