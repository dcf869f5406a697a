//! The rows of a table of names.
ghost use Rattle.std.specs.Prelude.{◌≡◌, ◌<◌, IfOk, OnOk};
ghost use Rattle.chain_names.specs.Tables.{AreNamesFilled};

use crate::comparing::holds;
use name_table::{Item, Table};
use nmc_base::{Bytes, Hash32, NoMemory, OutPoint, Steps};
use pin_views::{NameKey, Row, SharedMap, rows_of};
use std::alloc::Global;
use std::marker::Brand;
use std::process::Abort;
use std::sync::ledger::{Blank, Ledger};
use std::test::Fail;

/// A value of this height.
fn item_of(alloc: Global, height: u32, value: &[u8]) -> Result<Item, NoMemory> {
    Ok(Item {
        height,
        registered: 10,
        at: OutPoint {
            txid: Hash32([1; 32]),
            index: 0,
        },
        value: Bytes::copy_of(alloc, value)?,
    })
}

/// A table with no place.
fn empty(alloc: Global) -> Result<Table, NoMemory>
    ensures { IfOk result AreNamesFilled }
{
    let table = Table::new(alloc)?;
    Ok(table)
}

/// Gives the name an item more.
fn push_item<L: Ledger>(
    table: &mut Table,
    name: &[u8],
    item: Item,
    steps: &mut Steps<L>,
) -> Result<(), NoMemory>
    ensures { AreNamesFilled table.old → OnOk result (AreNamesFilled table.new) }
{
    table.place(name, 1, steps)?;
    table.push(name, item, steps);
    Ok(())
}

/// Gives the name a value more.
fn give<L: Ledger>(
    alloc: Global,
    table: &mut Table,
    name: &[u8],
    height: u32,
    value: &[u8],
    steps: &mut Steps<L>,
) -> Result<(), NoMemory>
    requires { AreNamesFilled table.old }
    ensures { OnOk result (AreNamesFilled table.new) }
{
    let item = item_of(alloc, height, value)?;
    push_item(table, name, item, steps)
}

/// Three names, of which the first has two values and the second is long.
fn fill<L: Ledger>(alloc: Global, table: &mut Table, steps: &mut Steps<L>) -> Result<(), NoMemory>
    requires { AreNamesFilled table.old }
    ensures { OnOk result (AreNamesFilled table.new) }
{
    give(alloc, table, b"d/b", 10, b"first", steps)?;
    give(alloc, table, b"d/as-long-as-it-may-be", 11, b"long", steps)?;
    give(alloc, table, b"d/b", 12, b"second", steps)?;
    give(alloc, table, b"d/a", 13, b"", steps)
}

/// This row stands at this place.
fn is_at(rows: &SharedMap<NameKey, Row>, i: usize, name: &[u8], height: u32, value: &[u8]) -> bool {
    rows.at(i).is_some_and(|(key, row)| {
        key.as_slice() == name && row.height == height && row.value.as_slice() == value
    })
}

/// They stand in the order of their bytes, each with its last value.
fn are_in_order<L: Ledger>(
    rt: &impl Abort,
    alloc: Global,
    table: &Table,
    steps: &mut Steps<L>,
) -> Result<(), NoMemory>
    requires { AreNamesFilled table.now }
{
    let rows = rows_of(alloc, table, steps)?;
    holds(rt, is_at(&rows, 0, b"d/a", 13, b""));
    holds(rt, is_at(&rows, 1, b"d/as-long-as-it-may-be", 11, b"long"));
    holds(rt, is_at(&rows, 2, b"d/b", 12, b"second"));
    holds(rt, rows.at(3).is_none());
    Ok(())
}

fn rows_in_order<L: Ledger>(rt: &impl Abort, alloc: Global, blank: Blank) -> Result<(), NoMemory>
    requires name { blank.name ≡ L.name }
    requires parts { blank.parts ≡ L.parts }
    requires some { 0 < blank.parts }
{
    let mut steps = Steps::<L>::new(blank);
    let mut table = empty(alloc)?;
    fill(alloc, &mut table, &mut steps)?;
    are_in_order(rt, alloc, &table, &mut steps)
}

#[test]
fn the_last_value_of_each_name_in_order(rt: HostRuntime) -> Result<(), Fail> {
    rows_in_order::<Brand>(&rt, rt.alloc(), Blank::new(1))?;
    Ok(())
}
