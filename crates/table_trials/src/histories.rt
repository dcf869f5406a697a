//! The values of a name in their table, one after another.

ghost use Rattle.std.specs.Prelude.{◌≡◌, ◌<◌};

use crate::outputs::output;
use name_table::{Item, Table};
use nmc_base::{Bytes, NoMemory, Steps};
use std::alloc::Global;
use std::marker::Brand;
use std::process::Abort;
use std::sync::ledger::{Blank, Ledger};
use std::test::Fail;

/// Gives the name a place, and its first value.
fn register<L: Ledger>(
    alloc: Global,
    table: &mut Table,
    name: &[u8],
    steps: &mut Steps<L>,
) -> Result<(), NoMemory> {
    let value = Bytes::copy_of(alloc, b"value")?;
    let item = Item {
        height: 13,
        registered: 13,
        at: output(1, 0),
        value,
    };
    table.place(name, 1, steps)?;
    table.push(name, item, steps);
    Ok(())
}

fn register_two<L: Ledger>(
    alloc: Global,
    table: &mut Table,
    steps: &mut Steps<L>,
) -> Result<(), NoMemory> {
    register(alloc, table, b"b", steps)?;
    register(alloc, table, b"a", steps)
}

/// Names stand in the order in which they were given their places, and not in that of their bytes.
fn are_in_order<L: Ledger>(rt: &impl Abort, table: &Table, steps: &mut Steps<L>) {
    assert!(rt; table.name_at(0, steps) == Some(b"b".as_slice()));
    assert!(rt; table.name_at(1, steps) == Some(b"a".as_slice()));
    assert!(rt; table.name_at(2, steps).is_none());
    assert!(rt; table.history(b"a", steps).len() == 1);
}

fn names_in_order<L: Ledger>(rt: &impl Abort, alloc: Global, blank: Blank) -> Result<(), NoMemory>
    requires name { blank.name ≡ L.name }
    requires parts { blank.parts ≡ L.parts }
    requires some { 0 < blank.parts }
{
    let mut steps = Steps::<L>::new(blank);
    let mut table = Table::new(alloc)?;
    let registered = register_two(alloc, &mut table, &mut steps);
    are_in_order(rt, &table, &mut steps);
    registered
}

#[test]
fn names_in_the_order_of_their_places(rt: HostRuntime) -> Result<(), Fail> {
    names_in_order::<Brand>(&rt, rt.alloc(), Blank::new(1))?;
    Ok(())
}
