//! Heights of registration, as they follow from the records.

ghost use Rattle.std.specs.Prelude.{◌≡◌, ◌<◌};

use crate::images::value;
use crate::outputs::output;
use chain_names::{Change, ChangeRoom, Coin, Item, KeptOp, OpParts, Undo};
use name_table::Table;
use nmc_base::{Boxed, CompactBytes, Hash20, Hash32, NoMemory, RoomyList, Steps};
use registrations::fill;
use std::alloc::Global;
use std::marker::Brand;
use std::process::Abort;
use std::sync::ledger::{Blank, Ledger};
use std::test::Fail;

#[derive(Clone, Copy)]
enum How {
    AtBase,
    Opened,
    Updated,
}

/// A value of the name, with the registration height that follows from the records. All come from one output.
struct Given {
    height: u32,
    how: How,
    since: u32,
}

static GIVEN: [Given; 4] = [
    Given {
        height: 9,
        how: How::AtBase,
        since: 9,
    },
    Given {
        height: 13,
        how: How::Opened,
        since: 13,
    },
    Given {
        height: 20,
        how: How::Updated,
        since: 13,
    },
    Given {
        height: 50,
        how: How::Opened,
        since: 50,
    },
];

/// A value as a text of version 1 tells it.
fn told(alloc: Global, height: u32) -> Result<Item, NoMemory> {
    value(alloc, height, 0, 2)
}

/// The operation that gave a value behind one of the height before, unless it stands at the base.
fn operation(alloc: Global, how: How, before: u32) -> Result<Option<KeptOp>, NoMemory> {
    let room = ChangeRoom::new(alloc)?;
    let before = Boxed::new(alloc, told(alloc, before)?)?;
    let change = Change {
        spent: output(1, 0),
        coin: Coin::New {
            hash: Hash20([7; 20]),
            height: 1,
        },
        name: CompactBytes::copy_of(alloc, b"d/a")?,
        before: Some(before),
    };
    match how {
        How::AtBase => Ok(None),
        How::Opened => Ok(Some(room.first(output(2, 0), change))),
        How::Updated => Ok(Some(room.update(output(2, 0), change))),
    }
}

/// The record of a block that did nothing but this.
fn record_of(alloc: Global, how: How, before: u32) -> Result<Undo, NoMemory> {
    let mut ops = RoomyList::new(alloc);
    ops.reserve(1)?;
    if let Some(op) = operation(alloc, how, before)? {
        ops.push(op);
    }
    Ok(Undo {
        block: Hash32([0xb0; 32]),
        ops,
        expired: RoomyList::new(alloc),
    })
}

/// Gives the name a value more.
fn give<L: Ledger>(
    alloc: Global,
    names: &mut Table,
    height: u32,
    steps: &mut Steps<L>,
) -> Result<(), NoMemory> {
    let item = told(alloc, height)?;
    names.place(b"d/a", 1, steps)?;
    names.push(b"d/a", item, steps);
    Ok(())
}

fn histories<L: Ledger>(alloc: Global, steps: &mut Steps<L>) -> Result<Table, NoMemory> {
    let mut names = Table::new(alloc)?;
    for given in &GIVEN {
        give(alloc, &mut names, given.height, steps)?;
    }
    Ok(names)
}

fn records(alloc: Global) -> Result<RoomyList<Undo>, NoMemory> {
    let mut undos = RoomyList::new(alloc);
    let mut before = 0;
    for given in &GIVEN {
        undos.reserve(1)?;
        undos.push(record_of(alloc, given.how, before)?);
        before = given.height;
    }
    Ok(undos)
}

fn since(item: Option<&Item>) -> Option<u32> {
    Some(item?.registered)
}

fn since_before(change: &Change) -> Option<u32> {
    since(Some(change.before.as_ref()?.as_ref()))
}

/// The registration height of the item before the operation of a record.
pub(crate) fn before(undo: Option<&Undo>) -> Option<u32> {
    match undo?.ops.item(0)?.parts() {
        OpParts::New { .. } => None,
        OpParts::First { change, .. } => since_before(change),
        OpParts::Update { change, .. } => since_before(change),
    }
}

fn is_since(rt: &impl Abort, got: Option<u32>, want: Option<u32>, row: usize) {
    assert!(rt; got == want, "row {row}: {got:?}");
}

fn are_set<L: Ledger>(rt: &impl Abort, names: &Table, undos: &[Undo], steps: &mut Steps<L>) {
    let items = names.history(b"d/a", steps);
    let mut last = None;
    for (row, given) in GIVEN.iter().enumerate() {
        is_since(rt, before(undos.get(row)), last, row);
        last = Some(given.since);
        is_since(rt, since(items.get(row)), last, row);
    }
}

fn heights_follow<L: Ledger>(rt: &impl Abort, alloc: Global, blank: Blank) -> Result<(), NoMemory>
    requires name { blank.name ≡ L.name }
    requires parts { blank.parts ≡ L.parts }
    requires some { 0 < blank.parts }
{
    let mut steps = Steps::<L>::new(blank);
    let mut names = histories(alloc, &mut steps)?;
    let mut undos = records(alloc)?;
    fill(alloc, &mut names, &mut undos)?;
    are_set(rt, &names, undos.as_slice(), &mut steps);
    Ok(())
}

/// The value at the base and those that open the name begin their registration, and the update goes on.
#[test]
fn registration_heights_follow_from_records(rt: HostRuntime) -> Result<(), Fail> {
    heights_follow::<Brand>(&rt, rt.alloc(), Blank::new(1))?;
    Ok(())
}

#[test]
fn registration_heights_follow_or_memory_is_wanted(rt: HostRuntime) -> Result<(), Fail> {
    let _done = heights_follow::<Brand>(&rt, rt.alloc(), Blank::new(1));
    Ok(())
}
