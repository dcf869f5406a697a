//! Lets each name's first item begin its registration.

ghost use Rattle.std.specs.Prelude.{◌≡◌, ◌++◌, ◌≤◌, [], length, map, reverse, slice_get, true, IfOk, IfSome, OnOk};
ghost use Rattle.std.specs.Map.{keys_of};
ghost use Rattle.std.specs.Str.{bytes_eq};
ghost use Rattle.chain_names.specs.Points.{changed};
ghost use Rattle.chain_names.specs.Tables.{names_in, name_places, room_in};
ghost use Rattle.registrations.specs.Filling as filling;
ghost use Rattle.registrations.specs.Filling.{all_begun};

use crate::room::with_room;
use chain_names::Item;
use name_table::Table;
use nmc_base::{Bytes, NoMemory, RoomyList, Steps};
use std::alloc::Global;
use std::sync::ledger::Ledger;

/// The item, with another registration height.
pub(crate) fn since(registered: u32, item: Item) -> Item
    ensures { result ≡ filling.since registered item }
{
    Item {
        height: item.height,
        registered,
        at: item.at,
        value: item.value,
    }
}

/// The item, whose registration began at this height, or begins with it.
pub(crate) fn going_on(registered: Option<u32>, item: Item) -> Item
    ensures { result ≡ filling.going_on registered item }
{
    let height = item.height;
    match registered {
        Some(registered) => since(registered, item),
        None => since(height, item),
    }
}

/// Takes all items of a name away. The last stands first in what it gives.
fn take_items<L: Ledger>(
    alloc: Global,
    names: &mut Table,
    name: &[u8],
    steps: &mut Steps<L>,
) -> Result<RoomyList<Item>, NoMemory>
    ensures items { IfOk result (λ items. reverse items.items ≡ names_in names.old name.now) }
    ensures names { OnOk result (names_in names.new ≡ changed bytes_eq (names_in names.old) name.now []) }
    ensures list { OnOk result (keys_of names.new ≡ keys_of names.old) }
{
    let mut items = with_room(alloc, names.history(name, steps).len())?;
    while let Some(item) = names.pop(name, steps) {
        items.push(item);
    }
    Ok(items)
}

/// Gives a name these items, the last of which stands first, where each begins its registration.
fn put_begun<L: Ledger>(
    names: &mut Table,
    name: &[u8],
    items: RoomyList<Item>,
    steps: &mut Steps<L>,
)
    requires placed { name_places names.old name.now ≡ true }
    requires room { length items.items ≤ room_in names.old name.now }
    ensures names { names_in names.new ≡ changed bytes_eq (names_in names.old) name.now (names_in names.old name.now ++ map filling.begun (reverse items.items)) }
    ensures list { keys_of names.new ≡ keys_of names.old }
{
    let mut items = items;
    while let Some(item) = items.pop() {
        names.push(name, going_on(None, item), steps);
    }
}

/// Each item of a name begins its registration.
fn begin_name<L: Ledger>(
    alloc: Global,
    names: &mut Table,
    name: &[u8],
    steps: &mut Steps<L>,
) -> Result<(), NoMemory>
    requires { name_places names.old name.now ≡ true }
    ensures names { OnOk result (names_in names.new ≡ changed bytes_eq (names_in names.old) name.now (map filling.begun (names_in names.old name.now))) }
    ensures list { OnOk result (keys_of names.new ≡ keys_of names.old) }
{
    let items = take_items(alloc, names, name, steps)?;
    names.place(name, items.len(), steps)?;
    put_begun(names, name, items, steps);
    Ok(())
}

/// A copy of the i-th of the names that have a place.
fn name_copy<L: Ledger>(
    alloc: Global,
    names: &Table,
    i: usize,
    steps: &mut Steps<L>,
) -> Result<Option<Bytes>, NoMemory>
    ensures copy { IfOk result (λ name. name ≡ slice_get (keys_of names.now) i) }
    ensures placed { IfOk result (λ name. IfSome name (λ bytes. name_places names.now bytes ≡ true)) }
{
    match names.name_at(i, steps) {
        Some(name) => Ok(Some(Bytes::copy_of(alloc, name)?)),
        None => Ok(None),
    }
}

/// Each item of each name begins its registration.
pub(crate) fn begin_all<L: Ledger>(
    alloc: Global,
    names: &mut Table,
    steps: &mut Steps<L>,
) -> Result<(), NoMemory>
    ensures names { OnOk result (names_in names.new ≡ all_begun (names_in names.old)) }
    ensures list { OnOk result (keys_of names.new ≡ keys_of names.old) }
{
    for i in 0..usize::MAX {
        match name_copy(alloc, names, i, steps)? {
            Some(name) => begin_name(alloc, names, name.as_slice(), steps)?,
            None => return Ok(()),
        }
    }
    // So many names aren't in any memory.
    Err(NoMemory)
}
