//! The names of an image and their items.

ghost use Rattle.std.specs.Prelude.{◌≡◌, ◌<◌, ◌++◌, ◌∷◌, [], Some, true, OnOk};
ghost use Rattle.std.specs.Option.{option_copied};
ghost use Rattle.std.specs.Str.{bytes_eq};
ghost use Rattle.chain_names.specs.Points.{changed};
ghost use Rattle.chain_names.specs.Tables.{names_in, AreNamesFilled};
ghost use Rattle.undo_records.specs.Fields.{seen_item};
ghost use Rattle.image_grammar.specs.Stages.{item_added};
ghost use Rattle.state_image.specs.Standing.{IsKept};
ghost use Rattle.state_image.specs.Turning.{Turns};

use crate::next::Next;
use crate::reading::{Reading, fault_of};
use crate::values::history_head_at;
use chain_names::Item;
use name_table::Table;
use nmc_base::{Bytes, NoMemory, Steps};
use std::alloc::Global;
use std::marker::Brand;
use std::sync::ledger::{Blank, Ledger};
use undo_records::coins::{bad_tag, item_at};
use undo_records::fault::Stop;
use undo_records::fields::u32_at;
use undo_records::found::FoundItem;
use undo_records::owned::owned_item;

/// Gives the name an item more. Nobody reads the steps that it takes.
fn push_item<L: Ledger>(
    names: &mut Table,
    name: &[u8],
    item: Item,
    blank: Blank,
) -> Result<(), NoMemory>
    requires name { blank.name ≡ L.name }
    requires parts { blank.parts ≡ L.parts }
    requires some { 0 < blank.parts }
    ensures names { OnOk result (names_in names.new ≡ changed bytes_eq (names_in names.old) name.now (names_in names.old name.now ++ item ∷ [])) }
    ensures filled { AreNamesFilled names.old → OnOk result (AreNamesFilled names.new) }
{
    let mut steps = Steps::<L>::new(blank);
    names.place(name, 1, &mut steps)?;
    names.push(name, item, &mut steps);
    Ok(())
}

/// Gives the name, if there is one, the item that was found.
fn add_item(
    alloc: Global,
    names: &mut Table,
    name: &Option<Bytes>,
    found: FoundItem<'_>,
) -> Result<(), NoMemory>
    ensures names { OnOk result (names_in names.new ≡ item_added (names_in names.old) name.now (seen_item found.entry)) }
    ensures filled { AreNamesFilled names.old → OnOk result (AreNamesFilled names.new) }
{
    let item = owned_item(alloc, found)?;
    match name {
        Some(name) => push_item::<Brand>(names, name.as_slice(), item, Blank::new(1)),
        None => Ok(()),
    }
}

/// The bytes of the last name, if there is one.
fn bytes_of(name: &Option<Bytes>) -> Option<&[u8]>
    ensures { option_copied result ≡ name.now }
{
    match name {
        Some(name) => Some(name.as_slice()),
        None => None,
    }
}

impl Reading {
    /// The number of names.
    pub(crate) fn read_name_count<'a>(
        &mut self,
        bytes: &'a [u8],
    ) -> Result<Option<&'a [u8]>, Stop<'a>>
        requires next { self.old.next ≡ Next.NameCount }
        requires kept { IsKept self.old }
        ensures turns { Turns self.old bytes.entry.now self.new result }
        ensures kept { OnOk result (IsKept self.new) }
    {
        match u32_at(bytes) {
            Ok((names, rest)) => {
                self.next = Next::Names { names };
                Ok(Some(rest))
            }
            Err(fault) => fault_of(fault),
        }
    }

    /// The next name and the number of its items, or the end of the names.
    pub(crate) fn read_name<'a>(
        &mut self,
        alloc: Global,
        names: u32,
        bytes: &'a [u8],
    ) -> Result<Option<&'a [u8]>, Stop<'a>>
        requires next { self.old.next ≡ Next.Names names }
        requires kept { IsKept self.old }
        ensures turns { Turns self.old bytes.entry.now self.new result }
        ensures kept { OnOk result (IsKept self.new) }
    {
        let Some(names) = names.checked_sub(1) else {
            return Ok(Some(bytes));
        };
        match history_head_at(bytes_of(&self.name), bytes) {
            Ok((name, items, rest)) => {
                let name = Bytes::copy_of(alloc, name)?;
                self.name = Some(name);
                self.next = Next::Items { items, names };
                Ok(Some(rest))
            }
            Err(fault) => fault_of(fault),
        }
    }

    /// The next item of a name, or the end of its items.
    pub(crate) fn read_item<'a>(
        &mut self,
        alloc: Global,
        items: u32,
        names: u32,
        bytes: &'a [u8],
    ) -> Result<Option<&'a [u8]>, Stop<'a>>
        requires next { self.old.next ≡ Next.Items items names }
        requires kept { IsKept self.old }
        ensures turns { Turns self.old bytes.entry.now self.new result }
        ensures kept { OnOk result (IsKept self.new) }
    {
        let Some(items) = items.checked_sub(1) else {
            self.next = Next::Names { names };
            return Ok(Some(bytes));
        };
        match item_at(self.version, bytes) {
            Ok((found, rest)) => {
                add_item(alloc, &mut self.tables.names, &self.name, found)?;
                self.next = Next::Items { items, names };
                Ok(Some(rest))
            }
            Err(fault) => fault_of(fault),
        }
    }
}
