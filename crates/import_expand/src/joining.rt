//! The sources of the entries under a label, of many objects: each is asked once.

ghost use Rattle.std.specs.Prelude.{◌≡◌, ℕ, ◌+◌, ◌≤◌, ◌++◌, [], List, length, take, drop, IfOk, IfErr, OnOk};
ghost use Rattle.std.specs.List.{flat_map};
ghost use Rattle.serde_json.specs.Data.{Members};
ghost use Rattle.ifa_value.specs.Labels.{label_number as number_of_label};
ghost use Rattle.import_expand.specs.Sources.{Live, all_sources, entries, under};
ghost use Rattle.import_expand.specs.Books.{objects, GivesUp, IsAt, Shows, IsSound, Keeps, Later};
ghost use Rattle.import_expand.specs.Joinings.{AddsUnder, AreTold};

use crate::book::Book;
use crate::exhausted::Exhausted;
use crate::expansion::expand;
use crate::limits::MOST_SOURCES;
use crate::names::Names;
use crate::told::{Joining, Told};
use ifa_value::label_number;
use nmc_base::NoMemory;
use std::alloc::Global;

/// Remembers what an object added that was asked when so many sources were found. Where there are as many as there may be, no other
/// is asked.
fn keep(at: usize, first: usize, book: &mut Book, joining: &mut Joining) -> Result<(), NoMemory>
    ensures found { joining.new.found ≡ joining.old.found }
    ensures keeps { OnOk result (Keeps book.old book.new) }
    ensures told { OnOk result ((live : Live) (os : List Members) (label : List ℕ) (o : Members) (ms : List Members) → first ≡ length ms → IsAt os at o → Shows os joining.old.found.items (take 256 (ms ++ under live label o)) → AreTold live os label (take 256 (ms ++ under live label o)) joining.old.told.items → AreTold live os label (take 256 (ms ++ under live label o)) joining.new.told.items) }
{
    if joining.found.len() == MOST_SOURCES {
        return Ok(());
    }
    let count = joining.found.len().saturating_sub(first);
    book.keep_told(at, joining.told.len())?;
    joining.told.push(Told {
        of: at,
        first,
        count,
    })?;
    Ok(())
}

/// Adds the sources of an object's entry under a label, for which a number stands.
fn add_entry<N: Names>(
    alloc: Global,
    names: &N,
    at: usize,
    label: &[u8],
    number: u64,
    book: &mut Book,
    joining: &mut Joining,
) -> Result<(), Exhausted>
    requires number { number ≡ number_of_label label.now }
    requires sound { IsSound (N.served names.now) book.old }
    ensures told { joining.new.told ≡ joining.old.told }
    ensures later { OnOk result (Later (N.served names.now) book.old book.new) }
    ensures added { OnOk result ((o : Members) (ms : List Members) → IsAt (objects book.old) at o → Shows (objects book.old) joining.old.found.items ms → Shows (objects book.new) joining.new.found.items (take 256 (ms ++ under (N.served names.now) label.now o))) }
    ensures refused { IfErr result (GivesUp (N.served names.now) book.new) }
{
    match book.ask(alloc, at, label, number)? {
        Some(entry) => expand(alloc, names, entry, 0, book, &mut joining.found)?,
        None => {}
    }
    Ok(())
}

/// Adds the sources of an object's entry under a label, and remembers them.
fn ask_first<N: Names>(
    alloc: Global,
    names: &N,
    at: usize,
    label: &[u8],
    number: u64,
    book: &mut Book,
    joining: &mut Joining,
) -> Result<(), Exhausted>
    requires number { number ≡ number_of_label label.now }
    requires sound { IsSound (N.served names.now) book.old }
    ensures later { OnOk result (Later (N.served names.now) book.old book.new) }
    ensures added { OnOk result (AddsUnder (N.served names.now) label.now at book.old joining.old book.new joining.new) }
    ensures refused { IfErr result (GivesUp (N.served names.now) book.new) }
{
    let first = joining.found.len();
    add_entry(alloc, names, at, label, number, book, joining)?;
    keep(at, first, book, joining)?;
    Ok(())
}

/// Adds the sources of an object's entry under a label, as far as there is room: it is asked for it, unless it was before.
fn ask<N: Names>(
    alloc: Global,
    names: &N,
    at: usize,
    label: &[u8],
    number: u64,
    book: &mut Book,
    joining: &mut Joining,
) -> Result<(), Exhausted>
    requires number { number ≡ number_of_label label.now }
    requires sound { IsSound (N.served names.now) book.old }
    ensures later { OnOk result (Later (N.served names.now) book.old book.new) }
    ensures added { OnOk result (AddsUnder (N.served names.now) label.now at book.old joining.old book.new joining.new) }
    ensures refused { IfErr result (GivesUp (N.served names.now) book.new) }
{
    if book.lacks(at, number) {
        return Ok(());
    }
    match book.known_told(at, joining.told.as_slice(), joining.found.len()) {
        Some(told) => {
            joining.again(told)?;
            Ok(())
        }
        None => ask_first(alloc, names, at, label, number, book, joining),
    }
}

/// The sources of the entries under a label, of many objects.
pub(crate) fn join_many<N: Names>(
    alloc: Global,
    names: &N,
    of: &[usize],
    label: &[u8],
    book: &mut Book,
) -> Result<Vec<usize>, Exhausted>
    requires sound { IsSound (N.served names.now) book.old }
    ensures found { IfOk result (λ v. (ns : List Members) → Shows (objects book.old) of.now ns → Shows (objects book.new) v.items (take 256 (flat_map (all_sources (N.served names.now) 4) (entries label.now ns)))) }
    ensures later { OnOk result (Later (N.served names.now) book.old book.new) }
    ensures refused { IfErr result (GivesUp (N.served names.now) book.new) }
{
    let number = label_number(label);
    let mut joining = Joining::new(alloc)?;
    for source in of {
        if joining.found.len() == MOST_SOURCES {
            return Ok(joining.found);
        }
        ask(alloc, names, *source, label, number, book, &mut joining)?;
    }
    Ok(joining.found)
}
