//! Sets the registration heights that a text of version 1 leaves out.

ghost use Rattle.std.specs.Prelude.{◌≡◌, ℕ, ◌<◌, List, OnOk};
ghost use Rattle.nmc_base.specs.declared.chain_ends.Profile.{Profile};
ghost use Rattle.chain_names.specs.Coins.{Maps};
ghost use Rattle.chain_names.specs.Sound.{IsSound};
ghost use Rattle.chain_names.specs.Tables.{names_in};
ghost use Rattle.chain_names.specs.Undo.{UndoRecord};
ghost use Rattle.name_tables.specs.Parts.{newest_first};
ghost use Rattle.registrations.specs.Filling.{AreFilledBy};
ghost use Rattle.registrations.specs.Kept.{KeepsLimits};
ghost use Rattle.registrations.specs.Told.{TellSame};

use crate::beginnings::begin_all;
use crate::putting::put_undos;
use crate::taking::take_undos;
use chain_names::Undo;
use name_table::Table;
use nmc_base::{NoMemory, RoomyList, Steps};
use std::alloc::Global;
use std::marker::Brand;
use std::sync::ledger::{Blank, Ledger};

/// Sets the registration heights as they follow from the records. Nobody reads the steps that it takes.
fn fill_by_rule<L: Ledger>(
    alloc: Global,
    names: &mut Table,
    undos: &mut RoomyList<Undo>,
    blank: Blank,
) -> Result<(), NoMemory>
    requires name { blank.name ≡ L.name }
    requires parts { blank.parts ≡ L.parts }
    requires some { 0 < blank.parts }
    ensures { OnOk result (AreFilledBy names.old names.new (newest_first undos.old.items) (newest_first undos.new.items)) }
{
    let mut steps = Steps::<L>::new(blank);
    let back = take_undos(alloc, names, undos, &mut steps)?;
    begin_all(alloc, names, &mut steps)?;
    put_undos(alloc, names, undos, back, &mut steps)
}

/// Sets the registration height of each item in the histories and in the records, the oldest of which stands first. They follow
/// from the records alone, whatever heights stand there.
///
/// The operations are taken back, from the newest to the oldest, and then done again: four look-ups for each, and a few for each
/// name. Where memory runs out, histories and records are in no known state: let both go.
pub fn fill(alloc: Global, names: &mut Table, undos: &mut RoomyList<Undo>) -> Result<(), NoMemory>
    // A text of version 1 tells the same as before.
    ensures told { OnOk result (TellSame (names_in names.new) (names_in names.old) (newest_first undos.new.items) (newest_first undos.old.items)) }
    // Of all states of which it tells this, no other is sound.
    ensures only { OnOk result ((profile : Profile) (base tip : ℕ) (maps : Maps) (us : List UndoRecord) → IsSound profile base tip maps us
        → TellSame maps.names (names_in names.old) us (newest_first undos.old.items) → (maps.names ≡ names_in names.new) × (us ≡ newest_first undos.new.items)) }
    // What else is known of them stays: which places there are, how long all is, how many coins there are.
    ensures kept { OnOk result (KeepsLimits names.old names.new undos.old.items undos.new.items) }
{
    fill_by_rule::<Brand>(alloc, names, undos, Blank::new(1))
}
