//! Takes operations off records, and items off histories.

ghost use Rattle.std.specs.Prelude.{◌≡◌, [], map, reverse, IfOk, OnOk};
ghost use Rattle.std.specs.Map.{keys_of};
ghost use Rattle.std.specs.Option.{option_copied};
ghost use Rattle.chain_names.specs.Seen.{seen_undo};
ghost use Rattle.chain_names.specs.Tables.{names_in};
ghost use Rattle.name_tables.specs.Parts.{newest_first};
ghost use Rattle.registrations.specs.Seen.{seen_taken};
ghost use Rattle.registrations.specs.Taking as taking;
ghost use Rattle.registrations.specs.Taking.{IsTakenBack, before_all, names_at_base, undos_taken};

use crate::room::with_room;
use chain_names::{HeldCoin, Item, KeptOp, OpParts, Undo};
use name_table::Table;
use nmc_base::{Hash32, NoMemory, RoomyList, Steps};
use std::alloc::Global;
use std::sync::ledger::Ledger;

/// An operation off its record, and the item that it made, off the name's history.
#[derive(Drop)]
pub(crate) struct Taken {
    pub(crate) op: KeptOp,
    pub(crate) item: Option<Item>,
}

/// A record whose operations were taken back.
#[derive(Drop)]
pub(crate) struct TakenBack {
    pub(crate) block: Hash32,
    /// The last operation first.
    pub(crate) ops: RoomyList<Taken>,
    pub(crate) expired: RoomyList<HeldCoin>,
}

/// The name whose history the operation changed.
pub(crate) fn name_of(op: &KeptOp) -> Option<&[u8]>
    ensures { option_copied result ≡ taking.name_of op.entry.now }
{
    match op.parts() {
        OpParts::New { .. } => None,
        OpParts::First { change, .. } => Some(change.name.as_slice()),
        OpParts::Update { change, .. } => Some(change.name.as_slice()),
    }
}

/// Takes an operation back: the last item of its name.
fn take_op<L: Ledger>(names: &mut Table, op: KeptOp, steps: &mut Steps<L>) -> Taken
    ensures back { IsTakenBack (names_in names.old) (names_in names.new) op result }
    ensures list { keys_of names.new ≡ keys_of names.old }
{
    let item = match name_of(&op) {
        None => None,
        Some(name) => names.pop(name, steps),
    };
    Taken { op, item }
}

/// Takes operations back, from the last to the first.
fn take_ops<L: Ledger>(
    alloc: Global,
    names: &mut Table,
    ops: RoomyList<KeptOp>,
    steps: &mut Steps<L>,
) -> Result<RoomyList<Taken>, NoMemory>
    ensures ops { IfOk result (λ back. reverse back.items ≡ taking.taken ops.items (names_in names.old)) }
    ensures names { OnOk result (names_in names.new ≡ before_all ops.items (names_in names.old)) }
    ensures list { OnOk result (keys_of names.new ≡ keys_of names.old) }
{
    let mut back = with_room(alloc, ops.len())?;
    let mut ops = ops;
    while let Some(op) = ops.pop() {
        back.push(take_op(names, op, steps));
    }
    Ok(back)
}

/// Takes the operations of a record back.
fn take_undo<L: Ledger>(
    alloc: Global,
    names: &mut Table,
    undo: Undo,
    steps: &mut Steps<L>,
) -> Result<TakenBack, NoMemory>
    ensures back { IfOk result (λ back. seen_taken back ≡ record { block = undo.block; ops = taking.taken undo.ops.items (names_in names.old); expired = undo.expired.items }) }
    ensures names { OnOk result (names_in names.new ≡ before_all undo.ops.items (names_in names.old)) }
    ensures list { OnOk result (keys_of names.new ≡ keys_of names.old) }
{
    let ops = take_ops(alloc, names, undo.ops, steps)?;
    Ok(TakenBack {
        block: undo.block,
        ops,
        expired: undo.expired,
    })
}

/// Takes the operations of all records back, from the newest record to the oldest. The newest stands first in what it gives.
pub(crate) fn take_undos<L: Ledger>(
    alloc: Global,
    names: &mut Table,
    undos: &mut RoomyList<Undo>,
    steps: &mut Steps<L>,
) -> Result<RoomyList<TakenBack>, NoMemory>
    ensures back { IfOk result (λ back. map seen_taken back.items ≡ undos_taken (newest_first undos.old.items) (names_in names.old)) }
    ensures none { OnOk result (undos.new.items ≡ []) }
    ensures names { OnOk result (names_in names.new ≡ names_at_base (newest_first undos.old.items) (names_in names.old)) }
    ensures list { OnOk result (keys_of names.new ≡ keys_of names.old) }
{
    let mut back = with_room(alloc, undos.len())?;
    while let Some(undo) = undos.pop() {
        back.push(take_undo(alloc, names, undo, steps)?);
    }
    Ok(back)
}
