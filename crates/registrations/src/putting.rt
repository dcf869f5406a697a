//! Puts operations and items back, with their registration heights.

ghost use Rattle.std.specs.Prelude.{◌≡◌, [], map, reverse, IfOk, OnOk};
ghost use Rattle.chain_names.specs.Coins.{with_value};
ghost use Rattle.chain_names.specs.Seen.{seen_undo};
ghost use Rattle.chain_names.specs.Tables.{names_in};
ghost use Rattle.name_tables.specs.Parts.{newest_first};
ghost use Rattle.registrations.specs.Filling as filling;
ghost use Rattle.registrations.specs.Filling.{AreDone, ops_with, op_with, undo_with, with_all, with_last, with_made};
ghost use Rattle.registrations.specs.Places.{PlacesFilled};
ghost use Rattle.registrations.specs.Seen.{seen_taken};
ghost use Rattle.registrations.specs.Taking as taking;

use crate::beginnings::going_on;
use crate::room::with_room;
use crate::taking::{Taken, TakenBack, name_of};
use chain_names::{Change, ChangeRoom, Coin, Item, KeptOp, OpParts, Undo, UndoOp};
use name_table::Table;
use nmc_base::{Boxed, CompactBytes, NoMemory, OutPoint, RoomyList, Steps};
use std::alloc::Global;
use std::sync::ledger::Ledger;

/// The registration height of the last item of the name whose history the operation changed.
fn registered_at<L: Ledger>(names: &Table, op: &KeptOp, steps: &mut Steps<L>) -> Option<u32>
    ensures { result ≡ filling.registered_at (taking.name_of op.now) (names_in names.now) }
{
    let name = name_of(op)?;
    let item = names.last(name, steps)?;
    Some(item.registered)
}

/// The registration height with which the operation's item goes on, if it goes on, where the item before has this one.
fn goes_on_with(op: &KeptOp, registered: Option<u32>) -> Option<u32>
    ensures { result ≡ filling.goes_on_with op.now registered }
{
    match op.parts() {
        OpParts::New { .. } => None,
        OpParts::First { .. } => None,
        OpParts::Update { .. } => registered,
    }
}

fn going_on_if(registered: Option<u32>, item: Option<Item>) -> Option<Item>
    ensures { result ≡ filling.going_on_if registered item }
{
    match item {
        Some(item) => Some(going_on(registered, item)),
        None => None,
    }
}

fn before_behind(
    alloc: Global,
    registered: Option<u32>,
    before: Option<Boxed<Item>>,
) -> Result<Option<Boxed<Item>>, NoMemory>
    ensures { IfOk result (λ behind. behind ≡ filling.going_on_if registered before) }
{
    match before {
        Some(item) => {
            let item = going_on(registered, item.into_inner());
            Ok(Some(Boxed::new(alloc, item)?))
        }
        None => Ok(None),
    }
}

/// The change, where the item before it has this registration height.
fn change_behind(
    alloc: Global,
    registered: Option<u32>,
    spent: OutPoint,
    coin: Coin,
    name: CompactBytes,
    before: Option<Boxed<Item>>,
) -> Result<Change, NoMemory>
    ensures { IfOk result (λ change. change ≡ record { spent = spent; coin = coin; name = name; before = filling.going_on_if registered before }) }
{
    let before = before_behind(alloc, registered, before)?;
    Ok(Change {
        spent,
        coin,
        name,
        before,
    })
}

/// The operation, where the item before it has this registration height.
fn op_behind(alloc: Global, registered: Option<u32>, op: KeptOp) -> Result<KeptOp, NoMemory>
    ensures { IfOk result (λ behind. behind ≡ filling.op_behind registered op) }
{
    match op.into_op() {
        UndoOp::New { made } => Ok(KeptOp::commitment(made)),
        UndoOp::First {
            made,
            spent,
            coin,
            name,
            before,
        } => {
            let change = change_behind(alloc, registered, spent, coin, name, before)?;
            let room = ChangeRoom::new(alloc)?;
            Ok(room.first(made, change))
        }
        UndoOp::Update {
            made,
            spent,
            coin,
            name,
            before,
        } => {
            let change = change_behind(alloc, registered, spent, coin, name, before)?;
            let room = ChangeRoom::new(alloc)?;
            Ok(room.update(made, change))
        }
    }
}

fn put_item<L: Ledger>(
    names: &mut Table,
    name: &[u8],
    item: Item,
    steps: &mut Steps<L>,
) -> Result<(), NoMemory>
    ensures names { OnOk result (names_in names.new ≡ with_value (names_in names.old) name.now item) }
    ensures places { OnOk result (PlacesFilled names.old names.new) }
{
    names.place(name, 1, steps)?;
    names.push(name, item, steps);
    Ok(())
}

/// Gives the name whose history the operation changed this item, if there is one.
fn put_made<L: Ledger>(
    names: &mut Table,
    op: &KeptOp,
    item: Option<Item>,
    steps: &mut Steps<L>,
) -> Result<(), NoMemory>
    ensures names { OnOk result (names_in names.new ≡ with_last (taking.name_of op.now) item (names_in names.old)) }
    ensures places { OnOk result (PlacesFilled names.old names.new) }
{
    match item {
        None => Ok(()),
        Some(item) => match name_of(op) {
            None => Ok(()),
            Some(name) => put_item(names, name, item, steps),
        },
    }
}

/// Does an operation again, with the registration heights that follow from the histories before it.
fn put_op<L: Ledger>(
    alloc: Global,
    names: &mut Table,
    taken: Taken,
    steps: &mut Steps<L>,
) -> Result<KeptOp, NoMemory>
    ensures op { IfOk result (λ op. op ≡ op_with taken.op (names_in names.old)) }
    ensures names { OnOk result (names_in names.new ≡ with_made taken (names_in names.old)) }
    ensures places { OnOk result (PlacesFilled names.old names.new) }
{
    let Taken { op, item } = taken;
    let registered = registered_at(names, &op, steps);
    let item = going_on_if(goes_on_with(&op, registered), item);
    put_made(names, &op, item, steps)?;
    op_behind(alloc, registered, op)
}

/// Does operations again, the last of which stands first.
fn put_ops<L: Ledger>(
    alloc: Global,
    names: &mut Table,
    back: RoomyList<Taken>,
    steps: &mut Steps<L>,
) -> Result<RoomyList<KeptOp>, NoMemory>
    ensures ops { IfOk result (λ ops. ops.items ≡ ops_with (reverse back.items) (names_in names.old)) }
    ensures names { OnOk result (names_in names.new ≡ with_all (reverse back.items) (names_in names.old)) }
    ensures places { OnOk result (PlacesFilled names.old names.new) }
{
    let mut ops = with_room(alloc, back.len())?;
    let mut back = back;
    while let Some(taken) = back.pop() {
        ops.push(put_op(alloc, names, taken, steps)?);
    }
    Ok(ops)
}

fn put_undo<L: Ledger>(
    alloc: Global,
    names: &mut Table,
    back: TakenBack,
    steps: &mut Steps<L>,
) -> Result<Undo, NoMemory>
    ensures undo { IfOk result (λ undo. seen_undo undo ≡ undo_with (seen_taken back) (names_in names.old)) }
    ensures names { OnOk result (names_in names.new ≡ with_all (seen_taken back).ops (names_in names.old)) }
    ensures places { OnOk result (PlacesFilled names.old names.new) }
{
    let ops = put_ops(alloc, names, back.ops, steps)?;
    Ok(Undo {
        block: back.block,
        ops,
        expired: back.expired,
    })
}

/// Does the operations of records again, the newest of which stands first.
pub(crate) fn put_undos<L: Ledger>(
    alloc: Global,
    names: &mut Table,
    undos: &mut RoomyList<Undo>,
    back: RoomyList<TakenBack>,
    steps: &mut Steps<L>,
) -> Result<(), NoMemory>
    requires { undos.old.items ≡ [] }
    ensures { OnOk result (AreDone names.old names.new (map seen_taken back.items) (newest_first undos.new.items)) }
{
    undos.reserve(back.len())?;
    let mut back = back;
    while let Some(taken) = back.pop() {
        undos.push(put_undo(alloc, names, taken, steps)?);
    }
    Ok(())
}
