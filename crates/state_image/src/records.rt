//! The head of an image and its records.

ghost use Rattle.std.specs.Prelude.{◌≡◌, ◌++◌, ◌∷◌, [], OnOk};
ghost use Rattle.chain_names.specs.Seen.{seen_undo};
ghost use Rattle.undo_records.specs.Fields.{seen_coin, seen_op};
ghost use Rattle.image_grammar.specs.Stages.{in_undos, closed, stands};
ghost use Rattle.state_image.specs.Standing.{IsKept, standing};
ghost use Rattle.state_image.specs.Turning.{Turns};

use crate::head::opening_at;
use crate::next::Next;
use crate::reading::{Reading, begun, fault_of};
use crate::values::{held_at, undo_head_at};
use chain_names::{HeldCoin, KeptOp};
use nmc_base::{NoMemory, OutPoint, RoomyList};
use std::alloc::Global;
use std::mem;
use undo_records::fault::Stop;
use undo_records::fields::u32_at;
use undo_records::found::{FoundCoin, FoundOp};
use undo_records::ops::op_at;
use undo_records::owned::{owned_coin, owned_op};

/// Adds an operation to those before it.
fn add_op(alloc: Global, ops: &mut RoomyList<KeptOp>, found: FoundOp<'_>) -> Result<(), NoMemory>
    ensures { OnOk result (ops.new.items ≡ ops.old.items ++ seen_op found.entry ∷ []) }
{
    let op = owned_op(alloc, found)?;
    ops.reserve(1)?;
    ops.push(op);
    Ok(())
}

/// Adds a coin to those before it.
fn add_held(
    alloc: Global,
    coins: &mut RoomyList<HeldCoin>,
    at: OutPoint,
    found: FoundCoin<'_>,
) -> Result<(), NoMemory>
    ensures { OnOk result (coins.new.items ≡ coins.old.items ++ (record { at = at; coin = seen_coin found.entry }) ∷ []) }
{
    let coin = owned_coin(alloc, found)?;
    coins.reserve(1)?;
    coins.push(HeldCoin { at, coin });
    Ok(())
}

impl Reading {
    /// The head, and the number of records.
    pub(crate) fn read_head<'a>(&mut self, bytes: &'a [u8]) -> Result<Option<&'a [u8]>, Stop<'a>>
        requires next { self.old.next ≡ Next.Head }
        requires kept { IsKept self.old }
        ensures turns { Turns self.old bytes.entry.now self.new result }
        ensures kept { OnOk result (IsKept self.new) }
    {
        match opening_at(bytes) {
            Ok((version, base, undos, rest)) => {
                self.version = version;
                self.base = base;
                self.next = Next::Undos { undos };
                Ok(Some(rest))
            }
            Err(fault) => fault_of(fault),
        }
    }

    /// The block of the next record and the number of its operations, or the end of the records.
    pub(crate) fn read_undo<'a>(
        &mut self,
        alloc: Global,
        undos: u32,
        bytes: &'a [u8],
    ) -> Result<Option<&'a [u8]>, Stop<'a>>
        requires next { self.old.next ≡ Next.Undos undos }
        requires kept { IsKept self.old }
        ensures turns { Turns self.old bytes.entry.now self.new result }
        ensures kept { OnOk result (IsKept self.new) }
    {
        let Some(undos) = undos.checked_sub(1) else {
            self.next = Next::CoinCount;
            return Ok(Some(bytes));
        };
        match undo_head_at(bytes) {
            Ok((block, ops, rest)) => {
                let undo = begun(alloc, block);
                self.undo = undo;
                self.last = None;
                self.next = Next::Ops { ops, undos };
                Ok(Some(rest))
            }
            Err(fault) => fault_of(fault),
        }
    }

    /// The next operation of a record, or the end of its operations.
    pub(crate) fn read_op<'a>(
        &mut self,
        alloc: Global,
        ops: u32,
        undos: u32,
        bytes: &'a [u8],
    ) -> Result<Option<&'a [u8]>, Stop<'a>>
        requires next { self.old.next ≡ Next.Ops ops undos }
        requires kept { IsKept self.old }
        ensures turns { Turns self.old bytes.entry.now self.new result }
        ensures kept { OnOk result (IsKept self.new) }
    {
        let Some(ops) = ops.checked_sub(1) else {
            self.next = Next::ExpiredCount { undos };
            return Ok(Some(bytes));
        };
        match op_at(self.version, bytes) {
            Ok((found, rest)) => {
                add_op(alloc, &mut self.undo.ops, found)?;
                self.next = Next::Ops { ops, undos };
                Ok(Some(rest))
            }
            Err(fault) => fault_of(fault),
        }
    }

    /// The number of a record's expired coins.
    pub(crate) fn read_expired_count<'a>(
        &mut self,
        undos: u32,
        bytes: &'a [u8],
    ) -> Result<Option<&'a [u8]>, Stop<'a>>
        requires next { self.old.next ≡ Next.ExpiredCount undos }
        requires kept { IsKept self.old }
        ensures turns { Turns self.old bytes.entry.now self.new result }
        ensures kept { OnOk result (IsKept self.new) }
    {
        match u32_at(bytes) {
            Ok((expired, rest)) => {
                self.next = Next::Expired { expired, undos };
                Ok(Some(rest))
            }
            Err(fault) => fault_of(fault),
        }
    }

    /// The record is whole.
    fn close(&mut self, alloc: Global, undos: u32) -> Result<(), NoMemory>
        requires next { self.old.next ≡ Next.Expired 0 undos }
        requires kept { IsKept self.old }
        ensures closed { OnOk result (standing self.new ≡ stands self.old.version (in_undos undos) (closed (standing self.old).gathered)) }
        ensures kept { OnOk result (IsKept self.new) }
    {
        self.undos.reserve(1)?;
        let empty = begun(alloc, self.base.hash);
        let undo = mem::replace(&mut self.undo, empty);
        self.undos.push(undo);
        self.next = Next::Undos { undos };
        Ok(())
    }

    /// The next expired coin of a record, or the end of the record.
    pub(crate) fn read_expired<'a>(
        &mut self,
        alloc: Global,
        expired: u32,
        undos: u32,
        bytes: &'a [u8],
    ) -> Result<Option<&'a [u8]>, Stop<'a>>
        requires next { self.old.next ≡ Next.Expired expired undos }
        requires kept { IsKept self.old }
        ensures turns { Turns self.old bytes.entry.now self.new result }
        ensures kept { OnOk result (IsKept self.new) }
    {
        let Some(expired) = expired.checked_sub(1) else {
            self.close(alloc, undos)?;
            return Ok(Some(bytes));
        };
        match held_at(self.last, bytes) {
            Ok((at, found, rest)) => {
                add_held(alloc, &mut self.undo.expired, at, found)?;
                self.last = Some(at);
                self.next = Next::Expired { expired, undos };
                Ok(Some(rest))
            }
            Err(fault) => fault_of(fault),
        }
    }
}
