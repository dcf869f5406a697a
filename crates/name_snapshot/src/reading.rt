//! Reads the head and the makes of a snapshot into tables.

ghost use Rattle.std.specs.Prelude.{◌≡◌, [], IfOk};
ghost use Rattle.name_tables.specs.Parts.{tables_of};
ghost use Rattle.name_tables.specs.Tables.{AreEmpty};
ghost use Rattle.name_snapshot.specs.Standing.{IsBehind};
ghost use Rattle.name_snapshot.specs.Turning.{IsFaultOf};

use crate::next::Next;
use name_tables::{Parts, Tables};
use nmc_base::{Base, NoMemory, OutPoint, RoomyList};
use std::alloc::Global;
use undo_records::fault::{Fault, FaultKind, Stop};

/// What was read of a snapshot so far.
#[derive(Drop)]
pub struct Reading {
    pub(crate) base: Base,
    pub(crate) next: Next,
    /// The outpoint of the last make.
    pub(crate) last: Option<OutPoint>,
    pub(crate) tables: Tables,
}

/// A fault, unless the bytes end too early.
pub(crate) fn fault_of<'a>(fault: Fault<'a>) -> Result<Option<&'a [u8]>, Stop<'a>>
    ensures { IsFaultOf fault.entry.kind fault.entry.rest.now result }
{
    match fault.kind {
        FaultKind::Cut => Ok(None),
        FaultKind::BadTag => Err(Stop::At(fault)),
        FaultKind::Unsorted => Err(Stop::At(fault)),
    }
}

impl Reading {
    /// Nothing was read.
    fn of(base: Base, tables: Tables) -> Reading
        requires { AreEmpty tables }
        ensures base { result.base ≡ base }
        ensures next { result.next ≡ Next.Head }
        ensures behind { IsBehind [] result }
    {
        Reading {
            base,
            next: Next::Head,
            last: None,
            tables,
        }
    }

    /// Nothing was read.
    pub(crate) fn new(alloc: Global, base: Base) -> Result<Reading, NoMemory>
        ensures base { IfOk result (λ r. r.base ≡ base) }
        ensures next { IfOk result (λ r. r.next ≡ Next.Head) }
        ensures behind { IfOk result (λ r. IsBehind [] r) }
    {
        let tables = Tables::new(alloc)?;
        Ok(Reading::of(base, tables))
    }

    /// What was read, with no records.
    pub(crate) fn split(self, alloc: Global) -> Parts
        ensures tables { tables_of result ≡ self.tables }
        ensures undos { result.undos.items ≡ [] }
    {
        Parts::of(self.tables, RoomyList::new(alloc))
    }

    /// Lets go of what was read.
    pub(crate) fn let_go(self, alloc: Global) {
        self.split(alloc).let_go();
    }
}
