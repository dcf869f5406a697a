//! What was read of an image so far.

ghost use Rattle.std.specs.Prelude.{◌≡◌, [], IfOk};
ghost use Rattle.chain_names.specs.Seen.{seen_undo};
ghost use Rattle.name_tables.specs.Tables.{AreEmpty};
ghost use Rattle.state_image.specs.Standing.{IsKept};
ghost use Rattle.state_image.specs.Turning.{IsFaultOf, Turns};

use crate::next::Next;
use chain_names::Undo;
use name_tables::Tables;
use nmc_base::{Base, Bytes, Hash32, NoMemory, OutPoint, Profile, RoomyList};
use std::alloc::Global;
use undo_records::Version;
use undo_records::fault::{Fault, FaultKind, Stop};

/// What was read of an image so far.
#[derive(Drop)]
pub struct Reading {
    pub(crate) version: Version,
    pub(crate) next: Next,
    pub(crate) base: Base,
    /// The whole records, from the oldest on.
    pub(crate) undos: RoomyList<Undo>,
    /// The record that is being read.
    pub(crate) undo: Undo,
    /// The last outpoint of the list of coins that is being read.
    pub(crate) last: Option<OutPoint>,
    /// The last name.
    pub(crate) name: Option<Bytes>,
    pub(crate) tables: Tables,
}

/// A fault, unless the bytes end too early.
pub(crate) fn fault_of<'a>(fault: Fault<'a>) -> Result<Option<&'a [u8]>, Stop<'a>>
    ensures { IsFaultOf fault.entry.kind fault.entry.rest.now result }
{
    match fault.kind {
        FaultKind::Cut => Ok(None),
        FaultKind::BadTag => Err(Stop::At(fault)),
        FaultKind::Unsorted => Err(Stop::At(fault)),
    }
}

/// A record of this block without operations and expired coins.
pub(crate) fn begun(alloc: Global, block: Hash32) -> Undo
    ensures { seen_undo result ≡ record { block = block; ops = []; expired = [] } }
{
    Undo {
        block,
        ops: RoomyList::new(alloc),
        expired: RoomyList::new(alloc),
    }
}

impl Reading {
    /// Nothing was read. What stands for a head says nothing.
    fn of(alloc: Global, tables: Tables) -> Reading
        requires { AreEmpty tables }
        ensures next { result.next ≡ Next.Head }
        ensures kept { IsKept result }
    {
        let base = Base {
            profile: Profile::Main,
            height: 0,
            hash: Hash32([0; 32]),
        };
        Reading {
            version: Version::Two,
            next: Next::Head,
            base,
            undos: RoomyList::new(alloc),
            undo: begun(alloc, base.hash),
            last: None,
            name: None,
            tables,
        }
    }

    /// Nothing was read.
    pub(crate) fn new(alloc: Global) -> Result<Reading, NoMemory>
        ensures next { IfOk result (λ r. r.next ≡ Next.Head) }
        ensures kept { IfOk result (λ r. IsKept r) }
    {
        let tables = Tables::new(alloc)?;
        Ok(Reading::of(alloc, tables))
    }
}
