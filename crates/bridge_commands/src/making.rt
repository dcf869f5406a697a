//! The commands that make files, of a base or of a snapshot.

ghost use Rattle.std.specs.Prelude.{◌≡◌, ◌≤◌, ◌^◌, List, ℕ, IsTrue};
ghost use Rattle.nmc_base.specs.declared.limits.TheConstants.{HIGHEST_HEIGHT};
ghost use Rattle.name_store.specs.Host.{IsHostOf};
ghost use Rattle.bridge_commands.specs.Making.{Inits, InitsFrom, status_of_making, status_of_start};

use crate::start_fault::StartFault;
use crate::starting::make_from;
use bridge_core::Status;
use byte_io::Source;
use disk_model::Disk;
use domain_text::Name;
use name_store::{CreateFault, create};
use nmc_base::Base;
use std::alloc::Global;

/// The most bytes that a snapshot is read of: 2^32.
const SNAPSHOT_LIMIT: u64 = 1 << 32;

/// The status of a making that ended so.
fn status_of(made: Result<(), CreateFault>) -> Status
    ensures { result ≡ status_of_making made }
{
    match made {
        Ok(()) => Status::Done,
        Err(CreateFault::Initialised) => Status::Initialised,
        Err(CreateFault::DiskFault) => Status::DiskFault,
    }
}

/// The status of a making from a snapshot that ended so.
fn status_of_start(made: Result<(), StartFault>) -> Status
    ensures { result ≡ status_of_start made }
{
    match made {
        Ok(()) => Status::Done,
        Err(StartFault::Initialised) => Status::Initialised,
        Err(StartFault::Bad { at }) => Status::BadSnapshot { at },
        Err(StartFault::InputLimit) => Status::InputLimit,
        Err(StartFault::SourceFault) => Status::SourceFault,
        Err(StartFault::DiskFault) => Status::DiskFault,
        Err(StartFault::NoMemory) => Status::NoMemory,
    }
}

/// Makes the files of a base and its host. It takes no memory.
pub(crate) fn init<D: Disk>(disk: &mut D, base: &Base, host: &Name) -> Status
    requires low { base.now.height ≤ HIGHEST_HEIGHT }
    requires host { (text : List ℕ) × IsHostOf text host.now }
    ensures { (text : List ℕ) → IsHostOf text host.now → Inits D.tells base.now text (D.seen disk.old) (D.seen disk.new) result }
{
    let made = create(disk, base, host);
    status_of(made)
}

/// Makes the files of a base and its host, with the start list of the snapshot that the source has, which is read to its end.
///
/// File 0 is looked at before the source, and the source is read before a file is written.
pub(crate) fn init_from<S: Source, D: Disk>(
    alloc: Global,
    source: &mut S,
    disk: &mut D,
    base: &Base,
    host: &Name,
) -> Status
    requires low { base.now.height ≤ HIGHEST_HEIGHT }
    requires host { (text : List ℕ) × IsHostOf text host.now }
    ensures inits { (text : List ℕ) → IsHostOf text host.now
        → InitsFrom D.tells base.now text (2 ^ 32) (D.seen disk.old) (D.seen disk.new) (S.seen source.old) (S.seen source.new) result }
    ensures unread { IsTrue D.tells → result ≡ Status.Initialised → source.new ≡ source.old }
{
    let made = make_from(alloc, source, disk, base, host, SNAPSHOT_LIMIT);
    status_of_start(made)
}
