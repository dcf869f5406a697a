//! Makes files of a snapshot that a source has.

ghost use Rattle.std.specs.Prelude.{◌≡◌, ◌≤◌, ◌^◌, List, ℕ, length, IsTrue, IsErrOf};
ghost use Rattle.disk_model.specs.DiskSeen.{bytes_in};
ghost use Rattle.nmc_base.specs.declared.limits.TheConstants.{HIGHEST_HEIGHT};
ghost use Rattle.name_store.specs.Host.{IsHostOf};
ghost use Rattle.name_snapshot.specs.Answers.{HasStart};
ghost use Rattle.name_snapshot.specs.Text.{start_of};
ghost use Rattle.name_store.specs.Header.{IsUninitialised};
ghost use Rattle.bridge_commands.specs.Starting.{HasRead, CreatesFrom, StartsFrom};

use crate::start_fault::StartFault;
use byte_io::Source;
use disk_model::Disk;
use domain_text::Name;
use name_snapshot::read_snapshot;
use name_store::{CreateFromFault, create_from, is_initialised};
use name_tables::Parts;
use nmc_base::{Base, Hash32};
use state_image::let_go;
use std::alloc::Global;

/// A hash has 32 bytes.
fn read_hash(hash: Hash32)
    ensures { length hash.0 ≡ 32 }
{}

/// Makes the files of what was read, and lets go of it.
fn make_of<D: Disk>(
    alloc: Global,
    disk: &mut D,
    base: &Base,
    host: &Name,
    parts: Parts,
) -> Result<(), CreateFromFault>
    requires low { base.now.height ≤ HIGHEST_HEIGHT }
    requires host { (text : List ℕ) × IsHostOf text host.now }
    requires read { HasRead base.now parts }
    ensures { (name : List ℕ) → IsHostOf name host.now → (text : List ℕ) (has : HasStart base.now text parts)
        → CreatesFrom D.tells base.now name (start_of has.makes) (D.seen disk.old) (D.seen disk.new) result }
{
    read_hash(base.hash);
    let made = create_from(alloc, disk, base, host, &parts);
    let_go(parts);
    made
}

/// Reads the source, and makes the files of what it gives, which aren't initialised.
fn start_files<S: Source, D: Disk>(
    alloc: Global,
    source: &mut S,
    disk: &mut D,
    base: &Base,
    host: &Name,
    limit: u64,
) -> Result<(), StartFault>
    requires low { base.now.height ≤ HIGHEST_HEIGHT }
    requires host { (text : List ℕ) × IsHostOf text host.now }
    requires limit { limit ≤ 2 ^ 32 }
    requires shut { IsTrue D.tells → IsUninitialised (bytes_in (D.seen disk.old) 0) }
    ensures starts { (name : List ℕ) → IsHostOf name host.now
        → StartsFrom D.tells base.now name limit (D.seen disk.old) (D.seen disk.new) (S.seen source.old) (S.seen source.new) result }
    ensures never { IsTrue D.tells → IsErrOf result StartFault.Initialised → ⊥ }
{
    let parts = match read_snapshot(alloc, source, base, limit) {
        Ok(parts) => parts,
        Err(fault) => return Err(StartFault::of_feed(fault)),
    };
    match make_of(alloc, disk, base, host, parts) {
        Ok(()) => Ok(()),
        Err(fault) => Err(StartFault::of_making(fault)),
    }
}

/// Makes the files of a base and its host, with the start list of a snapshot that is read from the source to its end: of fewer
/// than `limit` bytes.
///
/// File 0 is looked at first: files that are initialised stay as they are, and then the source isn't read. All memory is taken before
/// the first write, and with any fault but the disk's none is asked for. From an empty file 0 a crash leaves files that are uninitialised,
/// or those of the base with the snapshot's start list. At each moment file 2 is as it was.
pub fn make_from<S: Source, D: Disk>(
    alloc: Global,
    source: &mut S,
    disk: &mut D,
    base: &Base,
    host: &Name,
    limit: u64,
) -> Result<(), StartFault>
    requires low { base.now.height ≤ HIGHEST_HEIGHT }
    requires host { (text : List ℕ) × IsHostOf text host.now }
    requires limit { limit ≤ 2 ^ 32 }
    ensures starts { (name : List ℕ) → IsHostOf name host.now
        → StartsFrom D.tells base.now name limit (D.seen disk.old) (D.seen disk.new) (S.seen source.old) (S.seen source.new) result }
    ensures unread { IsTrue D.tells → IsErrOf result StartFault.Initialised → source.new ≡ source.old }
{
    if is_initialised(disk)? {
        return Err(StartFault::Initialised);
    }
    start_files(alloc, source, disk, base, host, limit)
}
