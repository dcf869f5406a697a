//! Making the files from a start list.
ghost use Rattle.std.specs.Prelude.{◌≤◌, List, ℕ, IsTrue, OnOk, IsErrOf};
ghost use Rattle.disk_model.specs.Moments.{EachMoment};
ghost use Rattle.disk_model.specs.Changes.{LeavesFrom};
ghost use Rattle.disk_model.specs.DiskSeen.{EndsWith, file_in, bytes_in};
ghost use Rattle.nmc_base.specs.declared.limits.TheConstants.{HIGHEST_HEIGHT};
ghost use Rattle.chain_names.specs.Log.{Log};
ghost use Rattle.name_store.specs.Host.{IsHostOf};
ghost use Rattle.name_store.specs.Making.{OnlyReads, IsEmpty, EachIsBegun};
ghost use Rattle.name_store.specs.Stands.{EachStands, begun_from};
ghost use Rattle.name_store.specs.Starting.{IsStartIndex, HasShortText, IsStartText, CreateFromAnswer};

use crate::faults::CreateFromFault;
use crate::initialised::is_initialised;
use crate::making_header::make_header;
use crate::starting_area::make_start;
use disk_model::Disk;
use domain_text::Name;
use name_tables::Parts;
use nmc_base::Base;
use std::alloc::Global;

/// Makes the files of a base and its host that begin with a start list, of which the parts are the index.
///
/// Files that are initialised stay as they are. File 1 is made first, with the image of the index where the list has makes; then file 0
/// with its gate closed, and last this gate is opened in a write of its own. So from an empty file 0 a crash leaves files that are
/// uninitialised, or those of the start list. At each moment file 2 is as it was. Memory is taken for the order of coins and names, 16
/// bytes for each, before the first write, and given back. The header gets the absolute host text whose name the host is.
pub fn create_from<D: Disk>(
    alloc: Global,
    disk: &mut D,
    base: &Base,
    host: &Name,
    parts: &Parts,
) -> Result<(), CreateFromFault>
    requires low { base.now.height ≤ HIGHEST_HEIGHT }
    requires host { (text : List ℕ) × IsHostOf text host.now }
    requires start { (start : Log) × IsStartIndex base.now start parts.now }
    requires short { HasShortText base.now parts.now }
    ensures answer { IsTrue D.tells → CreateFromAnswer (bytes_in (D.seen disk.old)) result }
    ensures spared { IsErrOf result CreateFromFault.Initialised → OnlyReads D.tells (D.seen disk.old) (D.seen disk.new) }
    ensures no_memory { IsErrOf result CreateFromFault.NoMemory → OnlyReads D.tells (D.seen disk.old) (D.seen disk.new) }
    ensures made { IsTrue D.tells → (name : List ℕ) → IsHostOf name host.now → (start : Log) → IsStartIndex base.now start parts.now
        → OnOk result ((text : List ℕ) × IsStartText base.now start text × EachStands (D.seen disk.new).moments.now (begun_from base.now name start text)) }
    ensures from_empty { IsTrue D.tells → (name : List ℕ) → IsHostOf name host.now → IsEmpty (file_in (D.seen disk.old) 0)
        → (start : Log) → IsStartIndex base.now start parts.now → (text : List ℕ) → IsStartText base.now start text
        → EachMoment (EachIsBegun (begun_from base.now name start text)) (D.seen disk.old).moments (D.seen disk.new).moments }
    ensures others { IsTrue D.tells → EachMoment (LeavesFrom 2 (D.seen disk.old).moments.now) (D.seen disk.old).moments (D.seen disk.new).moments }
    ensures ends { EndsWith CreateFromFault.DiskFault (D.seen disk.old) (D.seen disk.new) result }
{
    if is_initialised(disk)? {
        return Err(CreateFromFault::Initialised);
    }
    make_start(alloc, disk, base, parts)?;
    make_header(disk, base, host)?;
    Ok(())
}
