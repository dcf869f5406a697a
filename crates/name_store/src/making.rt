//! Makes the files of a base, without a command.

ghost use Rattle.std.specs.Prelude.{◌≤◌, List, ℕ, IsTrue, OnOk, IsErrOf};
ghost use Rattle.disk_model.specs.Moments.{EachMoment};
ghost use Rattle.disk_model.specs.Changes.{LeavesFrom};
ghost use Rattle.disk_model.specs.DiskSeen.{EndsWith, file_in, bytes_in};
ghost use Rattle.nmc_base.specs.declared.limits.TheConstants.{HIGHEST_HEIGHT};
ghost use Rattle.name_store.specs.Host.{IsHostOf};
ghost use Rattle.name_store.specs.Making.{CreateAnswer, OnlyReads, IsEmpty, EachIsBegun};
ghost use Rattle.name_store.specs.Stands.{EachStands, begun_on};

use crate::faults::CreateFault;
use crate::initialised::is_initialised;
use crate::making_header::make_header;
use crate::making_steps::make_area;
use disk_model::Disk;
use domain_text::Name;
use nmc_base::Base;

/// Makes the files of a base and its host, without a command.
///
/// Files that are initialised stay as they are. File 1 is made first; then file 0 with its gate closed, and last this gate
/// is opened in a write of its own. So from an empty file 0 a crash leaves files that are uninitialised, or those of the
/// base. At each moment file 2 is as it was. The host is the name of an absolute host text, of at most 244 bytes on the wire; the header gets that text.
pub fn create<D: Disk>(disk: &mut D, base: &Base, host: &Name) -> Result<(), CreateFault>
    requires low { base.now.height ≤ HIGHEST_HEIGHT }
    requires host { (text : List ℕ) × IsHostOf text host.now }
    ensures answer { IsTrue D.tells → CreateAnswer (bytes_in (D.seen disk.old)) result }
    ensures spared { IsErrOf result CreateFault.Initialised → OnlyReads D.tells (D.seen disk.old) (D.seen disk.new) }
    ensures made { IsTrue D.tells → (text : List ℕ) → IsHostOf text host.now
        → OnOk result (EachStands (D.seen disk.new).moments.now (begun_on base.now text)) }
    ensures from_empty { IsTrue D.tells → (text : List ℕ) → IsHostOf text host.now → IsEmpty (file_in (D.seen disk.old) 0)
        → EachMoment (EachIsBegun (begun_on base.now text)) (D.seen disk.old).moments (D.seen disk.new).moments }
    ensures others { IsTrue D.tells → EachMoment (LeavesFrom 2 (D.seen disk.old).moments.now) (D.seen disk.old).moments (D.seen disk.new).moments }
    ensures ends { EndsWith CreateFault.DiskFault (D.seen disk.old) (D.seen disk.new) result }
{
    if is_initialised(disk)? {
        return Err(CreateFault::Initialised);
    }
    make_area(disk)?;
    make_header(disk, base, host)?;
    Ok(())
}
