//! Making the header of file 0.
ghost use Rattle.std.specs.Prelude.{◌≡◌, ◌≤◌, List, ℕ, length, IsTrue};
ghost use Rattle.disk_model.specs.Moments.{EachMoment};
ghost use Rattle.disk_model.specs.Changes.{LeavesOthers};
ghost use Rattle.disk_model.specs.DiskSeen.{Ends};
ghost use Rattle.nmc_base.specs.declared.limits.TheConstants.{HIGHEST_HEIGHT};
ghost use Rattle.name_store.specs.Damage.{header_file};
ghost use Rattle.name_store.specs.Host.{IsHostOf};
ghost use Rattle.name_store.specs.MakingSteps.{MakesHeader};

use crate::host_text::HostText;
use crate::limits::HEADER_FILE;
use crate::making_steps::{make_fields, make_gate};
use disk_model::{Disk, Failed};
use domain_text::Name;
use gate_journal::open_gate;
use nmc_base::Base;

/// The base, whose hash has 32 bytes.
fn whole(base: Base) -> Base
    ensures value { result ≡ base }
    ensures hash { length base.hash.0 ≡ 32 }
{
    base
}

/// Makes the header of a base and its host, and a closed gate behind it. The header's own gate is opened last, in a write of its own,
/// when all else is on the disk.
pub fn make_header<D: Disk>(disk: &mut D, base: &Base, host: &Name) -> Result<(), Failed>
    requires low { base.now.height ≤ HIGHEST_HEIGHT }
    requires host { (text : List ℕ) × IsHostOf text host.now }
    ensures makes { (text : List ℕ) → IsHostOf text host.now → MakesHeader D.tells base.now text (D.seen disk.old) (D.seen disk.new) result }
    ensures others { IsTrue D.tells → EachMoment (LeavesOthers header_file (D.seen disk.old).moments.now) (D.seen disk.old).moments (D.seen disk.new).moments }
    ensures ends { Ends (D.seen disk.old) (D.seen disk.new) result }
{
    let base = whole(*base);
    let text = HostText::of(host);
    make_gate(disk)?;
    make_fields(disk, &base, text.as_slice())?;
    open_gate(disk, HEADER_FILE, 0)
}
