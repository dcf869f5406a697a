//! Counts the selections of file 0.

// Reading the selections, one after the other.
ghost use Rattle.std.specs.Prelude.{◌≡◌, ◌↔◌, ◌+◌, ◌≤◌, take, IsTrue, OnOk, OnErr, IfOk, MatchResult};
ghost use Rattle.disk_model.specs.Moments.{EachMoment};
ghost use Rattle.disk_model.specs.Changes.{Unchanged};
ghost use Rattle.disk_model.specs.DiskSeen.{EndsWith, file_in, bytes_in};
ghost use Rattle.gate_journal.specs.Stand.{IsReadable, gate_of};
ghost use Rattle.image_slots.specs.Selections.{HasSelections, next_selection, selections_file, selections_limit};
ghost use Rattle.image_slots.specs.Calls.{ReadsSelection, CountsSelections};

use crate::areas::drafted_area;
use crate::faults::SlotFault;
use disk_model::Disk;
use gate_journal::Journal;
use nmc_base::Bytes;

/// Whether the record is the selection behind so many others.
fn is_next(held: &[u8], count: u32) -> bool
    ensures { IsTrue result ↔ (held.now ≡ next_selection count) }
{
    held == [drafted_area(count)].as_slice()
}

/// Reads the selection behind so many others. False at a closed gate.
fn read_next<D: Disk>(
    disk: &mut D,
    journal: &mut Journal,
    held: &mut Bytes,
    count: u32,
) -> Result<bool, SlotFault>
    requires file { journal.old.file ≡ selections_file }
    requires gate { 1 ≤ journal.old.length }
    requires readable { IsTrue D.tells → IsReadable journal.old (file_in (D.seen disk.old) selections_file) }
    ensures { ReadsSelection D.tells journal.old journal.new count (D.seen disk.old) (D.seen disk.new) result }
{
    let at = journal.length() - 1;
    match journal.next_record(disk, held) {
        Ok(more) => {
            if !more {
                return Ok(false);
            }
            if !is_next(held.as_slice(), count) {
                return Err(SlotFault::Damaged { at });
            }
            Ok(true)
        }
        Err(fault) => Err(SlotFault::from(fault)),
    }
}

/// How many selections there are behind the journal's first gate, at most as many as fit its limit.
pub fn count_selections<D: Disk>(
    disk: &mut D,
    journal: &mut Journal,
    held: &mut Bytes,
    at: u64,
    most: u32,
) -> Result<u32, SlotFault>
    requires file { journal.old.file ≡ selections_file }
    requires gate { journal.old.length ≡ at + 1 }
    requires limit { journal.old.limit ≡ selections_limit at most }
    requires readable { IsTrue D.tells → IsReadable journal.old (file_in (D.seen disk.old) selections_file) }
    ensures { CountsSelections D.tells at most (D.seen disk.old) (D.seen disk.new) result }
{
    let mut count = 0;
    'selections: loop {
        match read_next(disk, journal, held, count) {
            Ok(more) => {
                if !more {
                    return Ok(count);
                }
                count += 1;
            }
            Err(fault) => return Err(fault),
        }
    }
}
