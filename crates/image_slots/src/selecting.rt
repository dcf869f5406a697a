//! Appends a selection.

// Making a selection: its record is appended to file 0.
ghost use Rattle.std.specs.Prelude.{◌≡◌, ◌+◌, ◌*◌, ◌<◌, ◌≤◌, List, ℕ, IsTrue};
ghost use Rattle.disk_model.specs.DiskSeen.{file_in};
ghost use Rattle.image_slots.specs.Selections as selecting;
ghost use Rattle.image_slots.specs.Selections.{drafted_by, selections_file};
ghost use Rattle.image_slots.specs.Slotted.{AreOn, farthest};
ghost use Rattle.image_slots.specs.Calls.{AddsSelection};

use crate::areas::SELECTIONS_FILE;
use crate::limits::SlotLimits;
use disk_model::{Disk, Failed};
use gate_journal::{AppendFault, Journal};

/// So many bytes has a selection: a gate, a length, and the number of the area's file.
const SELECTION_SIZE: u64 = 6;

/// The limit of file 0, whose first gate stands at this place: so many selections and the gate behind them.
pub fn selections_limit(at: u64, most: u32) -> u64
    requires { at ≤ farthest }
    ensures { result ≡ selecting.selections_limit at most }
{
    at + 1 + SELECTION_SIZE * u64::from(most)
}

/// Appends the selection of this area behind so many selections, the first gate of which stands at this place.
pub fn append_selection<D: Disk>(
    disk: &mut D,
    at: u64,
    count: u32,
    limits: SlotLimits,
    area: u8,
) -> Result<(), Failed>
    requires near { at ≤ farthest }
    requires one_more { count < limits.selections }
    requires drafted { area ≡ drafted_by count }
    requires on_disk { IsTrue D.tells → (front : List ℕ) × AreOn front (record { at = at; count = count; limits = limits }) (file_in (D.seen disk.old) selections_file) }
    ensures { AddsSelection D.tells (record { at = at; count = count; limits = limits }) (record { at = at; count = count + 1; limits = limits }) (D.seen disk.old) (D.seen disk.new) result }
{
    let length = at + SELECTION_SIZE * u64::from(count) + 1;
    let limit = selections_limit(at, limits.selections);
    let mut journal = Journal::at_gate(SELECTIONS_FILE, length, limit);
    match journal.append(disk, &[area], &[]) {
        Ok(()) => Ok(()),
        Err(AppendFault::DiskFault) => Err(Failed),
        Err(AppendFault::Full) => unreachable!(),
    }
}
