//! Opens the gate behind which a record counts.

// Gates, and their opening.
ghost use Rattle.std.specs.Prelude.{◌≡◌, ◌<◌, ◌∷◌, [], length, IsTrue, OnOk};
ghost use Rattle.disk_model.specs.FileState.{IsSettled, put};
ghost use Rattle.disk_model.specs.Moments.{EachMoment};
ghost use Rattle.disk_model.specs.Changes.{Changes};
ghost use Rattle.disk_model.specs.DiskSeen.{Ends, file_in, bytes_in};
ghost use Rattle.gate_journal.specs.Calls.{OpensGate};
ghost use Rattle.gate_journal.specs.Writes.{IsSettledBut, OpensSettled};

use disk_model::{Disk, Failed};

/// A closed gate.
pub const CLOSED: u8 = 0;

/// An open gate.
pub const OPEN: u8 = 1;

/// Opens the gate at this place of a settled file: writes 1 there, in a write of its own, and syncs the file.
///
/// After Ok the file is the old one with its gate open, and settled. A crash in between leaves the old file
/// with some byte at the gate: open where that is 1, else closed.
pub fn open_gate<D: Disk>(disk: &mut D, file: u8, gate: u64) -> Result<(), Failed>
    requires file { file < 3 }
    requires inside { IsTrue D.tells → gate < length (bytes_in (D.seen disk.old) file) }
    requires settled { IsTrue D.tells → IsSettled (file_in (D.seen disk.old) file) }
    ensures { OpensGate D.tells file gate (D.seen disk.old) (D.seen disk.new) result }
{
    write_gate(disk, file, gate)
}

/// Opens a closed gate: what stands behind it is on the disk first, and the open gate is before the end.
pub fn open_behind<D: Disk>(disk: &mut D, file: u8, gate: u64) -> Result<(), Failed>
    requires file { file < 3 }
    requires inside { IsTrue D.tells → gate < length (bytes_in (D.seen disk.old) file) }
    ensures opened { IsTrue D.tells → OnOk result (bytes_in (D.seen disk.new) file ≡ put (bytes_in (D.seen disk.old) file) gate (1 ∷ [])) }
    ensures settled { IsTrue D.tells → OnOk result (IsSettled (file_in (D.seen disk.new) file)) }
    ensures any_moment { IsTrue D.tells → EachMoment
        (OpensSettled file gate (bytes_in (D.seen disk.old) file) (D.seen disk.old).moments.now) (D.seen disk.old).moments (D.seen disk.new).moments }
    ensures ends { Ends (D.seen disk.old) (D.seen disk.new) result }
{
    disk.sync(file)?;
    write_gate(disk, file, gate)
}

/// Writes an open gate over a byte of a settled file, and syncs the file.
fn write_gate<D: Disk>(disk: &mut D, file: u8, gate: u64) -> Result<(), Failed>
    requires file { file < 3 }
    requires inside { IsTrue D.tells → gate < length (bytes_in (D.seen disk.old) file) }
    requires settled { IsTrue D.tells → IsSettled (file_in (D.seen disk.old) file) }
    ensures opened { IsTrue D.tells → OnOk result (bytes_in (D.seen disk.new) file ≡ put (bytes_in (D.seen disk.old) file) gate (1 ∷ [])) }
    ensures settled { IsTrue D.tells → OnOk result (IsSettled (file_in (D.seen disk.new) file)) }
    ensures any_moment { IsTrue D.tells → EachMoment (Changes file (λ _ new. IsSettledBut gate (bytes_in (D.seen disk.old) file) new) (D.seen disk.old).moments.now)
        (D.seen disk.old).moments (D.seen disk.new).moments }
    ensures ends { Ends (D.seen disk.old) (D.seen disk.new) result }
{
    disk.write_at(file, gate, &[OPEN])?;
    disk.sync(file)
}
