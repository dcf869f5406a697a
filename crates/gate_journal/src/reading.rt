//! Reads what stands behind a gate.

// Reading the start of a record: its gate and its length.
ghost use Rattle.std.specs.Prelude.{◌≡◌, ◌<◌, ◌+◌, ◌^◌, length, IsTrue, IfOk, IfSome};
ghost use Rattle.std.specs.Int.{w32, from_le_bytes, to_le_bytes};
ghost use Rattle.disk_model.specs.Moments.{EachMoment};
ghost use Rattle.disk_model.specs.Changes.{Unchanged};
ghost use Rattle.disk_model.specs.DiskSeen.{EndsWith, bytes_in};
ghost use Rattle.gate_journal.specs.Gate.{field_of};
ghost use Rattle.gate_journal.specs.Answers.{StartAnswer};

use crate::faults::JournalFault;
use crate::gate::OPEN;
use disk_model::Disk;

/// The size of the record behind the gate at this place, or None at a closed gate.
pub fn record_size<D: Disk>(
    disk: &mut D,
    file: u8,
    gate: u64,
    limit: u64,
) -> Result<Option<u64>, JournalFault>
    requires file { file < 3 }
    requires inside { IsTrue D.tells → gate < length (bytes_in (D.seen disk.old) file) }
    ensures answer { IsTrue D.tells → StartAnswer (bytes_in (D.seen disk.old) file) gate limit result }
    ensures fits { IfOk result (λ found. IfSome found (λ size. (gate + 5 + size < limit) × (size < 2 ^ 32))) }
    ensures unchanged { IsTrue D.tells → EachMoment (Unchanged (D.seen disk.old).moments.now) (D.seen disk.old).moments (D.seen disk.new).moments }
    ensures ends { EndsWith JournalFault.DiskFault (D.seen disk.old) (D.seen disk.new) result }
    ensures reads { (D.seen disk.new).changes ≡ (D.seen disk.old).changes }
{
    let mut start = [0; 5];
    let count = disk.read(file, gate, &mut start)?;
    if start[0] != OPEN {
        return Ok(None);
    }
    let size = u64::from(size_field(&start));
    // The next gate lies inside the file and within the limit.
    let end = disk.len(file)?.min(limit);
    if count < 5 || end <= gate || end - gate <= 5 + size {
        return Err(JournalFault::Damaged { at: gate });
    }
    Ok(Some(size))
}

/// The length field behind a gate.
fn size_field(start: &[u8]) -> u32
    requires { length start.now ≡ 5 }
    ensures value { result ≡ from_le_bytes w32 (field_of start.now) }
    ensures bytes { to_le_bytes w32 result ≡ field_of start.now }
{
    u32::from_le_bytes([start[1], start[2], start[3], start[4]])
}
