//! Whether the files were made already.

ghost use Rattle.std.specs.Prelude.{◌↔◌, ◌≡◌, IsTrue, IfOk};
ghost use Rattle.disk_model.specs.Moments.{EachMoment};
ghost use Rattle.disk_model.specs.Changes.{Unchanged};
ghost use Rattle.disk_model.specs.DiskSeen.{Ends, bytes_in};
ghost use Rattle.name_store.specs.Header.{IsInitialised};

use crate::limits::{HEADER_FILE, OPEN, SHORTEST_HEADER};
use disk_model::{Disk, Failed};

/// Whether file 0 is initialised: it has 50 bytes or more, and its first byte is 1.
#[tactic(auto, using(gate_journal::proofs::ReadLemmas::unchanged_then))]
pub fn is_initialised<D: Disk>(disk: &mut D) -> Result<bool, Failed>
    ensures found { IsTrue D.tells → IfOk result (λ is. IsTrue is ↔ IsInitialised (bytes_in (D.seen disk.old) 0)) }
    ensures unchanged { IsTrue D.tells → EachMoment (Unchanged (D.seen disk.old).moments.now) (D.seen disk.old).moments (D.seen disk.new).moments }
    ensures reads { (D.seen disk.new).changes ≡ (D.seen disk.old).changes }
    ensures ends { Ends (D.seen disk.old) (D.seen disk.new) result }
{
    if disk.len(HEADER_FILE)? < SHORTEST_HEADER {
        return Ok(false);
    }
    let mut gate = [0; 1];
    disk.read(HEADER_FILE, 0, &mut gate)?;
    Ok(gate[0] == OPEN)
}
