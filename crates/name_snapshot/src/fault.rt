//! Why bytes are no snapshot.

use nmc_base::NoMemory as NoBytes;
use thiserror::Error;

/// Why bytes are no snapshot on a base.
#[derive(Clone, Copy, PartialEq, Eq, Debug, Error)]
pub enum SnapshotFault {
    /// The place of the first fault, as a number of bytes from the front: the text's length, where it ends too early.
    #[error("bad snapshot at {at}")]
    Bad { at: u64 },
    /// Memory ran out.
    #[error("out of memory")]
    NoMemory,
}

impl From<NoBytes> for SnapshotFault {
    ghost use Rattle.std.specs.Prelude.{◌≡◌};
    ghost use Rattle.name_snapshot.specs.declared.fault.SnapshotFault.TheVariants.{NoMemory};

    ghost from_gives = { λ _ fault. fault ≡ NoMemory };

    fn from(_: NoBytes) -> Self {
        SnapshotFault::NoMemory
    }
}
