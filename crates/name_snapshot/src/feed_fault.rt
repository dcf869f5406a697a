//! Why no snapshot was read from a source.

use crate::fault::SnapshotFault;
use byte_io::Failed;
use nmc_base::NoMemory as NoRoom;
use thiserror::Error;

/// Why no snapshot was read from a source.
#[derive(Clone, Copy, PartialEq, Eq, Debug, Error)]
pub enum FeedFault {
    /// The bytes are no snapshot on the base: the place of their first fault, as a number of bytes from the front.
    #[error("bad snapshot at {at}")]
    Bad { at: u64 },
    /// The last read failed.
    #[error("the source failed")]
    SourceFault,
    /// As many bytes as the limit were read.
    #[error("as many bytes as the limit")]
    InputLimit,
    /// Memory ran out.
    #[error("out of memory")]
    NoMemory,
}

impl From<Failed> for FeedFault {
    ghost use Rattle.std.specs.Prelude.{◌≡◌};
    ghost use Rattle.name_snapshot.specs.declared.feed_fault.FeedFault.TheVariants.{SourceFault};

    ghost from_gives = { λ _ fault. fault ≡ SourceFault };

    fn from(_: Failed) -> Self {
        FeedFault::SourceFault
    }
}

impl From<NoRoom> for FeedFault {
    ghost use Rattle.std.specs.Prelude.{◌≡◌};
    ghost use Rattle.name_snapshot.specs.declared.feed_fault.FeedFault.TheVariants.{NoMemory};

    ghost from_gives = { λ _ fault. fault ≡ NoMemory };

    fn from(_: NoRoom) -> Self {
        FeedFault::NoMemory
    }
}

impl From<SnapshotFault> for FeedFault {
    ghost use Rattle.std.specs.Prelude.{◌≡◌};
    ghost use Rattle.name_snapshot.specs.FeedFaults.{of_snapshot};

    ghost from_gives = { λ bad fault. fault ≡ of_snapshot bad };

    fn from(fault: SnapshotFault) -> Self {
        match fault {
            SnapshotFault::Bad { at } => FeedFault::Bad { at },
            SnapshotFault::NoMemory => FeedFault::NoMemory,
        }
    }
}
