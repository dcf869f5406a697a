//! Why no files were made of a snapshot.

ghost use Rattle.std.specs.Prelude.{◌≡◌};
ghost use Rattle.bridge_commands.specs.Starting.{fault_of_feed, fault_of_making};

use disk_model::Failed;
use name_snapshot::FeedFault;
use name_store::CreateFromFault;

/// Why no files were made of a snapshot.
#[derive(Clone, Copy, Debug, PartialEq, Eq)]
pub enum StartFault {
    /// File 0 has 50 bytes or more, and its first byte is 1: the files were made before, and are as they were. The source wasn't read.
    Initialised,

    /// The first fault of the snapshot stands at this place of the source.
    Bad { at: u64 },

    /// As many bytes as the limit were read, without a fault among them.
    InputLimit,

    /// The last read of the source failed.
    SourceFault,

    /// A call of the disk failed.
    DiskFault,

    /// There was no memory for the index, or for the order of its coins and names. The disk was not written.
    NoMemory,
}

impl From<Failed> for StartFault {
    ghost use Rattle.std.specs.Prelude.{◌≡◌};
    ghost use Rattle.bridge_commands.specs.declared.start_fault.StartFault.TheVariants.{DiskFault};

    ghost from_gives = { λ _ e. e ≡ DiskFault };

    fn from(_: Failed) -> Self {
        StartFault::DiskFault
    }
}

impl StartFault {
    /// The fault of a source that gave no snapshot.
    pub(crate) fn of_feed(fault: FeedFault) -> StartFault
        ensures { result ≡ fault_of_feed fault }
    {
        match fault {
            FeedFault::Bad { at } => StartFault::Bad { at },
            FeedFault::SourceFault => StartFault::SourceFault,
            FeedFault::InputLimit => StartFault::InputLimit,
            FeedFault::NoMemory => StartFault::NoMemory,
        }
    }

    /// The fault of files that were not made.
    pub(crate) fn of_making(fault: CreateFromFault) -> StartFault
        ensures { result ≡ fault_of_making fault }
    {
        match fault {
            CreateFromFault::Initialised => StartFault::Initialised,
            CreateFromFault::DiskFault => StartFault::DiskFault,
            CreateFromFault::NoMemory => StartFault::NoMemory,
        }
    }
}
