//! Why slots aren't opened, and why an image isn't drafted or selected.

use disk_model::Failed;
use gate_journal::JournalFault;

/// Why slots were not opened.
#[derive(Clone, Copy, Debug, PartialEq, Eq)]
pub enum SlotFault {
    /// A call of the disk failed.
    DiskFault,

    /// The first gate does not lie inside the file, or behind the selections before this open gate does not stand the one of the
    /// next number.
    Damaged { at: u64 },

    /// There was no memory for a record.
    NoMemory,
}

/// Why an image was not drafted or selected.
#[derive(Clone, Copy, Debug, PartialEq, Eq)]
pub enum DraftFault {
    /// As many selections were made as may be. The disk was not asked.
    CheckpointLimit,

    /// The image is longer than one may be. The disk was not asked.
    ImageLimit,

    /// A call of the disk failed. Give up the slots and the draft, and open the files again.
    DiskFault,
}

impl From<JournalFault> for SlotFault {
    ghost use Rattle.std.specs.Prelude.{◌≡◌};
    ghost use Rattle.image_slots.specs.Faults.{of_journal};

    ghost from_gives = { λ fault e. e ≡ of_journal fault };

    fn from(fault: JournalFault) -> Self {
        match fault {
            JournalFault::DiskFault => SlotFault::DiskFault,
            JournalFault::Damaged { at } => SlotFault::Damaged { at },
            JournalFault::NoMemory => SlotFault::NoMemory,
        }
    }
}

impl From<Failed> for DraftFault {
    ghost use Rattle.std.specs.Prelude.{◌≡◌};
    ghost use Rattle.image_slots.specs.declared.faults.DraftFault.TheVariants.{DiskFault};

    ghost from_gives = { λ _ e. e ≡ DiskFault };

    fn from(_: Failed) -> Self {
        DraftFault::DiskFault
    }
}
