//! Why a journal isn't opened, read or appended to.

use disk_model::Failed;
use nmc_base::NoMemory as NoBytes;

/// Why a journal was not opened, or its next record not read.
#[derive(Clone, Copy, Debug, PartialEq, Eq)]
pub enum JournalFault {
    /// A call of the disk failed.
    DiskFault,

    /// The gate at this place does not lie inside the file, or the record behind it does not fit the file
    /// or the journal's limit.
    Damaged { at: u64 },

    /// There was no memory for the record.
    NoMemory,
}

/// Why a record was not appended.
#[derive(Clone, Copy, Debug, PartialEq, Eq)]
pub enum AppendFault {
    /// A call of the disk failed. The record may have been appended or not: give the journal up.
    DiskFault,

    /// The record would pass the journal's limit. The disk was not asked.
    Full,
}

impl From<Failed> for AppendFault {
    ghost use Rattle.std.specs.Prelude.{◌≡◌};
    ghost use Rattle.gate_journal.specs.declared.faults.AppendFault.TheVariants.{DiskFault};

    ghost from_gives = { λ _ e. e ≡ DiskFault };

    fn from(_: Failed) -> Self {
        AppendFault::DiskFault
    }
}

impl From<Failed> for JournalFault {
    ghost use Rattle.std.specs.Prelude.{◌≡◌};
    ghost use Rattle.gate_journal.specs.declared.faults.JournalFault.TheVariants.{DiskFault};

    ghost from_gives = { λ _ e. e ≡ DiskFault };

    fn from(_: Failed) -> Self {
        JournalFault::DiskFault
    }
}

impl From<NoBytes> for JournalFault {
    ghost use Rattle.std.specs.Prelude.{◌≡◌};
    ghost use Rattle.gate_journal.specs.declared.faults.JournalFault.TheVariants.{NoMemory};

    ghost from_gives = { λ _ e. e ≡ NoMemory };

    fn from(_: NoBytes) -> Self {
        JournalFault::NoMemory
    }
}
