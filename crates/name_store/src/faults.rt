//! Why files were not opened, and why none were made.

ghost use Rattle.std.specs.Prelude.{◌≡◌};
ghost use Rattle.name_store.specs.Faults.{of_journal, of_slots, of_image};

use crate::limits::HEADER_FILE;
use disk_model::Failed;
use gate_journal::JournalFault;
use image_files::ReadFault;
use image_slots::SlotFault;
use nmc_base::NoMemory as NoRoom;

/// Why a store was not opened.
#[derive(Clone, Copy, Debug, PartialEq, Eq)]
pub enum OpenFault {
    /// File 0 has fewer than 50 bytes, or its first byte isn't 1: the files were not made, or not to their end.
    Uninitialised,

    /// The first damage: the number of the file, and the place in it of the field, the selection, the image's fault or the record.
    Damaged { file: u8, at: u64 },

    /// A call of the disk failed.
    DiskFault,

    /// There was no memory for the index, or for a record.
    NoMemory,
}

/// Why the files were not made.
#[derive(Clone, Copy, Debug, PartialEq, Eq)]
pub enum CreateFault {
    /// File 0 has 50 bytes or more, and its first byte is 1. The files are as they were.
    Initialised,

    /// A call of the disk failed.
    DiskFault,
}

/// Why the files were not made from a start list.
#[derive(Clone, Copy, Debug, PartialEq, Eq)]
pub enum CreateFromFault {
    /// File 0 has 50 bytes or more, and its first byte is 1. The files are as they were.
    Initialised,

    /// A call of the disk failed.
    DiskFault,

    /// There was no memory for the order of coins and names. The files are as they were.
    NoMemory,
}

impl From<Failed> for CreateFault {
    ghost use Rattle.std.specs.Prelude.{◌≡◌};
    ghost use Rattle.name_store.specs.declared.faults.CreateFault.TheVariants.{DiskFault};

    ghost from_gives = { λ _ e. e ≡ DiskFault };

    fn from(_: Failed) -> Self {
        CreateFault::DiskFault
    }
}

impl From<Failed> for CreateFromFault {
    ghost use Rattle.std.specs.Prelude.{◌≡◌};
    ghost use Rattle.name_store.specs.declared.faults.CreateFromFault.TheVariants.{DiskFault};

    ghost from_gives = { λ _ e. e ≡ DiskFault };

    fn from(_: Failed) -> Self {
        CreateFromFault::DiskFault
    }
}

impl From<NoRoom> for CreateFromFault {
    ghost use Rattle.std.specs.Prelude.{◌≡◌};
    ghost use Rattle.name_store.specs.declared.faults.CreateFromFault.TheVariants.{NoMemory};

    ghost from_gives = { λ _ e. e ≡ NoMemory };

    fn from(_: NoRoom) -> Self {
        CreateFromFault::NoMemory
    }
}

impl From<Failed> for OpenFault {
    ghost use Rattle.std.specs.Prelude.{◌≡◌};
    ghost use Rattle.name_store.specs.declared.faults.OpenFault.TheVariants.{DiskFault};

    ghost from_gives = { λ _ e. e ≡ DiskFault };

    fn from(_: Failed) -> Self {
        OpenFault::DiskFault
    }
}

impl From<NoRoom> for OpenFault {
    ghost use Rattle.std.specs.Prelude.{◌≡◌};
    ghost use Rattle.name_store.specs.declared.faults.OpenFault.TheVariants.{NoMemory};

    ghost from_gives = { λ _ e. e ≡ NoMemory };

    fn from(_: NoRoom) -> Self {
        OpenFault::NoMemory
    }
}

impl OpenFault {
    /// The fault of the commands in this file.
    pub(crate) fn of_journal(file: u8, fault: JournalFault) -> OpenFault
        ensures { result ≡ of_journal file fault }
    {
        match fault {
            JournalFault::DiskFault => OpenFault::DiskFault,
            JournalFault::Damaged { at } => OpenFault::Damaged { file, at },
            JournalFault::NoMemory => OpenFault::NoMemory,
        }
    }
    /// The fault of the selections.
    pub(crate) fn of_slots(fault: SlotFault) -> OpenFault
        ensures { result ≡ of_slots fault }
    {
        match fault {
            SlotFault::DiskFault => OpenFault::DiskFault,
            SlotFault::Damaged { at } => OpenFault::Damaged {
                file: HEADER_FILE,
                at,
            },
            SlotFault::NoMemory => OpenFault::NoMemory,
        }
    }

    /// The fault of the image in this file.
    pub(crate) fn of_image(file: u8, fault: ReadFault) -> OpenFault
        ensures { result ≡ of_image file fault }
    {
        match fault {
            ReadFault::DiskFault => OpenFault::DiskFault,
            ReadFault::Damaged { at } => OpenFault::Damaged { file, at },
            ReadFault::NoMemory => OpenFault::NoMemory,
        }
    }
}
