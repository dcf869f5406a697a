//! How a save of an index ends.
ghost use Rattle.std.specs.Prelude.{◌≡◌};

use nmc_base::NoMemory as NoRoom;

/// An index was saved.
#[derive(Clone, Copy, Debug, PartialEq, Eq)]
pub struct Saved {
    /// How many selections there are now.
    pub number: u32,

    /// The length of its image, in bytes.
    pub image: u64,
}

/// Why an index was not saved.
#[derive(Clone, Copy, Debug, PartialEq, Eq)]
pub enum SaveFault {
    /// As many selections were made as may be. Neither memory nor the disk was asked.
    CheckpointLimit,

    /// The image is longer than one may be. The disk was not asked.
    ImageLimit,

    /// A call of the disk failed. Give up the slots, and open the files again.
    DiskFault,

    /// There was no memory for the order of coins and names. The disk was not asked.
    NoMemory,
}

impl From<NoRoom> for SaveFault {
    ghost use Rattle.std.specs.Prelude.{◌≡◌};
    ghost use Rattle.image_files.specs.declared.saved.SaveFault.TheVariants.{NoMemory};

    ghost from_gives = { λ _ e. e ≡ NoMemory };

    fn from(_: NoRoom) -> Self {
        SaveFault::NoMemory
    }
}
