//! Why no index is read from an area.

ghost use Rattle.std.specs.Prelude.{◌≡◌};
ghost use Rattle.image_files.specs.Faults as faults;
ghost use Rattle.image_files.specs.Faults.{HasPlace};

use disk_model::Failed;
use nmc_base::NoMemory as NoRoom;
use state_image::ImageFault;

/// Why no index was read from an area.
#[derive(Clone, Copy, Debug, PartialEq, Eq)]
pub enum ReadFault {
    /// The area begins with no index of the base: the place of its first damage. It is 0 where an image and a gate behind it don't
    /// lie inside the file, 8 where the image is one of another base or of no sound state, and else that of the image's first fault
    /// of form.
    Damaged { at: u64 },

    /// A call of the disk failed.
    DiskFault,

    /// There was no memory for the index.
    NoMemory,
}

/// So many bytes of an area stand before its image: those of the image's length.
pub(crate) const LENGTH_SIZE: u64 = 8;

impl From<Failed> for ReadFault {
    ghost use Rattle.std.specs.Prelude.{◌≡◌};
    ghost use Rattle.image_files.specs.declared.fault.ReadFault.TheVariants.{DiskFault};

    ghost from_gives = { λ _ e. e ≡ DiskFault };

    fn from(_: Failed) -> Self {
        ReadFault::DiskFault
    }
}

impl From<NoRoom> for ReadFault {
    ghost use Rattle.std.specs.Prelude.{◌≡◌};
    ghost use Rattle.image_files.specs.declared.fault.ReadFault.TheVariants.{NoMemory};

    ghost from_gives = { λ _ e. e ≡ NoMemory };

    fn from(_: NoRoom) -> Self {
        ReadFault::NoMemory
    }
}

impl ReadFault {
    /// The fault of an image, which stands behind its length.
    pub(crate) fn of_image(fault: ImageFault) -> ReadFault
        requires { HasPlace fault }
        ensures { result ≡ faults.of_image fault }
    {
        match fault {
            ImageFault::Damaged { at } => ReadFault::Damaged {
                at: LENGTH_SIZE + at,
            },
            ImageFault::NoMemory => ReadFault::NoMemory,
        }
    }
}
