//! Why bytes aren't the text of a sound state.

use nmc_base::NoMemory as NoBytes;
use thiserror::Error;

/// Why bytes aren't the text of a sound state.
#[derive(Clone, Copy, PartialEq, Eq, Debug, Error)]
pub enum ImageFault {
    /// The place of the first fault of form, as a number of bytes from the front: the text's length, where it ends too early.
    /// Where the form is right and the state isn't sound, the place is 0.
    #[error("the image is damaged at byte {at}")]
    Damaged { at: u64 },
    /// Memory ran out.
    #[error("out of memory")]
    NoMemory,
}

impl From<NoBytes> for ImageFault {
    ghost use Rattle.std.specs.Prelude.{◌≡◌};
    ghost use Rattle.state_image.specs.declared.fault.ImageFault.TheVariants.{NoMemory};

    ghost from_gives = { λ _ fault. fault ≡ NoMemory };

    fn from(_: NoBytes) -> Self {
        ImageFault::NoMemory
    }
}
