//! What may run out while a message is answered.

ghost use Rattle.std.specs.Prelude.{◌≡◌};
ghost use Rattle.import_expand.specs.declared.exhausted.Exhausted.TheVariants.{Memory};

use nmc_base::NoMemory;
use std::alloc::{AllocError, AllocFailed};
use std::error::Error;
use std::fmt;

/// What ran out before an answer was found.
#[derive(Clone, Copy, PartialEq, Eq, Debug)]
pub enum Exhausted {
    /// Memory.
    Memory,
    /// The bytes that may be held for one message: of JSON, and one for each source that is asked for a label.
    Held,
}

impl fmt::Display for Exhausted {
    fn fmt<W: fmt::Write>(&self, f: &mut fmt::Formatter<W>) -> fmt::Result {
        match self {
            Exhausted::Memory => write!(f, "out of memory"),
            Exhausted::Held => write!(f, "too many bytes to hold"),
        }
    }
}

impl Error for Exhausted {}

impl From<NoMemory> for Exhausted {
    ghost from_gives = { λ _ e. e ≡ Memory };

    fn from(_error: NoMemory) -> Exhausted {
        Exhausted::Memory
    }
}

impl From<AllocError> for Exhausted {
    ghost from_gives = { λ _ e. e ≡ Memory };

    fn from(_error: AllocError) -> Exhausted {
        Exhausted::Memory
    }
}

impl<T: Drop> From<AllocFailed<T>> for Exhausted {
    ghost from_gives = { λ _ e. e ≡ Memory };

    fn from(_failed: AllocFailed<T>) -> Exhausted {
        Exhausted::Memory
    }
}
