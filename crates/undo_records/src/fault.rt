//! Why bytes don't begin with a record.

ghost use Rattle.std.specs.Prelude.{◌≡◌, []};

use nmc_base::NoMemory as NoBytes;
use thiserror::Error;

/// Why bytes don't begin with a record that undoes a block. A place is a number of bytes from the front.
#[derive(Clone, Copy, PartialEq, Eq, Debug, Error)]
pub enum UndoFault {
    /// The bytes end too early. The place is their number.
    #[error("the undo record is cut at byte {at}")]
    Cut { at: usize },
    /// A tag that isn't allowed there, or a value longer than 1023 bytes. The place is that of the tag, or of the
    /// first byte of the value's length.
    #[error("no such tag or length in an undo record at byte {at}")]
    BadTag { at: usize },
    /// The outpoint of an expired coin isn't greater than the one before. The place is that of its first byte.
    #[error("an expired coin out of order at byte {at}")]
    Unsorted { at: usize },
    /// Memory ran out.
    #[error("out of memory")]
    NoMemory,
}

/// What is wrong at a place.
#[derive(Clone, Copy)]
pub enum FaultKind {
    /// The bytes end too early.
    Cut,
    /// A tag that isn't allowed there, or a value longer than 1023 bytes.
    BadTag,
    /// An outpoint that isn't greater than the one before.
    Unsorted,
}

/// The first fault in bytes.
#[derive(Clone, Copy)]
pub struct Fault<'a> {
    pub kind: FaultKind,
    /// The bytes from the place of the fault on. There are none where the bytes end too early.
    pub rest: &'a [u8],
}

/// Why reading stopped.
#[derive(Clone, Copy)]
pub enum Stop<'a> {
    /// At the first fault.
    At(Fault<'a>),
    /// Memory ran out.
    NoMemory,
}

/// The bytes end too early.
pub fn cut<'a>() -> Fault<'a>
    ensures kind { result.kind ≡ FaultKind.Cut }
    ensures rest { result.rest.now ≡ [] }
{
    Fault {
        kind: FaultKind::Cut,
        rest: &[],
    }
}

impl<'a> From<Fault<'a>> for Stop<'a> {
    ghost use Rattle.std.specs.Prelude.{◌≡◌};
    ghost use Rattle.undo_records.specs.declared.fault.Stop.TheVariants.{At};

    ghost from_gives = { λ fault stop. stop ≡ At fault };

    fn from(fault: Fault<'a>) -> Self {
        Stop::At(fault)
    }
}

impl<'a> From<NoBytes> for Stop<'a> {
    ghost use Rattle.std.specs.Prelude.{◌≡◌};
    ghost use Rattle.undo_records.specs.declared.fault.Stop.TheVariants.{NoMemory};

    ghost from_gives = { λ _ stop. stop ≡ NoMemory };

    fn from(_: NoBytes) -> Self {
        Stop::NoMemory
    }
}
