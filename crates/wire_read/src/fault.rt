//! The first fault in bytes, and its place.

ghost use Rattle.std.specs.Prelude.{◌≡◌, []};

use block_grammar::TxKind;

/// Why no transaction, or no header with its merge-mining part, stands at the front of bytes.
#[derive(Clone, Copy, PartialEq, Eq, Debug)]
pub struct TxFault {
    pub kind: TxKind,
    /// The number of bytes before the first one that no such text can have there, or the input's length.
    pub at: usize,
}

/// The first fault in bytes.
#[derive(Clone, Copy, Debug)]
pub struct Fault<'a> {
    pub kind: TxKind,
    /// The bytes from the first one on that can't stand there. There are none where the bytes end too early.
    pub rest: &'a [u8],
}

/// The bytes end too early.
pub fn cut<'a>() -> Fault<'a>
    ensures kind { result.kind ≡ TxKind.Cut }
    ensures rest { result.rest.now ≡ [] }
{
    Fault {
        kind: TxKind::Cut,
        rest: &[],
    }
}
