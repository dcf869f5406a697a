//! Bytes of a name that is being written.

ghost use Rattle.std.specs.Prelude.{◌≡◌, ◌≤◌, ◌++◌, ◌∷◌, [], length};
ghost use Rattle.domain_text.specs.Names.{lower as lower_of, if_fits};
ghost use Rattle.domain_text.specs.declared.limits.TheConstants.{LONGEST_WIRE};

use crate::limits::LONGEST_WIRE;
use std::marker::Model;

/// At most as many bytes as a name may have, in a fixed array. Contracts see these bytes.
#[derive(Drop)]
pub(crate) struct Front {
    bytes: [u8; LONGEST_WIRE],
    len: usize,
}

impl Model for Front {
    ghost use Rattle.std.specs.Prelude.{List, ℕ, take, ◌≤◌};
    ghost use Rattle.domain_text.specs.declared.limits.TheConstants.{LONGEST_WIRE};

    ghost Value = { List ℕ };

    ghost view = { λ f. take f.len f.bytes };

    ghost invariant = { λ f. f.len ≤ LONGEST_WIRE };
}

impl Front {
    /// No bytes yet.
    pub(crate) fn empty() -> Front
        ensures { result ≡ [] }
    {
        Front {
            bytes: [0; LONGEST_WIRE],
            len: 0,
        }
    }

    /// One byte.
    pub(crate) fn of_byte(byte: u8) -> Front
        ensures { result ≡ byte ∷ [] }
    {
        Front {
            bytes: [byte; LONGEST_WIRE],
            len: 1,
        }
    }

    /// The bytes.
    pub(crate) fn as_slice(&self) -> &[u8]
        ensures value { result.now ≡ self.now }
        ensures fits { length result.now ≤ LONGEST_WIRE }
    {
        &self.bytes[..self.len]
    }

    /// The same bytes again.
    pub(crate) fn copy(&self) -> Front
        ensures { result ≡ self.now }
    {
        Front {
            bytes: self.bytes,
            len: self.len,
        }
    }

    /// The bytes, with ASCII letters in lower case.
    pub(crate) fn lower(&self) -> Front
        ensures { result ≡ lower_of self.now }
    {
        let mut bytes = self.bytes;
        bytes.make_ascii_lowercase();
        Front {
            bytes,
            len: self.len,
        }
    }

    /// The piece behind the bytes, where a name may have so many.
    pub(crate) fn append(self, piece: &[u8]) -> Option<Front>
        ensures { result ≡ if_fits (self ++ piece.now) }
    {
        let Front { bytes, len } = self;
        if piece.len() > LONGEST_WIRE - len {
            return None;
        }
        let mut bytes = bytes;
        bytes[len..len + piece.len()].copy_from_slice(piece);
        Some(Front {
            bytes,
            len: len + piece.len(),
        })
    }
}
