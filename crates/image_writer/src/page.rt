//! Room for the bytes of one value of an image.

ghost use Rattle.std.specs.Prelude.{◌≡◌, ◌+◌, ◌++◌, ◌≤◌, [], length};
ghost use Rattle.image_writer.specs.declared.page.TheConstants.{PAGE};

use std::marker::Model;

/// No value of an image is longer: an update has 1,660 bytes at most, with the coin of a name, a name and the item before.
pub const PAGE: usize = 2048;

/// The bytes of one value. Contracts see them.
#[derive(Drop)]
pub struct Page {
    bytes: [u8; PAGE],
    len: usize,
}

impl Model for Page {
    ghost use Rattle.std.specs.Prelude.{List, ℕ, ◌≤◌, take};
    ghost use Rattle.image_writer.specs.declared.page.TheConstants.{PAGE};

    ghost Value = { List ℕ };

    ghost view = { λ p. take p.len p.bytes };

    ghost invariant = { λ p. p.len ≤ PAGE };
}

impl Page {
    /// No bytes.
    pub fn new() -> Page
        ensures { result ≡ [] }
    {
        Page {
            bytes: [0; PAGE],
            len: 0,
        }
    }

    /// Takes all bytes away.
    pub fn clear(&mut self)
        ensures { self.new ≡ [] }
    {
        self.len = 0;
    }

    /// Puts a piece behind the bytes.
    pub fn put(&mut self, piece: &[u8])
        requires { length self.old + length piece.now ≤ PAGE }
        ensures { self.new ≡ self.old ++ piece.now }
    {
        let end = self.len + piece.len();
        self.bytes[self.len..end].copy_from_slice(piece);
        self.len = end;
    }

    /// The bytes.
    pub fn as_slice(&self) -> &[u8]
        ensures { result.now ≡ self.now }
    {
        &self.bytes[..self.len]
    }
}
