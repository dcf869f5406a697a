//! Bytes that stay as they are, of which few take no memory of their own.

ghost use Rattle.std.specs.Prelude.{◌≡◌, ◌≤◌, length, take, IfOk};
ghost use Rattle.domain_text.specs.Names.{lower as lower_of};

use nmc_base::{Bytes, NoMemory};
use std::alloc::Global;
use std::marker::Model;

/// So many bytes stand in place.
const PLACES: usize = 38;

#[derive(Drop)]
enum Held {
    Inside { length: u8, bytes: [u8; PLACES] },
    Apart(Bytes),
}

/// A label, a name or RDATA. Up to 38 bytes take no memory but its own 40, in which most are. Contracts see the bytes.
#[derive(Drop)]
pub struct ShortBytes {
    held: Held,
}

impl Model for ShortBytes {
    ghost use Rattle.std.specs.Prelude.{List, ℕ};
    ghost use Rattle.bit_resolver.specs.ShortBytes.{bytes_held, IsHeld};

    ghost Value = { List ℕ };

    ghost view = { λ b. bytes_held b.held };

    ghost invariant = { λ b. IsHeld b.held };
}

/// Few bytes, and more behind them.
fn places_of(bytes: &[u8]) -> [u8; PLACES]
    requires { length bytes.now ≤ 38 }
    ensures { take (length bytes.now) result ≡ bytes.now }
{
    let mut places = [0; PLACES];
    places[..bytes.len()].copy_from_slice(bytes);
    places
}

impl ShortBytes {
    /// These bytes, which are few.
    pub(crate) fn few(bytes: &[u8]) -> ShortBytes
        requires { length bytes.now ≤ 38 }
        ensures { result ≡ bytes.now }
    {
        ShortBytes {
            held: Held::Inside {
                length: bytes.len() as u8,
                bytes: places_of(bytes),
            },
        }
    }

    /// Few bytes, their ASCII letters in lower case.
    fn few_lower(bytes: &[u8]) -> ShortBytes
        requires { length bytes.now ≤ 38 }
        ensures { result ≡ lower_of bytes.now }
    {
        let mut places = places_of(bytes);
        places.make_ascii_lowercase();
        ShortBytes {
            held: Held::Inside {
                length: bytes.len() as u8,
                bytes: places,
            },
        }
    }

    /// The bytes of a list.
    pub(crate) fn of(list: Bytes) -> ShortBytes
        ensures { result ≡ list }
    {
        ShortBytes {
            held: Held::Apart(list),
        }
    }

    /// The same bytes.
    pub(crate) fn copy_of(alloc: Global, bytes: &[u8]) -> Result<ShortBytes, NoMemory>
        ensures { IfOk result (λ b. b ≡ bytes.now) }
    {
        if bytes.len() <= PLACES {
            Ok(ShortBytes::few(bytes))
        } else {
            Ok(ShortBytes::of(Bytes::copy_of(alloc, bytes)?))
        }
    }

    /// These bytes, their ASCII letters in lower case.
    pub(crate) fn lower(alloc: Global, bytes: &[u8]) -> Result<ShortBytes, NoMemory>
        ensures { IfOk result (λ b. b ≡ lower_of bytes.now) }
    {
        if bytes.len() <= PLACES {
            return Ok(ShortBytes::few_lower(bytes));
        }
        let mut found = Bytes::copy_of(alloc, bytes)?;
        found.as_mut_slice().make_ascii_lowercase();
        Ok(ShortBytes::of(found))
    }

    /// The bytes.
    pub fn as_slice(&self) -> &[u8]
        ensures { result.now ≡ self.now }
    {
        match &self.held {
            Held::Inside { length, bytes } => &bytes[..*length as usize],
            Held::Apart(list) => list.as_slice(),
        }
    }
}
