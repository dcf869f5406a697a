//! Bytes that stay as they are, of which few take no memory of their own.

ghost use Rattle.std.specs.Prelude.{◌≡◌, ◌≤◌, [], length, IfOk, IsOk};

use crate::no_memory::NoMemory;
use std::alloc::Global;
use std::marker::Model;

/// So many bytes stand in place.
const PLACES: usize = 15;

#[derive(Drop)]
enum Held {
    Inside { length: u8, bytes: [u8; PLACES] },
    Apart(Box<Vec<u8>>),
}

/// A list of bytes that stays as it is. Up to 15 take no memory but its own 24 bytes, in which most names are. Contracts see the list.
#[derive(Drop)]
pub struct CompactBytes {
    held: Held,
}

impl Model for CompactBytes {
    ghost use Rattle.std.specs.Prelude.{List, ℕ};
    ghost use Rattle.nmc_base.specs.Compact.{bytes_held, IsHeld};

    ghost Value = { List ℕ };

    ghost view = { λ b. bytes_held b.held };

    ghost invariant = { λ b. IsHeld b.held };
}

impl CompactBytes {
    /// The empty list.
    pub fn empty() -> CompactBytes
        ensures { result ≡ [] }
    {
        CompactBytes::inside(&[])
    }

    /// A list of these bytes.
    pub fn copy_of(alloc: Global, bytes: &[u8]) -> Result<CompactBytes, NoMemory>
        ensures bytes { IfOk result (λ b. b ≡ bytes.now) }
        // So few take no memory.
        ensures few { length bytes.now ≤ 15 → IsOk result }
    {
        if bytes.len() <= PLACES {
            Ok(CompactBytes::inside(bytes))
        } else {
            CompactBytes::apart(alloc, bytes)
        }
    }

    /// The bytes of the list.
    pub fn as_slice(&self) -> &[u8]
        ensures { result.now ≡ self.now }
    {
        match &self.held {
            Held::Inside { length, bytes } => &bytes[..*length as usize],
            Held::Apart(list) => list.as_slice(),
        }
    }

    fn inside(bytes: &[u8]) -> CompactBytes
        requires { length bytes.now ≤ 15 }
        ensures { result ≡ bytes.now }
    {
        let mut places = [0; PLACES];
        places[..bytes.len()].copy_from_slice(bytes);
        CompactBytes {
            held: Held::Inside {
                length: bytes.len() as u8,
                bytes: places,
            },
        }
    }

    fn apart(alloc: Global, bytes: &[u8]) -> Result<CompactBytes, NoMemory>
        ensures { IfOk result (λ b. b ≡ bytes.now) }
    {
        let list = Vec::from_slice(alloc, bytes)?;
        let list = Box::new(alloc, list)?;
        Ok(CompactBytes {
            held: Held::Apart(list),
        })
    }
}
