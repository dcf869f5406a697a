//! A list of bytes that grows.

ghost use Rattle.std.specs.Borrow.{Array, Lends, sem, u8 as byte};
ghost use Rattle.std.specs.Prelude.{◌≡◌, ◌++◌, [], drop, length, replicate, take, IfOk, OnOk, OnErr};
ghost use Rattle.nmc_base.specs.contracts.byte_list.Bytes.{the_row};

use crate::no_memory::NoMemory;
use std::alloc::Global;
use std::marker::Model;

/// A list of bytes that grows at its end. Contracts see the list.
#[derive(Drop)]
pub struct Bytes {
    held: Vec<u8>,
}

impl Model for Bytes {
    ghost use Rattle.std.specs.Prelude.{List, ℕ};

    ghost Value = { List ℕ };

    ghost view = { λ b. b.held.items };
}

impl Bytes {
    /// The empty list. It takes no memory.
    pub fn new(alloc: Global) -> Bytes
        ensures { result ≡ [] }
    {
        Bytes {
            held: Vec::new(alloc),
        }
    }

    /// The empty list, which takes its memory where this one does. It takes none yet.
    pub fn empty_alike(&self) -> Bytes
        ensures { result ≡ [] }
    {
        Bytes::new(*self.held.allocator())
    }

    /// A list of the same bytes.
    pub fn copy_of(alloc: Global, bytes: &[u8]) -> Result<Bytes, NoMemory>
        ensures { IfOk result (λ b. b ≡ bytes.now) }
    {
        let mut copy = Bytes::new(alloc);
        copy.extend(bytes)?;
        Ok(copy)
    }

    /// Appends the piece. Where memory runs out, the list stays as it was.
    pub fn extend(&mut self, piece: &[u8]) -> Result<(), NoMemory>
        ensures ok { OnOk result (self.new ≡ self.old ++ piece.now) }
        ensures err { OnErr result (self.new ≡ self.old) }
    {
        self.held.extend_from_slice(piece)?;
        Ok(())
    }

    /// Empties the list. It keeps its memory.
    pub fn clear(&mut self)
        ensures { self.new ≡ [] }
    {
        self.held.clear();
    }

    /// Makes it a list of so many zero bytes. Where memory runs out, the list is empty.
    pub fn zeros(&mut self, count: usize) -> Result<(), NoMemory>
        ensures ok { OnOk result (self.new ≡ replicate count 0) }
        ensures err { OnErr result (self.new ≡ []) }
    {
        self.held.truncate(0);
        self.held.resize(count, 0)?;
        Ok(())
    }

    /// The bytes of the list, to be written over.
    pub fn as_mut_slice(&mut self) -> &mut [u8]
        ensures* lends { sem 𝓛 (Lends the_row (Array byte 0) self.entry result (λ w. take (length self.entry.now) (w ++ drop (length w) self.entry.now))) }
        ensures value { result.now ≡ self.old }
    {
        self.held.as_mut_slice()
    }

    /// The bytes of the list.
    pub fn as_slice(&self) -> &[u8]
        ensures { result.now ≡ self.now }
    {
        self.held.as_slice()
    }
}
