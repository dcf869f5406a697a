//! The bytes of one client that are no whole message yet.

ghost use Rattle.std.specs.Prelude.{◌≡◌, ◌≤◌, ◌+◌, ◌-◌, ◌++◌, [], length, drop, vec_capacity, IfOk};
ghost use Rattle.dns_tcp.specs.Buffer.{Steps};
ghost use Rattle.dns_tcp.specs.declared.buffer.TheConstants.{CAPACITY};

use crate::message::message_length;
use nmc_base::NoMemory;
use std::alloc::Global;
use std::marker::Model;

/// Room for a part of the longest message, and one more piece.
pub(crate) const CAPACITY: usize = 131_072;

/// The bytes of one client. Contracts see those that were given as messages since the last piece, and those that
/// are left.
#[derive(Drop)]
pub(crate) struct Buffer {
    bytes: Vec<u8>,
    start: usize,
}

impl Model for Buffer {
    ghost use Rattle.std.specs.Prelude.{◌≤◌, length, take, drop, vec_capacity};
    ghost use Rattle.dns_tcp.specs.Buffer.{Bytes};
    ghost use Rattle.dns_tcp.specs.declared.buffer.TheConstants.{CAPACITY};

    ghost Value = { Bytes };

    ghost view = { λ b. record { given = take b.start b.bytes.items; left = drop b.start b.bytes.items } };

    ghost invariant = { λ b. (b.start ≤ length b.bytes.items) × (CAPACITY ≤ vec_capacity b.bytes) };
}

impl Buffer {
    pub(crate) fn new(alloc: Global) -> Result<Buffer, NoMemory>
        ensures { IfOk result (λ buffer. buffer ≡ record { given = []; left = [] }) }
    {
        Ok(Buffer {
            bytes: Vec::with_capacity(alloc, CAPACITY)?,
            start: 0,
        })
    }

    /// Forgets all bytes.
    pub(crate) fn clear(&mut self)
        ensures { self.new ≡ record { given = []; left = [] } }
    {
        self.bytes.clear();
        self.start = 0;
    }

    /// Takes the piece behind the bytes that are left, and forgets those that were given.
    pub(crate) fn append(&mut self, piece: &[u8])
        requires { length self.old.left + length piece.now ≤ CAPACITY }
        ensures { self.new ≡ record { given = []; left = self.old.left ++ piece.now } }
    {
        keep_from(&mut self.bytes, self.start);
        self.start = 0;
        match self.bytes.extend_from_slice(piece) {
            Ok(()) => {}
            Err(_) => unreachable!(),
        }
    }

    /// Gives the next whole message, and answers its length. `None` says that there is none.
    pub(crate) fn next(&mut self) -> Option<usize>
        ensures { Steps self.old self.new result }
    {
        let length = message_length(&self.bytes[self.start..])?;
        self.start += 2 + length;
        Some(length)
    }

    /// The last bytes that were given, so many.
    pub(crate) fn last(&self, count: usize) -> &[u8]
        requires { count ≤ length self.now.given }
        ensures { result.now ≡ drop (length self.now.given - count) self.now.given }
    {
        &self.bytes[self.start - count..self.start]
    }
}

/// Moves the bytes from this place on to the front, and forgets those before it.
fn keep_from(bytes: &mut Vec<u8>, start: usize)
    requires { start ≤ length bytes.old.items }
    ensures items { bytes.new.items ≡ drop start bytes.old.items }
    ensures capacity { vec_capacity bytes.new ≡ vec_capacity bytes.old }
{
    if start == 0 {
        return;
    }
    let left = bytes.len() - start;
    bytes.copy_within(start.., 0);
    bytes.truncate(left);
}
