//! The bytes that a poll brings.

ghost use Rattle.std.specs.Prelude.{◌≡◌, ◌≤◌, length, take, IfOk};
ghost use Rattle.byte_io.specs.declared.port.TheConstants.{POLL_ROOM};

use byte_io::POLL_ROOM;
use nmc_base::NoMemory;
use std::alloc::Global;
use std::marker::Model;

/// What one poll puts into the buffer that it is lent: no more than the buffer holds.
#[derive(Drop)]
pub(crate) struct PollBytes {
    bytes: Vec<u8>,
}

impl Model for PollBytes {
    ghost use Rattle.std.specs.Prelude.{◌≤◌, List, ℕ, length};
    ghost use Rattle.byte_io.specs.declared.port.TheConstants.{POLL_ROOM};

    ghost Value = { List ℕ };

    ghost view = { λ b. b.bytes.items };

    ghost invariant = { λ b. length b.bytes.items ≤ POLL_ROOM };
}

impl PollBytes {
    pub(crate) fn copy_of(alloc: Global, bytes: &[u8]) -> Result<PollBytes, NoMemory>
        requires { length bytes.now ≤ POLL_ROOM }
        ensures { IfOk result (λ copy. copy ≡ bytes.now) }
    {
        Ok(PollBytes {
            bytes: Vec::from_slice(alloc, bytes)?,
        })
    }

    /// Puts the bytes at the front of the buffer, and says how many there are.
    pub(crate) fn put(&self, buffer: &mut [u8]) -> usize
        requires { length buffer.old ≡ POLL_ROOM }
        ensures count { result ≤ POLL_ROOM }
        ensures bytes { take result buffer.new ≡ self.now }
        ensures room { length buffer.new ≡ POLL_ROOM }
    {
        buffer[..self.bytes.len()].copy_from_slice(&self.bytes);
        self.bytes.len()
    }

    pub(crate) fn as_slice(&self) -> &[u8]
        ensures { result.now ≡ self.now }
    {
        self.bytes.as_slice()
    }
}
