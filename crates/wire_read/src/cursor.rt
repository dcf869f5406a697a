//! Reads fields one after the other.

ghost use Rattle.std.specs.Prelude.{◌≡◌, ℕ, ◌<◌, ◌≤◌, length, take, drop, slice_index, MatchResult};
ghost use Rattle.std.specs.Int.{w32, w64, from_le_bytes};
ghost use Rattle.wire_read.specs.Position.{left};
ghost use Rattle.wire_read.specs.Fields.{Passed, FellShort, GivesSize, GivesSizeExactly};

use crate::size::{compact_size, form_length};
use std::marker::Model;

/// Why a field isn't read. A place is the number of bytes before it, counted from the front of the input.
#[derive(Clone, Copy, PartialEq, Eq, Debug)]
pub enum WireFault {
    /// Fewer bytes are left than the field takes. The place is the input's length.
    Cut { at: usize },
    /// A longer form of a compact size holds a number that a shorter one holds. The place is the form's last byte.
    LongForm { at: usize },
}

/// Reads fields from bytes, one after the other, without a copy. After a fault it stands where it stood.
///
/// Contracts see the bytes, and how many of them were read.
#[derive(Drop)]
pub struct Cursor<'a> {
    bytes: &'a [u8],
    at: usize,
}

impl<'a> Model for Cursor<'a> {
    ghost use Rattle.std.specs.Prelude.{◌≤◌, length};
    ghost use Rattle.wire_read.specs.Position.{Position};

    ghost Value = { Position };

    ghost view = { λ c. record { bytes = c.bytes.now; at = c.at } };

    ghost invariant = { λ c. c.at ≤ length c.bytes.now };
}

/// The bytes behind a place.
fn rest_of(bytes: &[u8], at: usize) -> &[u8]
    requires { at ≤ length bytes.now }
    ensures value { result.now ≡ drop at bytes.now }
    ensures bytes { (i : ℕ) → slice_index result.now i < 256 }
{
    bytes.split_at(at).1
}

impl<'a> Cursor<'a> {
    /// Stands before the first byte.
    pub fn new(bytes: &'a [u8]) -> Cursor<'a>
        ensures { result ≡ record { bytes = bytes.now; at = 0 } }
    {
        Cursor { bytes, at: 0 }
    }

    /// How many bytes were read.
    pub fn at(&self) -> usize
        ensures value { result ≡ self.now.at }
        ensures within { result ≤ length self.now.bytes }
    {
        self.at
    }

    /// The bytes that are left.
    fn rest(&self) -> &'a [u8]
        ensures value { result.now ≡ left self.now }
        ensures bytes { (i : ℕ) → slice_index result.now i < 256 }
        ensures within { self.now.at ≤ length self.now.bytes }
    {
        rest_of(self.bytes, self.at)
    }

    fn cut(&self) -> WireFault
        ensures { result ≡ WireFault.Cut (length self.now.bytes) }
    {
        WireFault::Cut {
            at: self.bytes.len(),
        }
    }

    /// A byte.
    pub fn u8(&mut self) -> Result<u8, WireFault>
        ensures { MatchResult result
            (λ byte. Passed self.old self.new 1 × (byte ≡ slice_index (left self.old) 0))
            (λ fault. FellShort self.old self.new 1 fault) }
    {
        match self.rest().first() {
            Some(byte) => {
                self.at += 1;
                Ok(*byte)
            }
            None => Err(self.cut()),
        }
    }

    /// A number of 4 bytes, low byte first.
    pub fn u32(&mut self) -> Result<u32, WireFault>
        ensures { MatchResult result
            (λ number. Passed self.old self.new 4 × (number ≡ from_le_bytes w32 (take 4 (left self.old))))
            (λ fault. FellShort self.old self.new 4 fault) }
    {
        match self.rest().first_chunk() {
            Some(bytes) => {
                self.at += 4;
                Ok(u32::from_le_bytes(*bytes))
            }
            None => Err(self.cut()),
        }
    }

    /// A number of 8 bytes, low byte first.
    pub fn u64(&mut self) -> Result<u64, WireFault>
        ensures { MatchResult result
            (λ number. Passed self.old self.new 8 × (number ≡ from_le_bytes w64 (take 8 (left self.old))))
            (λ fault. FellShort self.old self.new 8 fault) }
    {
        match self.rest().first_chunk() {
            Some(bytes) => {
                self.at += 8;
                Ok(u64::from_le_bytes(*bytes))
            }
            None => Err(self.cut()),
        }
    }

    /// A compact size: a number below FD in one byte; else FD, FE or FF and the number in 2, 4 or 8 bytes, low byte
    /// first, in the shortest form that holds it (Bitcoin's "Variable length integer").
    pub fn size(&mut self) -> Result<u64, WireFault>
        ensures plain { GivesSize self.old self.new result }
        // The same, by the reader on lists.
        ensures exact { GivesSizeExactly self.old self.new result }
    {
        let rest = self.rest();
        let len = form_length(rest);
        if rest.len() < len {
            return Err(self.cut());
        }
        match compact_size(rest) {
            Some((number, _)) => {
                self.at += len;
                Ok(number)
            }
            None => Err(WireFault::LongForm {
                at: self.at + (len - 1),
            }),
        }
    }

    /// So many bytes, in place.
    pub fn take(&mut self, n: u64) -> Result<&'a [u8], WireFault>
        ensures { MatchResult result
            (λ piece. Passed self.old self.new n × (piece.now ≡ take n (left self.old)))
            (λ fault. FellShort self.old self.new n fault) }
    {
        match self.rest().split_at_checked(n as usize) {
            Some((piece, _)) => {
                self.at += n as usize;
                Ok(piece)
            }
            None => Err(self.cut()),
        }
    }
}
