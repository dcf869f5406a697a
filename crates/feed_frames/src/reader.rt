//! A reader of frames that is fed in any pieces.

ghost use Rattle.std.specs.Prelude.{◌≡◌, ◌<◌, ◌≤◌, ◌+◌, ◌-◌, ◌^◌, [], length, take, drop, Some, None, IfOk, IfSome};
ghost use Rattle.std.specs.Borrow.{sem};
ghost use Rattle.feed_frames.specs.Frames.{IsPartialFrame};
ghost use Rattle.feed_frames.specs.Feed.{fresh_feed, after_piece};
ghost use Rattle.feed_frames.specs.Places.{between};
ghost use Rattle.feed_frames.specs.Lend.{ends_as};
ghost use Rattle.feed_frames.specs.declared.reader.TheConstants.{PIECE, CAPACITY};

use crate::frame::Frame;
use crate::front::{Front, front_of};
use crate::kinds::LONGEST_PAYLOAD;
use nmc_base::NoMemory;
use std::alloc::Global;
use std::marker::Model;

/// Where a part of a frame is held, so many bytes at least may be fed behind it.
pub const PIECE: usize = 65_536;

/// All the memory of a reader: the longest frame and one more piece.
const CAPACITY: usize = 5 + LONGEST_PAYLOAD + PIECE;

/// What stands at this offset, counted from the first byte fed, begins no frame.
#[derive(Clone, Copy, PartialEq, Eq, Debug)]
pub struct BadFrame {
    pub offset: u64,
}

/// A reader of frames that is fed in any pieces. Contracts see the bytes that were fed and not given as frames,
/// and how many were fed before them.
///
/// All its memory is taken at once, 8,454,149 bytes. A frame lies in it in one piece, and is given without a copy.
#[derive(Drop)]
pub struct Frames {
    kinds: u8,
    bytes: Vec<u8>,
    start: usize,
    end: usize,
    offset: u64,
}

impl Model for Frames {
    ghost use Rattle.std.specs.Prelude.{◌≡◌, ◌≤◌, ◌<◌, ◌+◌, ◌-◌, ◌^◌, length};
    ghost use Rattle.feed_frames.specs.Places.{between};
    ghost use Rattle.feed_frames.specs.Feed.{Feed};
    ghost use Rattle.feed_frames.specs.declared.reader.TheConstants.{CAPACITY};

    ghost Value = { Feed };

    ghost view = { λ f. record { kinds = f.kinds; offset = f.offset; left = between f.start f.end f.bytes.items } };

    ghost invariant = { λ f. (f.start ≤ f.end) × (f.end ≤ CAPACITY) × (length f.bytes.items ≡ CAPACITY) × (f.offset + (f.end - f.start) < 2 ^ 63) };
}

impl Frames {
    /// A reader of the kinds up to this number, which nothing was fed to.
    pub fn new(alloc: Global, kinds: u8) -> Result<Frames, NoMemory>
        ensures { IfOk result (λ frames. frames ≡ fresh_feed kinds) }
    {
        Ok(Frames {
            kinds,
            bytes: vec![in alloc; 0; CAPACITY]?,
            start: 0,
            end: 0,
            offset: 0,
        })
    }

    /// How many bytes may be fed now.
    pub fn room(&self) -> usize
        ensures room { result ≡ CAPACITY - length self.now.left }
        ensures piece { IsPartialFrame self.now.kinds self.now.left → PIECE ≤ result }
    {
        CAPACITY - (self.end - self.start)
    }

    /// Takes the piece behind the bytes that are there.
    pub fn feed(&mut self, piece: &[u8])
        requires room { length self.old.left + length piece.now ≤ CAPACITY }
        requires short { self.old.offset + length self.old.left + length piece.now < 2 ^ 63 }
        ensures { self.new ≡ after_piece self.old piece.now }
    {
        let (start, end) = make_room(&mut self.bytes, self.start, self.end, piece.len());
        self.start = start;
        put(&mut self.bytes, end, piece);
        self.end = end + piece.len();
    }

    /// The next whole frame. `None` says that what is left is a part of a frame, or nothing.
    ///
    /// After `BadFrame` it answers the same, whatever is fed, until `reset`.
    pub fn next(&mut self) -> Result<Option<Frame<'_>>, BadFrame>
        ensures* ends { sem 𝓛 (ends_as self.entry result) }
    {
        match front_of(self.kinds, &self.bytes[self.start..self.end]) {
            Front::Bad => Err(BadFrame {
                offset: self.offset,
            }),
            Front::Partial => Ok(None),
            Front::Whole(frame) => {
                let length = 5 + frame.payload.len();
                self.start += length;
                self.offset += length as u64;
                Ok(Some(frame))
            }
        }
    }

    /// The bytes fed and not given.
    fn pending(&self) -> &[u8]
        ensures { result.now ≡ self.now.left }
    {
        &self.bytes[self.start..self.end]
    }

    /// Where the frame begins of which only a part was fed, counted from the first byte fed.
    pub fn cut_at(&self) -> Option<u64>
        ensures some { IfSome result (λ at. (at ≡ self.now.offset) × IsPartialFrame self.now.kinds self.now.left × (0 < length self.now.left)) }
        ensures found { IsPartialFrame self.now.kinds self.now.left → 0 < length self.now.left → result ≡ Some self.now.offset }
    {
        let left = self.pending();
        if left.is_empty() {
            return None;
        }
        match front_of(self.kinds, left) {
            Front::Partial => Some(self.offset),
            Front::Whole(_) => None,
            Front::Bad => None,
        }
    }

    /// Forgets all that was fed. From now on the kinds up to this number are read.
    pub fn restart(&mut self, kinds: u8)
        ensures { self.new ≡ fresh_feed kinds }
    {
        self.kinds = kinds;
        self.reset();
    }

    /// Forgets all that was fed.
    pub fn reset(&mut self)
        ensures { self.new ≡ fresh_feed self.old.kinds }
    {
        self.start = 0;
        self.end = 0;
        self.offset = 0;
    }
}

/// Moves the bytes between the two places to the front, where so many more wouldn't fit behind them. Answers
/// their places.
fn make_room(bytes: &mut Vec<u8>, start: usize, end: usize, more: usize) -> (usize, usize)
    requires ordered { start ≤ end }
    requires inside { end ≤ length bytes.old.items }
    requires whole { length bytes.old.items ≡ CAPACITY }
    requires room { (end - start) + more ≤ CAPACITY }
    ensures size { result.1 - result.0 ≡ end - start }
    ensures ordered { result.0 ≤ result.1 }
    ensures room { result.1 + more ≤ CAPACITY }
    ensures whole { length bytes.new.items ≡ CAPACITY }
    ensures same { between result.0 result.1 bytes.new.items ≡ between start end bytes.old.items }
{
    if more <= CAPACITY - end {
        return (start, end);
    }
    bytes.copy_within(start..end, 0);
    (0, end - start)
}

/// Puts the piece into the bytes, from a place on.
fn put(bytes: &mut [u8], at: usize, piece: &[u8])
    requires { at + length piece.now ≤ length bytes.old }
    ensures same_length { length bytes.new ≡ length bytes.old }
    ensures kept { take at bytes.new ≡ take at bytes.old }
    ensures put { take (length piece.now) (drop at bytes.new) ≡ piece.now }
{
    bytes[at..at + piece.len()].copy_from_slice(piece);
}
