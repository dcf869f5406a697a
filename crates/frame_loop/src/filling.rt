//! Room for what a read gives, and reading into it.

ghost use Rattle.std.specs.Prelude.{◌≡◌, ◌≤◌, ◌<◌, ◌+◌, ◌^◌, length, IfOk};
ghost use Rattle.feed_frames.specs.declared.reader.TheConstants.{PIECE};
ghost use Rattle.feed_frames.specs.Frames.{IsPartialFrame};
ghost use Rattle.frame_loop.specs.Filling.{ReadsFront, Fills};

use crate::reply::ReplyBuf;
use byte_io::{Failed, Source};
use feed_frames::{Frames, PIECE};
use nmc_base::NoMemory;
use std::alloc::Global;
use std::marker::Model;

/// Room for what one read gives.
#[derive(Drop)]
pub(crate) struct Piece {
    bytes: Vec<u8>,
}

impl Model for Piece {
    ghost use Rattle.std.specs.Prelude.{◌≡◌, List, ℕ, length};
    ghost use Rattle.feed_frames.specs.declared.reader.TheConstants.{PIECE};

    ghost Value = { List ℕ };

    ghost view = { λ p. p.bytes.items };

    ghost invariant = { λ p. length p.bytes.items ≡ PIECE };
}

impl Piece {
    fn new(alloc: Global) -> Result<Piece, NoMemory>
        ensures { IfOk result (λ piece. length piece ≡ PIECE) }
    {
        Ok(Piece {
            bytes: vec![in alloc; 0; PIECE]?,
        })
    }

    /// Reads at most so many bytes into the front.
    fn read<S: Source>(&mut self, source: &mut S, most: usize) -> Result<usize, Failed>
        requires { most ≤ PIECE }
        ensures { ReadsFront (S.seen source.old) (S.seen source.new) most self.new result }
    {
        read_front(&mut self.bytes, source, most)
    }

    /// The bytes of the piece.
    fn bytes(&self) -> &[u8]
        ensures value { result.now ≡ self.now }
        ensures long { length result.now ≡ PIECE }
    {
        &self.bytes
    }
}

/// Reads at most so many bytes into the front of the buffer.
fn read_front<S: Source>(buffer: &mut [u8], source: &mut S, most: usize) -> Result<usize, Failed>
    requires { most ≤ length buffer.old }
    ensures front { ReadsFront (S.seen source.old) (S.seen source.new) most buffer.new result }
    ensures same_length { length buffer.new ≡ length buffer.old }
{
    source.read(&mut buffer[..most])
}

/// Reads the next piece of the source, at most so many bytes, and feeds it to the reader of frames. All whole
/// frames before it were answered.
pub(crate) fn fill<S: Source>(
    frames: &mut Frames,
    piece: &mut Piece,
    source: &mut S,
    most: usize,
) -> Result<usize, Failed>
    requires answered { IsPartialFrame frames.old.kinds frames.old.left }
    requires most { most ≤ PIECE }
    requires short { frames.old.offset + length frames.old.left + most < 2 ^ 63 }
    ensures { Fills (S.seen source.old) (S.seen source.new) most frames.old frames.new result }
{
    match piece.read(source, most) {
        Ok(count) => {
            let (front, _) = piece.bytes().split_at(count);
            frames.feed(front);
            Ok(count)
        }
        Err(failed) => Err(failed),
    }
}

/// All the memory of the loop but for what the answers need: it is taken before anything is read.
#[derive(Drop)]
pub struct Buffers {
    pub(crate) frames: Frames,
    pub(crate) piece: Piece,
    pub(crate) reply: ReplyBuf,
}

impl Buffers {
    /// Room for the longest frame and a piece behind it, for a read, and for a reply.
    pub fn new(alloc: Global) -> Result<Buffers, NoMemory> {
        Ok(Buffers {
            frames: Frames::new(alloc, 0)?,
            piece: Piece::new(alloc)?,
            reply: ReplyBuf::new(alloc)?,
        })
    }
}
