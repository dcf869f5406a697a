//! Room for what a poll brings.

ghost use Rattle.std.specs.Prelude.{◌≡◌, ◌≤◌, ◌<◌, ◌+◌, ◌^◌, length, take, IfOk};
ghost use Rattle.byte_io.specs.Port.{IsBound, Polls};
ghost use Rattle.byte_io.specs.declared.port.TheConstants.{POLL_ROOM};
ghost use Rattle.feed_frames.specs.Frames.{IsPartialFrame};
ghost use Rattle.feed_frames.specs.Feed.{after_piece};
ghost use Rattle.frame_loop.specs.Answering.{fed_to};

use byte_io::{POLL_ROOM, Polled, Port};
use feed_frames::Frames;
use nmc_base::NoMemory;
use std::alloc::Global;
use std::marker::Model;

/// Room for what one poll brings.
#[derive(Drop)]
pub(crate) struct PollRoom {
    bytes: Vec<u8>,
}

impl Model for PollRoom {
    ghost use Rattle.std.specs.Prelude.{◌≡◌, List, ℕ, length};
    ghost use Rattle.byte_io.specs.declared.port.TheConstants.{POLL_ROOM};

    ghost Value = { List ℕ };

    ghost view = { λ p. p.bytes.items };

    ghost invariant = { λ p. length p.bytes.items ≡ POLL_ROOM };
}

impl PollRoom {
    pub(crate) fn new(alloc: Global) -> Result<PollRoom, NoMemory>
        ensures { IfOk result (λ room. length room ≡ POLL_ROOM) }
    {
        Ok(PollRoom {
            bytes: vec![in alloc; 0; POLL_ROOM]?,
        })
    }

    /// Polls the port into the room.
    pub(crate) fn poll<P: Port>(&mut self, port: &mut P) -> Polled
        requires { IsBound (P.seen port.old) }
        ensures { Polls (P.seen port.old) (P.seen port.new) self.new result }
    {
        port.poll(&mut self.bytes)
    }

    /// So many bytes of what was brought.
    pub(crate) fn front(&self, count: usize) -> &[u8]
        requires { count ≤ length self.now }
        ensures value { result.now ≡ take count self.now }
        ensures within { length result.now ≤ POLL_ROOM }
    {
        &self.bytes[..count]
    }
}

/// Feeds so many bytes of what was brought to the reader of frames. All whole frames before them were answered.
pub(crate) fn feed_front(frames: &mut Frames, room: &PollRoom, count: usize)
    requires answered { IsPartialFrame frames.old.kinds frames.old.left }
    requires count { count ≤ length room.now }
    requires short { fed_to frames.old + POLL_ROOM < 2 ^ 63 }
    ensures grown { frames.new ≡ after_piece frames.old (take count room.now) }
    ensures within { length (take count room.now) ≤ POLL_ROOM }
{
    frames.feed(room.front(count));
}
