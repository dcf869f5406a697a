//! What answers frames, one at a time.

ghost use Rattle.std.specs.Prelude.{ℕ, List};
ghost use Rattle.feed_frames.specs.Frames.{Frame as Framed};
ghost use Rattle.feed_frames.specs.Replies.{Reply};
ghost use Rattle.feed_frames.specs.Front.{frame_of};
ghost use Rattle.frame_loop.specs.Turns.{IsAskable, Turns};

use crate::reply::ReplyBuf;
use feed_frames::Frame;
use nmc_base::Steps;
use std::alloc::Global;
use std::sync::ledger::Ledger;

/// The kind of a query's frame.
pub const QUERY: u8 = 3;

/// The kind of the frame of a query over a stream of its own. No stream of frames holds such a frame: their kinds begin at 1.
pub const STREAM_QUERY: u8 = 0;

/// What answers has ended the run: it answers no more frames.
#[derive(Clone, Copy, PartialEq, Eq, Debug)]
pub struct Over;

/// What answers frames, one by one, by means of a world that it is lent: the disk with its files, or nothing.
pub trait Answerer<W> {
    /// The frames that it answers are those of the kinds up to this number.
    const KINDS: u8;

    ghost KINDS: { ℕ };

    // what a run begins at
    ghost Start: { Type 0 };

    // what each turn requires of it and its world, and what the turn leaves where the run goes on
    ghost ready: { Self × W → Type 0 };

    // from the start these frames and these replies lead here
    ghost reached: { Start → List Framed → List Reply → Self × W → Type 0 };

    // from the start these frames and these replies led to the end of the run
    ghost broken: { Start → List Framed → List Reply → Self × W → Type 0 };

    /// Answers one frame: one that a stream may hold, or a message of any length. At Err the run has ended, and the
    /// frame has its reply all the same.
    fn turn<L: Ledger>(
        &mut self,
        alloc: Global,
        world: &mut W,
        frame: Frame<'_>,
        reply: &mut ReplyBuf,
        steps: &mut Steps<L>,
    ) -> Result<(), Over>
        requires askable { IsAskable KINDS (frame_of frame) }
        requires ready { ready (self.old, world.old) }
        ensures { Turns ready reached broken (self.old, world.old) (frame_of frame.entry) reply.new (self.new, world.new) result };
}
