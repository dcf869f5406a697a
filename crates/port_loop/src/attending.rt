//! Polls a port, and deals with each poll before the next.

ghost use Rattle.byte_io.specs.Port.{IsBound};
ghost use Rattle.port_loop.specs.Transcript.{Attends};

use crate::dealing::{PollBuffers, answer_poll};
use byte_io::Port;
use frame_loop::{Answerer, Over};
use nmc_base::Steps;
use std::alloc::Global;
use std::sync::ledger::Ledger;

/// How a run of polls ended.
#[derive(Clone, Copy, PartialEq, Eq, Debug)]
pub enum Ending {
    /// All polls were made, and dealt with.
    Done,
    /// What answers has ended the run. Its last reply was given to the port.
    Ended,
}

/// Makes so many polls, each dealt with before the next.
///
/// A datagram is a query, whose reply goes to its client without code and length. A piece of a client's stream gives the
/// messages that it completes, each a query, whose replies go back over the stream behind their lengths of two bytes (RFC
/// 1035, 4.2.2). Up to 16 clients' streams are held; a piece of one more is dropped, and its stream closed. A piece of the
/// feed gives the frames that it completes, whose replies go to the feed, whole. For a bad frame the feed is closed. A
/// poll or a send that failed is dealt with. It takes no memory of its own: the buffers have all of it.
pub fn attend<W, T: Answerer<W>, P: Port, L: Ledger>(
    alloc: Global,
    answerer: &mut T,
    world: &mut W,
    buffers: &mut PollBuffers,
    port: &mut P,
    turns: u32,
    steps: &mut Steps<L>,
) -> Ending
    requires bound { IsBound (P.seen port.old) }
    requires ready { T.ready (answerer.old, world.old) }
    ensures { Attends T.KINDS T.reached T.broken (P.seen port.old) (P.seen port.new) turns (answerer.old, world.old) result (answerer.new, world.new) }
{
    let mut polls: u32 = 0;
    buffers.frames.restart(T::KINDS);
    buffers.streams.clear();
    while polls < turns {
        match answer_poll(alloc, answerer, world, buffers, port, steps) {
            Ok(()) => {}
            Err(Over) => return Ending::Ended,
        }
        polls += 1;
    }
    Ending::Done
}
