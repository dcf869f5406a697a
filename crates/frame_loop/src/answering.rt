//! Answers the whole frames that are there.

ghost use Rattle.std.specs.Prelude.{◌≡◌};
ghost use Rattle.frame_loop.specs.Answering.{AnswersNext, AnswersAll, desk};

use crate::answerer::{Answerer, Over};
use crate::outlet::Outlet;
use crate::reply::ReplyBuf;
use feed_frames::{BadFrame, Frames};
use nmc_base::Steps;
use std::alloc::Global;
use std::sync::ledger::Ledger;

/// Why no more frames are answered.
#[derive(Clone, Copy, PartialEq, Eq, Debug)]
pub enum Halted {
    /// What is left is less than a frame.
    Partial,
    /// What is left begins no frame, and stands at this offset.
    Bad(u64),
    /// The whole reply couldn't be given.
    Undelivered,
    /// What answers has ended the run. The last reply was given, as far as could be.
    Ended,
}

/// Answers the next frame, or says why it doesn't.
fn answer_next<W, T: Answerer<W>, K, O: Outlet<K>, L: Ledger>(
    alloc: Global,
    answerer: &mut T,
    world: &mut W,
    frames: &mut Frames,
    reply: &mut ReplyBuf,
    outlet: &mut K,
    steps: &mut Steps<L>,
) -> Result<(), Halted>
    requires reads { frames.old.kinds ≡ T.KINDS }
    requires takes { O.takes (O.seen outlet.old) }
    requires ready { T.ready (answerer.old, world.old) }
    ensures { AnswersNext T.KINDS O.gives O.refuses O.gives_last T.ready T.reached T.broken (desk (O.seen outlet.old) frames.old (answerer.old, world.old)) (desk (O.seen outlet.new) frames.new (answerer.new, world.new)) result }
{
    let turned = match frames.next() {
        Ok(Some(frame)) => answerer.turn(alloc, world, frame, reply, steps),
        Ok(None) => return Err(Halted::Partial),
        Err(BadFrame { offset }) => return Err(Halted::Bad(offset)),
    };
    match turned {
        Ok(()) => match O::give(outlet, reply) {
            Ok(()) => Ok(()),
            Err(_) => Err(Halted::Undelivered),
        },
        Err(Over) => {
            O::give_last(outlet, reply);
            Err(Halted::Ended)
        }
    }
}

/// Answers all whole frames that are there, each before the next, and gives each reply to the outlet.
pub fn answer_all<W, T: Answerer<W>, K, O: Outlet<K>, L: Ledger>(
    alloc: Global,
    answerer: &mut T,
    world: &mut W,
    frames: &mut Frames,
    reply: &mut ReplyBuf,
    outlet: &mut K,
    steps: &mut Steps<L>,
) -> Halted
    requires reads { frames.old.kinds ≡ T.KINDS }
    requires takes { O.takes (O.seen outlet.old) }
    requires ready { T.ready (answerer.old, world.old) }
    ensures { AnswersAll T.KINDS O.gives O.refuses O.gives_last T.ready T.reached T.broken (desk (O.seen outlet.old) frames.old (answerer.old, world.old)) (desk (O.seen outlet.new) frames.new (answerer.new, world.new)) result }
{
    'frames: loop {
        match answer_next::<W, T, K, O, L>(alloc, answerer, world, frames, reply, outlet, steps) {
            Ok(()) => {}
            Err(halted) => return halted,
        }
    }
}
