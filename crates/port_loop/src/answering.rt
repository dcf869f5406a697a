//! Answers a frame of a port.

ghost use Rattle.byte_io.specs.Port.{IsBound};
ghost use Rattle.feed_frames.specs.Front.{frame_of};
ghost use Rattle.frame_loop.specs.Turns.{IsAskable};
ghost use Rattle.port_loop.specs.Sends.{sends_to};
ghost use Rattle.port_loop.specs.Answering.{Answers, held};

use crate::sending::{Destination, Outbox, send};
use byte_io::Port;
use feed_frames::Frame;
use frame_loop::{Answerer, Over};
use nmc_base::Steps;
use std::alloc::Global;
use std::sync::ledger::Ledger;

/// Answers a frame, and sends the reply. At Err this reply has ended the run.
pub(crate) fn answer<W, T: Answerer<W>, P: Port, L: Ledger>(
    alloc: Global,
    answerer: &mut T,
    world: &mut W,
    frame: Frame<'_>,
    destination: Destination,
    outbox: &mut Outbox,
    port: &mut P,
    steps: &mut Steps<L>,
) -> Result<(), Over>
    requires askable { IsAskable T.KINDS (frame_of frame) }
    requires bound { IsBound (P.seen port.old) }
    requires ready { T.ready (answerer.old, world.old) }
    ensures { Answers T.ready T.reached T.broken (sends_to destination) (frame_of frame.entry) (held (P.seen port.old) (answerer.old, world.old)) (held (P.seen port.new) (answerer.new, world.new)) result }
{
    let turned = answerer.turn(alloc, world, frame, &mut outbox.reply, steps);
    send(port, destination, outbox);
    turned
}
