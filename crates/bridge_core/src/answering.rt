//! Answers frames by a bridge: each event is done, and its reply is made.

ghost use Rattle.std.specs.Prelude.{IsTrue};
ghost use Rattle.frame_loop.specs.Turns as loops;
ghost use Rattle.chain_commands.specs.Event.{Ask, event_frame};
ghost use Rattle.name_store.specs.Stored.{IsOn};
ghost use Rattle.bridge_core.specs.Bridge.{AnswersEvent};
ghost use Rattle.bridge_core.specs.Reached.{Ready, Reached, Broken};
ghost use Rattle.bridge_core.specs.Views.{carrier_of, request_of, IsRequestWithinLimits};

use crate::bridge::{Bridge, Turned};
use crate::event::{Event, read_event};
use disk_model::Disk;
use dns_message::Transport;
use feed_frames::Frame;
use frame_loop::{Answerer, Over, ReplyBuf};
use index_commands::ChainCommand;
use nmc_base::Steps;
use std::alloc::Global;
use std::mem;
use std::sync::ledger::Ledger;

/// What moves a bridge.
#[derive(Clone, Copy)]
pub enum Request<'a> {
    /// A command on the chain.
    Command(ChainCommand<'a>),
    /// The index is to be saved.
    Save,
}

/// The bridge does what it is asked for.
pub fn act<D: Disk, L: Ledger>(
    bridge: Bridge,
    alloc: Global,
    disk: &mut D,
    request: Request<'_>,
    reply: &mut ReplyBuf,
    steps: &mut Steps<L>,
) -> Turned
    requires within { IsRequestWithinLimits request }
    requires on_disk { IsTrue D.tells → IsOn bridge.store (D.seen disk.old).moments.now }
    ensures { AnswersEvent D.tells D.seen bridge disk.old (request_of request.entry) reply.new result disk.new }
{
    match request {
        Request::Command(command) => bridge.turn(alloc, disk, command, reply, steps),
        Request::Save => bridge.save(alloc, disk, reply),
    }
}

/// Has a bridge do a command or a save. It is moved, as that needs; what a fault of the disk has ended stays so.
fn deal<D: Disk, L: Ledger>(
    turned: &mut Turned,
    alloc: Global,
    disk: &mut D,
    request: Request<'_>,
    reply: &mut ReplyBuf,
    steps: &mut Steps<L>,
) -> Result<(), Over>
    requires within { IsRequestWithinLimits request }
    requires ready { Ready D.tells D.seen (turned.old, disk.old) }
    ensures { loops.Turns (Ready D.tells D.seen) (Reached D.tells D.seen) (Broken D.tells D.seen) (turned.old, disk.old) (event_frame (request_of request.entry)) reply.new (turned.new, disk.new) result }
{
    match mem::replace(turned, Turned::Ended) {
        Turned::Ended => Err(Over),
        Turned::On(bridge) => match act(bridge, alloc, disk, request, reply, steps) {
            Turned::Ended => Err(Over),
            Turned::On(next) => {
                *turned = Turned::On(next);
                Ok(())
            }
        },
    }
}

/// Has a bridge answer a message.
fn ask<D: Disk>(
    turned: &mut Turned,
    alloc: Global,
    disk: &D,
    transport: Transport,
    message: &[u8],
    reply: &mut ReplyBuf,
) -> Result<(), Over>
    requires ready { Ready D.tells D.seen (turned.old, disk.now) }
    ensures { loops.Turns (Ready D.tells D.seen) (Reached D.tells D.seen) (Broken D.tells D.seen) (turned.old, disk.now) (event_frame (Ask (carrier_of transport) message.now)) reply.new (turned.new, disk.now) result }
{
    let _ = disk;
    match turned {
        Turned::Ended => Err(Over),
        Turned::On(bridge) => {
            bridge.query(alloc, transport, message, reply);
            Ok(())
        }
    }
}

/// A bridge answers frames by means of the disk that has its files. Once a fault has ended it, it answers none.
impl<D: Disk> Answerer<D> for Turned {
    ghost use Rattle.chain_commands.specs.Event.{last_kind};
    ghost use Rattle.bridge_core.specs.Reached.{Beginning, Ready, Reached, Broken};

    const KINDS: u8 = 4;

    ghost KINDS = { last_kind };

    ghost Start = { Beginning D };

    ghost ready = { Ready D.tells D.seen };

    ghost reached = { Reached D.tells D.seen };

    ghost broken = { Broken D.tells D.seen };

    fn turn<L: Ledger>(
        &mut self,
        alloc: Global,
        disk: &mut D,
        frame: Frame<'_>,
        reply: &mut ReplyBuf,
        steps: &mut Steps<L>,
    ) -> Result<(), Over> {
        match read_event(frame) {
            Event::Ask(transport, message) => ask(self, alloc, disk, transport, message, reply),
            Event::Do(command) => deal(self, alloc, disk, Request::Command(command), reply, steps),
            Event::Save => deal(self, alloc, disk, Request::Save, reply, steps),
        }
    }
}
