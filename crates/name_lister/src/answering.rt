//! Answers frames by a lister, and lets go of what ended, some parts behind each event.

ghost use Rattle.std.specs.Prelude.{◌≡◌};
ghost use Rattle.frame_loop.specs.Turns as loops;
ghost use Rattle.name_lister.specs.Event.{list_frame};
ghost use Rattle.name_lister.specs.Reached.{Ready, Reached, Broken};
ghost use Rattle.name_lister.specs.Views.{list_event_of, IsListReadable};
ghost use Rattle.name_lister.specs.declared.lister.ListTurned.TheVariants.{On};

use crate::event::{ListEvent, read_list_event};
use crate::leavings::Leavings;
use crate::letting_go::let_go;
use crate::lister::{ListTurned, Lister};
use disk_model::Disk;
use feed_frames::Frame;
use frame_loop::{Answerer, Over, ReplyBuf};
use nmc_base::Steps;
use std::alloc::Global;
use std::marker::Model;
use std::mem;
use std::sync::ledger::Ledger;

/// A run: the lister as its last turn left it, what is still to be let go of of sessions that were closed and saves that ended, and the
/// steps that were taken for the mirror.
///
/// Contracts see the lister alone.
#[derive(Drop)]
pub(crate) struct Running<M: Ledger> {
    pub(crate) turned: ListTurned,
    pub(crate) leavings: Leavings,
    pub(crate) mirror_steps: Steps<M>,
}

impl<M: Ledger> Model for Running<M> {
    ghost use Rattle.name_lister.specs.declared.lister.ListTurned.{ListTurned};

    ghost Value = { ListTurned };

    ghost view = { λ r. r.turned };
}

impl<M: Ledger> Running<M> {
    /// The run of a lister that was opened.
    pub(crate) fn new(lister: Lister, leavings: Leavings, mirror_steps: Steps<M>) -> Running<M>
        ensures { result ≡ On lister }
    {
        Running {
            turned: ListTurned::On(lister),
            leavings,
            mirror_steps,
        }
    }
}

/// Has a lister deal with an event. It is moved, as that needs; what a fault of the disk has ended stays so.
fn deal<D: Disk, L: Ledger, M: Ledger>(
    turned: &mut ListTurned,
    alloc: Global,
    disk: &mut D,
    event: ListEvent<'_>,
    reply: &mut ReplyBuf,
    leavings: &mut Leavings,
    steps: &mut Steps<L>,
    mirror_steps: &mut Steps<M>,
) -> Result<(), Over>
    requires within { IsListReadable event }
    requires ready { Ready D.tells D.seen (turned.old, disk.old) }
    ensures { loops.Turns (Ready D.tells D.seen) (Reached D.tells D.seen) (Broken D.tells D.seen) (turned.old, disk.old) (list_frame (list_event_of event.entry)) reply.new (turned.new, disk.new) result }
{
    match mem::replace(turned, ListTurned::Ended) {
        ListTurned::Ended => Err(Over),
        ListTurned::On(lister) => {
            match lister.turn(alloc, disk, event, reply, leavings, steps, mirror_steps) {
                ListTurned::Ended => Err(Over),
                ListTurned::On(next) => {
                    let_go(mem::replace(turned, ListTurned::On(next)));
                    Ok(())
                }
            }
        }
    }
}

/// A lister answers frames by means of the disk that has the files of its bridge. Once a fault has ended it, it answers none.
impl<D: Disk, M: Ledger> Answerer<D> for Running<M> {
    ghost use Rattle.name_lister.specs.Event.{last_list_kind};
    ghost use Rattle.name_lister.specs.Reached.{ListBeginning, Ready, Reached, Broken};

    const KINDS: u8 = 9;

    ghost KINDS = { last_list_kind };

    ghost Start = { ListBeginning D };

    ghost ready = { Ready D.tells D.seen };

    ghost reached = { Reached D.tells D.seen };

    ghost broken = { Broken D.tells D.seen };

    fn turn<L: Ledger>(
        &mut self,
        alloc: Global,
        disk: &mut D,
        frame: Frame<'_>,
        reply: &mut ReplyBuf,
        steps: &mut Steps<L>,
    ) -> Result<(), Over> {
        deal(
            &mut self.turned,
            alloc,
            disk,
            read_list_event(frame),
            reply,
            &mut self.leavings,
            steps,
            &mut self.mirror_steps,
        )
    }
}
