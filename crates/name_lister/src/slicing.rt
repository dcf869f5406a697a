//! Saves in slices: the begin of one, and its slices.

ghost use Rattle.std.specs.Prelude.{◌≡◌, ◌+◌, ◌*◌, ◌<◌, ◌≤◌, length, None, IfOk, IsTrue};
ghost use Rattle.std.specs.Option.{option_map};
ghost use Rattle.chain_commands.specs.Saving.{most_selections};
ghost use Rattle.name_store.specs.Drafting.{IsDraftOf, IsDraftOn};
ghost use Rattle.name_store.specs.Stored.{IsOn};
ghost use Rattle.name_store.specs.declared.slice_steps.TheConstants.{LONGEST_SLICE};
ghost use Rattle.name_lister.specs.Answers.{AnswersList};
ghost use Rattle.name_lister.specs.Costs.{IsCheapForMirror};
ghost use Rattle.name_lister.specs.Event.{Begin, Slice};
ghost use Rattle.name_lister.specs.Leavings.{total};
ghost use Rattle.name_lister.specs.Lister.{IsListOn};
ghost use Rattle.name_lister.specs.Saving.{IsGiven, IsPinnedBy, WritesSlice, slice_reply, left_by};

use crate::leavings::Leavings;
use crate::letting_go::{let_rest_go, let_saving_go, let_slices_go};
use crate::lister::{ListTurned, Lister};
use crate::replies::{
    refuse_area, refuse_idle, refuse_running, tell_begun, tell_more, tell_selected,
};
use crate::saving::{Saving, slice_size};
use bridge_core::{Bridge, DraftTurned, SliceTurned, lack_memory, refuse_save, tell_fault};
use disk_model::Disk;
use frame_loop::ReplyBuf;
use name_store::{LONGEST_SLICE, SaveRefusal};
use nmc_base::{NoMemory, Steps};
use sliced_save::{Mirror, Slices};
use std::sync::ledger::Ledger;

/// The index as it is, pinned, where its mirror is there.
fn pinned_now(mirror: Option<&Mirror>) -> Result<Slices, NoMemory>
    ensures { IfOk result (IsPinnedBy (option_map (λ m. m.now) mirror.entry)) }
{
    match mirror {
        None => Err(NoMemory),
        Some(mirror) => mirror.begin(),
    }
}

/// Writes the next slice of a save, of at most so many bytes, by a buffer of as many. Gives back what is left to give out.
fn write_by<D: Disk, M: Ledger>(
    bridge: Bridge,
    disk: &mut D,
    saving: Saving,
    buf: &mut [u8],
    most: usize,
    steps: &mut Steps<M>,
) -> (SliceTurned, Slices)
    requires on_disk { IsTrue D.tells → IsOn bridge.store (D.seen disk.old).moments.now }
    requires is_draft { IsDraftOf bridge.store saving.draft }
    requires given { IsGiven saving }
    requires some { 1 ≤ most }
    requires few { most ≤ LONGEST_SLICE }
    requires room { length buf.old ≡ most }
    requires drafted { IsTrue D.tells → IsDraftOn bridge.store saving.draft saving.slices.text (D.seen disk.old).moments.now }
    ensures writes { WritesSlice D.tells D.seen bridge saving most disk.old disk.new result.0 result.1 }
    ensures cost { steps.new ≤ steps.old + 2 * (most + 1) }
{
    let Saving { draft, slices } = saving;
    let mut slices = slices;
    let count = slices.next(buf, steps);
    let turned = bridge.slice(disk, draft, &buf[..count], most);
    (turned, slices)
}

/// The same by a buffer of its own, of so many bytes at most.
fn write_slice<D: Disk, M: Ledger>(
    bridge: Bridge,
    disk: &mut D,
    saving: Saving,
    most: usize,
    steps: &mut Steps<M>,
) -> (SliceTurned, Slices)
    requires on_disk { IsTrue D.tells → IsOn bridge.store (D.seen disk.old).moments.now }
    requires is_draft { IsDraftOf bridge.store saving.draft }
    requires given { IsGiven saving }
    requires some { 1 ≤ most }
    requires few { most ≤ LONGEST_SLICE }
    requires drafted { IsTrue D.tells → IsDraftOn bridge.store saving.draft saving.slices.text (D.seen disk.old).moments.now }
    ensures writes { WritesSlice D.tells D.seen bridge saving most disk.old disk.new result.0 result.1 }
    ensures cost { steps.new ≤ steps.old + 2 * (most + 1) }
{
    let mut buffer = [0; LONGEST_SLICE];
    write_by(bridge, disk, saving, &mut buffer[..most], most, steps)
}

/// Tells what came of a slice. Gives the bridge back, with the save where that goes on; None behind a fault of the disk. Where the save
/// has ended, what it alone held waits to be let go of.
fn tell_slice(
    turned: SliceTurned,
    slices: Slices,
    reply: &mut ReplyBuf,
    leavings: &mut Leavings,
) -> Option<(Bridge, Option<Saving>)>
    ensures told { reply.new ≡ slice_reply turned }
    ensures left { result ≡ left_by turned slices }
    ensures leavings { total leavings.old ≤ total leavings.new }
{
    match turned {
        SliceTurned::Written(bridge, draft) => {
            tell_more(reply);
            Some((bridge, Some(Saving { draft, slices })))
        }
        SliceTurned::Selected(bridge, number) => {
            leavings.add_slices(slices);
            tell_selected(reply, number);
            Some((bridge, None))
        }
        SliceTurned::AreaLimit(bridge) => {
            leavings.add_slices(slices);
            refuse_area(reply);
            Some((bridge, None))
        }
        SliceTurned::Ended => {
            let_slices_go(slices);
            tell_fault(reply);
            None
        }
    }
}

impl Lister {
    /// Begins a save in slices of the index as it is.
    pub(crate) fn begin_save<D: Disk>(self, disk: &mut D, reply: &mut ReplyBuf) -> ListTurned
        requires on_disk { IsTrue D.tells → IsListOn self (D.seen disk.old).moments.now }
        ensures { AnswersList D.tells D.seen self disk.old Begin reply.new result disk.new }
    {
        if self.saving.is_some() {
            refuse_running(reply);
            return ListTurned::On(self);
        }
        if self.bridge.selections() == u32::MAX {
            refuse_save(reply, SaveRefusal::CheckpointLimit);
            return ListTurned::On(self);
        }
        match pinned_now(self.mirror.as_ref()) {
            Ok(slices) => self.begin_draft(disk, slices, reply),
            Err(NoMemory) => {
                lack_memory(reply);
                ListTurned::On(self)
            }
        }
    }

    /// Begins the draft of this text.
    fn begin_draft<D: Disk>(self, disk: &mut D, slices: Slices, reply: &mut ReplyBuf) -> ListTurned
        requires on_disk { IsTrue D.tells → IsListOn self (D.seen disk.old).moments.now }
        requires none { self.saving ≡ None }
        requires few { self.bridge.store.slots.count < most_selections }
        requires pinned { IsPinnedBy self.mirror slices }
        ensures { AnswersList D.tells D.seen self disk.old Begin reply.new result disk.new }
    {
        let Lister {
            bridge,
            mirror,
            sessions,
            page,
            saving,
        } = self;
        let_saving_go(saving);
        // A chain says that it is sound where its parts are looked at.
        let _parts = bridge.chain().parts();
        match bridge.begin_draft(disk, slices.left()) {
            DraftTurned::Begun(bridge, draft) => {
                tell_begun(reply);
                ListTurned::On(Lister {
                    bridge,
                    mirror,
                    sessions,
                    page,
                    saving: Some(Saving { draft, slices }),
                })
            }
            DraftTurned::Refused(bridge, refusal) => {
                let_slices_go(slices);
                refuse_save(reply, refusal);
                ListTurned::On(Lister {
                    bridge,
                    mirror,
                    sessions,
                    page,
                    saving: None,
                })
            }
            DraftTurned::Ended => {
                let_slices_go(slices);
                let_rest_go(mirror, sessions, None);
                tell_fault(reply);
                ListTurned::Ended
            }
        }
    }

    /// Writes the next slice of the save that runs, and selects its area behind the last.
    pub(crate) fn slice<D: Disk, M: Ledger>(
        self,
        disk: &mut D,
        asked: u32,
        reply: &mut ReplyBuf,
        leavings: &mut Leavings,
        mirror_steps: &mut Steps<M>,
    ) -> ListTurned
        requires on_disk { IsTrue D.tells → IsListOn self (D.seen disk.old).moments.now }
        ensures answers { AnswersList D.tells D.seen self disk.old (Slice asked) reply.new result disk.new }
        ensures mirror { IsCheapForMirror self (Slice asked) result mirror_steps.old mirror_steps.new }
        ensures leavings { total leavings.old ≤ total leavings.new }
    {
        let Lister {
            bridge,
            mirror,
            sessions,
            page,
            saving,
        } = self;
        let Some(saving) = saving else {
            refuse_idle(reply);
            return ListTurned::On(Lister {
                bridge,
                mirror,
                sessions,
                page,
                saving: None,
            });
        };
        let (turned, slices) = write_slice(bridge, disk, saving, slice_size(asked), mirror_steps);
        match tell_slice(turned, slices, reply, leavings) {
            Some((bridge, saving)) => ListTurned::On(Lister {
                bridge,
                mirror,
                sessions,
                page,
                saving,
            }),
            None => {
                let_rest_go(mirror, sessions, None);
                ListTurned::Ended
            }
        }
    }
}
