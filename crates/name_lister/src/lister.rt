//! The lister: a bridge with listing sessions, and with a save in slices.

ghost use Rattle.std.specs.Prelude.{◌≡◌, ◌+◌, ◌≤◌, length, None, IsTrue, IfOk, OnOk};
ghost use Rattle.nmc_base.specs.Heights.{highest};
ghost use Rattle.nmc_base.specs.declared.limits.TheConstants.{LONGEST_BLOCK};
ghost use Rattle.disk_model.specs.Changes.{KeepsSettled};
ghost use Rattle.disk_model.specs.DiskSeen.{EndsWith, bytes_in};
ghost use Rattle.disk_model.specs.Moments.{EachMoment};
ghost use Rattle.bridge_core.specs.Views.{carrier_of, event_of, IsReadable};
ghost use Rattle.chain_commands.specs.Event.{Connect, Disconnect, Do, Ask, Save};
ghost use Rattle.index_commands.specs.Views.{command_of, IsWithinLimits};
ghost use Rattle.chain_commands.specs.RunState.{RunState};
ghost use Rattle.kept_answers.specs.Answering.{none_kept};
ghost use Rattle.name_store.specs.Opening.{IsSynced, OpenAnswer};
ghost use Rattle.name_store.specs.Stands.{Stands};
ghost use Rattle.bridge_core.specs.Bridged as bridges;
ghost use Rattle.name_lister.specs.Answers.{AnswersList};
ghost use Rattle.name_lister.specs.Costs.{IsCheapForMirror, IsCheapTurn, opening_cost};
ghost use Rattle.name_lister.specs.Event.{Plain, Open, Page, Close, Begin, Slice};
ghost use Rattle.name_lister.specs.Leavings.{Adds, LetsGo, total};
ghost use Rattle.name_lister.specs.Lister.{StandsFor, IsListOn};
ghost use Rattle.name_lister.specs.Opening.{store_of};
ghost use Rattle.name_lister.specs.Step.{beginning};
ghost use Rattle.name_lister.specs.Views.{list_event_of, IsListReadable};
ghost use Rattle.listing_sessions.specs.declared.page.TheConstants.{LARGEST_PAGE};

use crate::event::ListEvent;
use crate::leavings::Leavings;
use crate::letting_go::let_rest_go;
use crate::mirroring::{behind_connect, behind_disconnect};
use crate::replies::refuse_running;
use crate::saving::Saving;
use bridge_core::{Bridge, ChainCommand, Event, OpenFault, Turned};
use chain_state::Chain;
use disk_model::Disk;
use dns_message::Transport;
use frame_loop::ReplyBuf;
use listing_sessions::Sessions;
use nmc_base::{Hash32, NoMemory, Steps};
use sliced_save::Mirror;
use std::alloc::Global;
use std::marker::Model;
use std::sync::ledger::Ledger;

/// A bridge that lists the names of its chain besides, and saves its index between events. It keeps a mirror of the index, up to each block.
/// A listing session is pinned to the mirror of the chain that it was opened on, and a save in slices to that which it was begun on; they
/// share with the mirror what blocks have not changed since.
///
/// Contracts see the bridge, the mirror of its index as it is now, the listing of each session, how many rows a page has, and the save in
/// slices that runs.
#[derive(Drop)]
pub struct Lister {
    pub(crate) bridge: Bridge,
    // None behind a want of memory: then no listing is opened any more, and no save in slices is begun.
    pub(crate) mirror: Option<Mirror>,
    pub(crate) sessions: Sessions,
    pub(crate) page: u32,
    // None while no save in slices runs.
    pub(crate) saving: Option<Saving>,
}

impl Model for Lister {
    ghost use Rattle.std.specs.Prelude.{◌≤◌};
    ghost use Rattle.listing_sessions.specs.declared.page.TheConstants.{LARGEST_PAGE};
    ghost use Rattle.name_lister.specs.Lister.{Listed, listed};
    ghost use Rattle.name_lister.specs.Saving.{IsSavingOf};

    ghost Value = { Listed };

    ghost view = { λ l. listed l.bridge l.mirror l.sessions l.page l.saving };

    ghost invariant = { λ l. (l.page ≤ LARGEST_PAGE) × IsSavingOf l.bridge.store l.saving };
}

/// What came of a turn: the lister goes on, or a fault of the disk has ended it. Then open the files again.
#[derive(Drop)]
pub enum ListTurned {
    On(Lister),
    Ended,
}

impl Lister {
    /// Opens the files as a bridge does, and then takes the index once more: each name and each coin is looked at once. Pages have so many
    /// rows. No session is open yet, and no save runs. Want of memory may come behind the opening too.
    pub fn open<D: Disk, L: Ledger>(
        alloc: Global,
        disk: &mut D,
        page: u32,
        steps: &mut Steps<L>,
    ) -> Result<Lister, OpenFault>
        requires { page ≤ LARGEST_PAGE }
        ensures answer { IsTrue D.tells → OpenAnswer (bytes_in (D.seen disk.old)) (D.seen disk.new).moments.now (store_of result) }
        ensures empty { IfOk result (λ lister. lister.bridge.answers ≡ none_kept) }
        ensures begins { IfOk result (λ lister. (run : RunState) → bridges.StandsFor lister.bridge run → StandsFor lister (beginning run)) }
        ensures page { IfOk result (λ lister. lister.page ≡ page) }
        ensures idle { IfOk result (λ lister. lister.saving ≡ None) }
        ensures runs { IsTrue D.tells → IfOk result (λ lister. (run : RunState) → Stands (bytes_in (D.seen disk.old)) run → bridges.StandsFor lister.bridge run) }
        ensures synced { IsTrue D.tells → OnOk result (IsSynced (D.seen disk.old) (D.seen disk.new)) }
        ensures time { IsTrue D.tells
            → EachMoment (KeepsSettled (D.seen disk.old).moments.now) (D.seen disk.old).moments (D.seen disk.new).moments }
        ensures reads { (D.seen disk.new).changes ≡ (D.seen disk.old).changes }
        ensures ends { EndsWith OpenFault.DiskFault (D.seen disk.old) (D.seen disk.new) result }
        ensures cost { IfOk result (λ lister. steps.new ≤ steps.old + opening_cost lister.bridge.store.index) }
    {
        match Bridge::open(alloc, disk) {
            Ok(bridge) => match Lister::over(alloc, bridge, page, steps) {
                Ok(lister) => Ok(lister),
                Err(NoMemory) => Err(OpenFault::NoMemory),
            },
            Err(fault) => Err(fault),
        }
    }

    /// The lister over a bridge, without a session.
    fn over<L: Ledger>(
        alloc: Global,
        bridge: Bridge,
        page: u32,
        steps: &mut Steps<L>,
    ) -> Result<Lister, NoMemory>
        requires { page ≤ LARGEST_PAGE }
        ensures bridge { IfOk result (λ lister. lister.bridge ≡ bridge) }
        ensures begins { IfOk result (λ lister. (run : RunState) → bridges.StandsFor bridge run → StandsFor lister (beginning run)) }
        ensures page { IfOk result (λ lister. lister.page ≡ page) }
        ensures idle { IfOk result (λ lister. lister.saving ≡ None) }
        ensures cost { IfOk result (λ lister. steps.new ≤ steps.old + opening_cost lister.bridge.store.index) }
    {
        let sessions = match Sessions::new(alloc) {
            Ok(sessions) => sessions,
            Err(NoMemory) => {
                bridge.let_go();
                return Err(NoMemory);
            }
        };
        match Mirror::of(alloc, bridge.chain(), steps) {
            Ok(mirror) => Ok(Lister {
                bridge,
                mirror: Some(mirror),
                sessions,
                page,
                saving: None,
            }),
            Err(NoMemory) => {
                bridge.let_go();
                Err(NoMemory)
            }
        }
    }

    /// Connects a block, and takes the mirror along.
    fn connect<D: Disk, L: Ledger, M: Ledger>(
        self,
        alloc: Global,
        disk: &mut D,
        bytes: &[u8],
        reply: &mut ReplyBuf,
        steps: &mut Steps<L>,
        mirror_steps: &mut Steps<M>,
    ) -> ListTurned
        requires within { length bytes.now ≤ LONGEST_BLOCK }
        requires on_disk { IsTrue D.tells → IsListOn self (D.seen disk.old).moments.now }
        ensures answers { AnswersList D.tells D.seen self disk.old (Plain (Do (Connect bytes.now))) reply.new result disk.new }
        ensures cost { IsCheapTurn self (Plain (Do (Connect bytes.now))) reply.new result steps.old steps.new }
        ensures mirror { IsCheapForMirror self (Plain (Do (Connect bytes.now))) result mirror_steps.old mirror_steps.new }
    {
        let Lister {
            bridge,
            mirror,
            sessions,
            page,
            saving,
        } = self;
        match bridge.turn(alloc, disk, ChainCommand::Connect(bytes), reply, steps) {
            Turned::Ended => {
                let_rest_go(mirror, sessions, saving);
                ListTurned::Ended
            }
            Turned::On(bridge) => {
                let mirror = behind_connect(alloc, mirror, reply, bridge.chain(), mirror_steps);
                ListTurned::On(Lister {
                    bridge,
                    mirror,
                    sessions,
                    page,
                    saving,
                })
            }
        }
    }

    /// Disconnects the newest block, and takes the mirror back to where it was before it.
    fn disconnect<D: Disk, L: Ledger, M: Ledger>(
        self,
        alloc: Global,
        disk: &mut D,
        hash: Hash32,
        reply: &mut ReplyBuf,
        steps: &mut Steps<L>,
        mirror_steps: &mut Steps<M>,
    ) -> ListTurned
        requires on_disk { IsTrue D.tells → IsListOn self (D.seen disk.old).moments.now }
        ensures answers { AnswersList D.tells D.seen self disk.old (Plain (Do (Disconnect hash.0))) reply.new result disk.new }
        ensures cost { IsCheapTurn self (Plain (Do (Disconnect hash.0))) reply.new result steps.old steps.new }
        ensures mirror { IsCheapForMirror self (Plain (Do (Disconnect hash.0))) result mirror_steps.old mirror_steps.new }
    {
        let Lister {
            bridge,
            mirror,
            sessions,
            page,
            saving,
        } = self;
        match bridge.turn(alloc, disk, ChainCommand::Disconnect(hash), reply, steps) {
            Turned::Ended => {
                let_rest_go(mirror, sessions, saving);
                ListTurned::Ended
            }
            Turned::On(bridge) => {
                let mirror = behind_disconnect(alloc, mirror, reply, mirror_steps);
                ListTurned::On(Lister {
                    bridge,
                    mirror,
                    sessions,
                    page,
                    saving,
                })
            }
        }
    }

    /// Saves the index, where no save in slices runs.
    fn save<D: Disk>(self, alloc: Global, disk: &mut D, reply: &mut ReplyBuf) -> ListTurned
        requires on_disk { IsTrue D.tells → IsListOn self (D.seen disk.old).moments.now }
        ensures { AnswersList D.tells D.seen self disk.old (Plain Save) reply.new result disk.new }
    {
        if self.saving.is_some() {
            refuse_running(reply);
            return ListTurned::On(self);
        }
        let Lister {
            bridge,
            mirror,
            sessions,
            page,
            saving,
        } = self;
        match bridge.save(alloc, disk, reply) {
            Turned::Ended => {
                let_rest_go(mirror, sessions, saving);
                ListTurned::Ended
            }
            Turned::On(bridge) => ListTurned::On(Lister {
                bridge,
                mirror,
                sessions,
                page,
                saving,
            }),
        }
    }

    /// Answers a message of DNS.
    fn query<D: Disk>(
        self,
        alloc: Global,
        disk: &D,
        transport: Transport,
        message: &[u8],
        reply: &mut ReplyBuf,
    ) -> ListTurned
        requires on_disk { IsTrue D.tells → IsListOn self (D.seen disk.now).moments.now }
        ensures { AnswersList D.tells D.seen self disk.now (Plain (Ask (carrier_of transport) message.now)) reply.new result disk.now }
    {
        let _ = disk;
        let mut lister = self;
        lister.bridge.query(alloc, transport, message, reply);
        ListTurned::On(lister)
    }

    /// Opens a session on the chain as it is.
    fn open_session<D: Disk>(self, disk: &D, reply: &mut ReplyBuf) -> ListTurned
        requires on_disk { IsTrue D.tells → IsListOn self (D.seen disk.now).moments.now }
        ensures { AnswersList D.tells D.seen self disk.now Open reply.new result disk.now }
    {
        let _ = disk;
        let mut lister = self;
        let chain = lister.bridge.chain();
        let (profile, height) = (chain.base().profile, height_of(chain));
        lister
            .sessions
            .open(lister.mirror.as_ref(), profile, height, reply);
        ListTurned::On(lister)
    }

    /// Gives the next page of a session.
    fn turn_page<D: Disk, M: Ledger>(
        self,
        disk: &D,
        number: u32,
        reply: &mut ReplyBuf,
        mirror_steps: &mut Steps<M>,
    ) -> ListTurned
        requires on_disk { IsTrue D.tells → IsListOn self (D.seen disk.now).moments.now }
        ensures answers { AnswersList D.tells D.seen self disk.now (Page number) reply.new result disk.now }
        ensures mirror { IsCheapForMirror self (Page number) result mirror_steps.old mirror_steps.new }
    {
        let _ = disk;
        let mut lister = self;
        lister
            .sessions
            .page(number, lister.page, reply, mirror_steps);
        ListTurned::On(lister)
    }

    /// Closes a session. What it alone held waits to be let go of.
    fn close_session<D: Disk>(
        self,
        disk: &D,
        number: u32,
        reply: &mut ReplyBuf,
        leavings: &mut Leavings,
    ) -> ListTurned
        requires on_disk { IsTrue D.tells → IsListOn self (D.seen disk.now).moments.now }
        ensures answers { AnswersList D.tells D.seen self disk.now (Close number) reply.new result disk.now }
        ensures leavings { total leavings.old ≤ total leavings.new }
    {
        let _ = disk;
        let mut lister = self;
        let rows = lister.sessions.close(number, reply);
        leavings.add_rows(rows);
        ListTurned::On(lister)
    }

    /// Deals with one event, and writes its one reply.
    ///
    /// What a bridge may be asked it answers as a bridge does. An opening has code 0 and the session's number in 4 bytes, low byte first,
    /// code 31 where eight sessions are open, or code FE, want of memory. A page has code 0 and the page, and a close code 0; both have code
    /// 32 where no session of the number is open. None of these three takes a step on the tables or asks anything of the disk, and a page
    /// takes no memory.
    ///
    /// The begin of a save in slices has code 0; code 33 where one runs, then 29 and 30 as a whole save; or code FE. A slice has code 0 with the
    /// byte 0 where bytes are left behind it, and code 0 with the byte 1 and the number of selections in 8 bytes, low byte first, where its
    /// area was selected; code 34 where no save runs; and code 35 where the area would be longer than 2^42 bytes: then the save is given up. It
    /// takes no memory. While a save runs in slices, a whole one has code 33. Neither takes a step on the tables. A fault of the disk is code FD,
    /// as of a command.
    ///
    /// Where memory for the mirror ran out behind a command, that stays accepted, and open sessions and a save that runs go on; then each
    /// later opening, and each later begin, has code FE.
    ///
    /// What a session that is closed, or a save in slices that ends, alone held is let go of behind it, at each event a few parts of it.
    ///
    /// What is done to the mirror, and looked up for it, is counted by steps of its own.
    pub fn turn<D: Disk, L: Ledger, M: Ledger>(
        self,
        alloc: Global,
        disk: &mut D,
        event: ListEvent<'_>,
        reply: &mut ReplyBuf,
        leavings: &mut Leavings,
        steps: &mut Steps<L>,
        mirror_steps: &mut Steps<M>,
    ) -> ListTurned
        requires within { IsListReadable event }
        requires on_disk { IsTrue D.tells → IsListOn self (D.seen disk.old).moments.now }
        ensures answers { AnswersList D.tells D.seen self disk.old (list_event_of event.entry) reply.new result disk.new }
        ensures cost { IsCheapTurn self (list_event_of event.entry) reply.new result steps.old steps.new }
        ensures mirror { IsCheapForMirror self (list_event_of event.entry) result mirror_steps.old mirror_steps.new }
        ensures leavings { LetsGo (list_event_of event.entry) leavings.old leavings.new }
    {
        leavings.let_go();
        self.answered(alloc, disk, event, reply, leavings, steps, mirror_steps)
    }

    /// Deals with it, once some of what waits was let go of.
    fn answered<D: Disk, L: Ledger, M: Ledger>(
        self,
        alloc: Global,
        disk: &mut D,
        event: ListEvent<'_>,
        reply: &mut ReplyBuf,
        leavings: &mut Leavings,
        steps: &mut Steps<L>,
        mirror_steps: &mut Steps<M>,
    ) -> ListTurned
        requires within { IsListReadable event }
        requires on_disk { IsTrue D.tells → IsListOn self (D.seen disk.old).moments.now }
        ensures answers { AnswersList D.tells D.seen self disk.old (list_event_of event.entry) reply.new result disk.new }
        ensures cost { IsCheapTurn self (list_event_of event.entry) reply.new result steps.old steps.new }
        ensures mirror { IsCheapForMirror self (list_event_of event.entry) result mirror_steps.old mirror_steps.new }
        ensures leavings { Adds (list_event_of event.entry) leavings.old leavings.new }
    {
        match event {
            ListEvent::Plain(event) => {
                self.turn_plain(alloc, disk, event, reply, steps, mirror_steps)
            }
            ListEvent::Open => self.open_session(disk, reply),
            ListEvent::Page(number) => self.turn_page(disk, number, reply, mirror_steps),
            ListEvent::Close(number) => self.close_session(disk, number, reply, leavings),
            ListEvent::Begin => self.begin_save(disk, reply),
            ListEvent::Slice(asked) => self.slice(disk, asked, reply, leavings, mirror_steps),
        }
    }

    /// Deals with what a bridge may be asked.
    fn turn_plain<D: Disk, L: Ledger, M: Ledger>(
        self,
        alloc: Global,
        disk: &mut D,
        event: Event<'_>,
        reply: &mut ReplyBuf,
        steps: &mut Steps<L>,
        mirror_steps: &mut Steps<M>,
    ) -> ListTurned
        requires within { IsReadable event }
        requires on_disk { IsTrue D.tells → IsListOn self (D.seen disk.old).moments.now }
        ensures answers { AnswersList D.tells D.seen self disk.old (Plain (event_of event.entry)) reply.new result disk.new }
        ensures cost { IsCheapTurn self (Plain (event_of event.entry)) reply.new result steps.old steps.new }
        ensures mirror { IsCheapForMirror self (Plain (event_of event.entry)) result mirror_steps.old mirror_steps.new }
    {
        match event {
            Event::Do(command) => { self.execute(alloc, disk, command, reply, steps, mirror_steps) }
            Event::Ask(transport, message) => self.query(alloc, disk, transport, message, reply),
            Event::Save => self.save(alloc, disk, reply),
        }
    }

    /// Does a command on the chain.
    fn execute<D: Disk, L: Ledger, M: Ledger>(
        self,
        alloc: Global,
        disk: &mut D,
        command: ChainCommand<'_>,
        reply: &mut ReplyBuf,
        steps: &mut Steps<L>,
        mirror_steps: &mut Steps<M>,
    ) -> ListTurned
        requires within { IsWithinLimits command }
        requires on_disk { IsTrue D.tells → IsListOn self (D.seen disk.old).moments.now }
        ensures answers { AnswersList D.tells D.seen self disk.old (Plain (Do (command_of command.entry))) reply.new result disk.new }
        ensures cost { IsCheapTurn self (Plain (Do (command_of command.entry))) reply.new result steps.old steps.new }
        ensures mirror { IsCheapForMirror self (Plain (Do (command_of command.entry))) result mirror_steps.old mirror_steps.new }
    {
        match command {
            ChainCommand::Connect(bytes) => {
                self.connect(alloc, disk, bytes, reply, steps, mirror_steps)
            }
            ChainCommand::Disconnect(hash) => {
                self.disconnect(alloc, disk, hash, reply, steps, mirror_steps)
            }
        }
    }
}

/// The height of the chain's tip, which is one that a chain may have.
fn height_of(chain: &Chain) -> u32
    ensures same { result ≡ chain.now.tip.height }
    ensures low { result ≤ highest }
{
    // A chain says that it is sound where its parts are looked at.
    let _parts = chain.parts();
    chain.tip().height
}
