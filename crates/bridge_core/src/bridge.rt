//! The bridge: a store, and what it answers messages by.

ghost use Rattle.std.specs.Prelude.{◌≡◌, IsTrue, IfOk, OnOk};
ghost use Rattle.disk_model.specs.Changes.{KeepsSettled};
ghost use Rattle.disk_model.specs.Moments.{EachMoment};
ghost use Rattle.disk_model.specs.DiskSeen.{EndsWith, bytes_in};
ghost use Rattle.chain_commands.specs.Event.{Do, Save};
ghost use Rattle.chain_commands.specs.RunState.{RunState};
ghost use Rattle.kept_answers.specs.Answering.{none_kept};
ghost use Rattle.name_report.specs.Counts.{AreCounts};
ghost use Rattle.name_report.specs.Report.{Reports, reported_by};
ghost use Rattle.name_store.specs.Opening.{IsSynced, OpenAnswer};
ghost use Rattle.name_store.specs.Stands.{Stands};
ghost use Rattle.name_store.specs.Stored as stores;
ghost use Rattle.name_store.specs.Stored.{IsOn};
ghost use Rattle.bridge_core.specs.Bridged.{StandsFor};
ghost use Rattle.bridge_core.specs.Bridge.{AnswersEvent, AnswersQuery, IsCheapTurn};
ghost use Rattle.bridge_core.specs.Growing.{GrowsOn, AddsOn};
ghost use Rattle.bridge_core.specs.Opening.{store_in};
ghost use Rattle.bridge_core.specs.Reporting.{reported_of};
ghost use Rattle.bridge_core.specs.Views.{carrier_of};
ghost use Rattle.index_commands.specs.Views.{command_of, IsWithinLimits};

use crate::desk::Desk;
use crate::replies::{accept, lack_memory, refuse, refuse_save, tell_fault, tell_saved};
use byte_io::Sink;
use chain_state::Chain;
use disk_model::Disk;
use dns_message::Transport;
use frame_loop::ReplyBuf;
use index_commands::ChainCommand;
use kept_answers::Cache;
use name_report::{NameCounts, ReportFault, count_names, report};
use name_store::{OpenFault, Outcome, Store};
use nmc_base::{NoMemory, Steps, Tip};
use std::alloc::Global;
use std::marker::Model;
use std::sync::ledger::Ledger;

/// The bridge over a chain of blocks, whose commands and saves are kept in the files of a disk. Contracts see its store, and the answers
/// that it keeps. It holds no disk.
#[derive(Drop)]
pub struct Bridge {
    pub(crate) store: Store,
    pub(crate) desk: Desk,
}

impl Model for Bridge {
    ghost use Rattle.bridge_core.specs.Bridged.{Bridged};

    ghost Value = { Bridged };

    ghost view = { λ b. record { store = b.store; answers = b.desk } };
}

/// What came of a turn: the bridge goes on, or a fault of the disk has ended it. Then open the files again.
#[derive(Drop)]
pub enum Turned {
    On(Bridge),
    Ended,
}

impl Bridge {
    /// The height of the newest block, or of the base.
    pub fn height(&self) -> u32 {
        self.store.chain().tip().height
    }

    /// The newest block, or the base.
    pub fn tip(&self) -> Tip
        ensures { result ≡ self.now.store.index.tip }
    {
        self.store.chain().tip()
    }

    /// The index of the chain.
    pub fn chain(&self) -> &Chain
        ensures { result.now ≡ self.now.store.index }
    {
        self.store.chain()
    }

    /// How many names have an entry, and how many of these are served.
    pub fn count_names(&self, alloc: Global) -> Result<NameCounts, NoMemory>
        ensures { IfOk result (λ counts. AreCounts (reported_by self.now.store.index) counts) }
    {
        count_names(alloc, self.store.chain())
    }

    /// Opens the files: the bridge stands for the run state that they stand for. It writes nothing and cuts nothing, and syncs
    /// each of the three files. The room for replies is taken before, and so is that of the answers that are kept: it has none yet.
    pub fn open<D: Disk>(alloc: Global, disk: &mut D) -> Result<Bridge, OpenFault>
        ensures answer { IsTrue D.tells → OpenAnswer (bytes_in (D.seen disk.old)) (D.seen disk.new).moments.now (store_in result) }
        ensures empty { IfOk result (λ bridge. bridge.answers ≡ none_kept) }
        ensures runs { IsTrue D.tells → IfOk result (λ bridge. (run : RunState) → Stands (bytes_in (D.seen disk.old)) run → StandsFor bridge run) }
        ensures synced { IsTrue D.tells → OnOk result (IsSynced (D.seen disk.old) (D.seen disk.new)) }
        ensures time { IsTrue D.tells
            → EachMoment (KeepsSettled (D.seen disk.old).moments.now) (D.seen disk.old).moments (D.seen disk.new).moments }
        ensures reads { (D.seen disk.new).changes ≡ (D.seen disk.old).changes }
        ensures ends { EndsWith OpenFault.DiskFault (D.seen disk.old) (D.seen disk.new) result }
    {
        let desk = match Desk::new(alloc) {
            Ok(desk) => desk,
            Err(NoMemory) => return Err(OpenFault::NoMemory),
        };
        match Store::open(alloc, disk) {
            Ok(store) => Ok(Bridge { store, desk }),
            Err(fault) => Err(fault),
        }
    }

    /// Does a command on the chain, and writes its one reply.
    ///
    /// Of a connect, code 1 answers bytes that are no block, code 2 a block that isn't on the tip, code 4 a block on the
    /// greatest height, code 3 one whose Merkle root is another one, codes 10 to 28 one with a transaction that breaks a
    /// rule on names, and code 5 one for whose record the area has no room, in this order. Of a disconnect, code 7 answers
    /// where no block stands on the base, then code 6 a hash that isn't the newest block's, and then code 5.
    ///
    /// Code FE, want of memory, may stand in the place of codes 0 and 5, and of a connect's codes 3 and 10 to 28. Then
    /// nothing has changed, and the disk wasn't asked, as with each refusal.
    ///
    /// Code FD, a fault of the disk, ends the bridge: the last call of the disk failed. A crash at any moment, and such a fault,
    /// leave files that stand for what was there before the command, or for that with it; behind code 0 they stand for that with
    /// it. No file but the selected area has changed.
    pub fn turn<D: Disk, L: Ledger>(
        self,
        alloc: Global,
        disk: &mut D,
        command: ChainCommand<'_>,
        reply: &mut ReplyBuf,
        steps: &mut Steps<L>,
    ) -> Turned
        requires within { IsWithinLimits command }
        requires on_disk { IsTrue D.tells → IsOn self.store (D.seen disk.old).moments.now }
        ensures answers { AnswersEvent D.tells D.seen self disk.old (Do (command_of command.entry)) reply.new result disk.new }
        ensures grows { GrowsOn (command_of command.entry) self.store reply.new result }
        ensures adds { IsTrue D.tells → AddsOn (command_of command.entry) self.store (D.seen disk.old) (D.seen disk.new) reply.new result }
        ensures cost { IsCheapTurn self.store (command_of command.entry) reply.new result steps.old steps.new }
    {
        let Bridge { store, mut desk } = self;
        match store.execute(alloc, disk, command, steps) {
            Outcome::Done(store, tip) => {
                accept(reply, &tip);
                desk.outdate();
                Turned::On(Bridge { store, desk })
            }
            Outcome::Refused(store, refusal) => {
                refuse(reply, &refusal);
                Turned::On(Bridge { store, desk })
            }
            Outcome::NoMemory(store) => {
                lack_memory(reply);
                Turned::On(Bridge { store, desk })
            }
            Outcome::Faulted => {
                tell_fault(reply);
                Turned::Ended
            }
        }
    }

    /// Saves the index, so that the files need none of the blocks that were connected so far, and writes the one reply: code 0, and
    /// how many saves were selected since the files were made, in 8 bytes, low byte first.
    ///
    /// Code 29 answers where as many saves were selected as may be, and then code 30 an image that is longer than may be. Code FE,
    /// want of memory, may stand in the place of codes 0 and 30. Then nothing has changed, and the disk wasn't asked, as with each
    /// refusal.
    ///
    /// Code FD, a fault of the disk, ends the bridge: the last call of the disk failed. A crash at any moment, and such a fault,
    /// leave files that stand for what was there before the save, or for what it makes of that; behind code 0 they stand for the
    /// latter. Both have the same chain, and the area that was selected before stays as it was. It writes the whole index: meanwhile
    /// nothing else is answered.
    pub fn save<D: Disk>(self, alloc: Global, disk: &mut D, reply: &mut ReplyBuf) -> Turned
        requires on_disk { IsTrue D.tells → IsOn self.store (D.seen disk.old).moments.now }
        ensures { AnswersEvent D.tells D.seen self disk.old Save reply.new result disk.new }
    {
        let Bridge { store, desk } = self;
        match store.save(alloc, disk) {
            Outcome::Done(store, number) => {
                tell_saved(reply, number);
                Turned::On(Bridge { store, desk })
            }
            Outcome::Refused(store, refusal) => {
                refuse_save(reply, refusal);
                Turned::On(Bridge { store, desk })
            }
            Outcome::NoMemory(store) => {
                lack_memory(reply);
                Turned::On(Bridge { store, desk })
            }
            Outcome::Faulted => {
                tell_fault(reply);
                Turned::Ended
            }
        }
    }

    /// The cache of answers, with its counts.
    pub fn cache(&self) -> &Cache
        ensures { result.now ≡ self.now.answers.cache }
    {
        self.desk.cache()
    }

    /// Answers a message of DNS, which came by this transport, from the names that the chain serves, or from an answer to those
    /// who asked the same before. Code 8 is that of one that gets no reply, and code 0 of all others, whose reply is the payload,
    /// SERVFAIL for want of memory. It asks nothing of the disk.
    pub fn query(
        &mut self,
        alloc: Global,
        transport: Transport,
        message: &[u8],
        reply: &mut ReplyBuf,
    )
        ensures { AnswersQuery self.old (carrier_of transport) message.now reply.new self.new }
    {
        self.desk
            .answer(alloc, &self.store, transport, message, reply);
    }

    /// Gives the report of the chain to the sink: its tip, and each name with all that it was given. All memory is taken
    /// before the first write.
    pub fn report<K: Sink>(&self, alloc: Global, sink: &mut K) -> Result<(), ReportFault>
        ensures index { Reports (reported_by self.now.store.index) (K.seen sink.old) (K.seen sink.new) result }
        ensures runs { (run : RunState) → stores.StandsFor self.now.store run → Reports (reported_of run) (K.seen sink.old) (K.seen sink.new) result }
    {
        report(alloc, self.store.chain(), sink)
    }
    /// Lets go of a bridge that is of no use. Call it in the place of dropping it, which each crate would prove anew.
    pub fn let_go(self) {
        self.store.let_go();
    }
}
