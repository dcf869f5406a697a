//! The index of a chain, with the files of a disk that keep its commands and saves.

ghost use Rattle.std.specs.Prelude.{◌≡◌, ◌≤◌, IsTrue};
ghost use Rattle.chain_commands.specs.RunState.{longest_area};
ghost use Rattle.disk_model.specs.Changes.{LeavesOthers};
ghost use Rattle.index_commands.specs.Stages.{IsFullWith};
ghost use Rattle.index_commands.specs.Views.{command_of, IsWithinLimits};
ghost use Rattle.name_store.specs.ByIndex.{ExecutesOn};
ghost use Rattle.name_store.specs.Executing.{Executes, IsCheapIfDone};
ghost use Rattle.name_store.specs.Growing.{Grows, AddsRecord};
ghost use Rattle.name_store.specs.Outcomes.{Adds, IfUndone, LeavesDisk, KeepsOn};
ghost use Rattle.name_store.specs.Stored.{IsOn, area_file};
ghost use Rattle.name_store.specs.declared.limits.TheConstants.{EMPTY_AREA, SLOT_LIMITS};

use chain_state::Chain;
use disk_model::Disk;
use domain_text::Name;
use image_slots::Slots;
use index_commands::{ChainCommand, CommandOutcome, CommandRefusal, LONGEST_AREA, keep, stage};
use nmc_base::{Steps, Tip};
use std::alloc::Global;
use std::marker::Model;
use std::sync::ledger::Ledger;

/// An index whose commands and saves are kept in the files of a disk. Contracts see the index, the wire form of its base's host, the
/// selections and the length of the selected area in bytes. It holds no disk.
#[derive(Drop)]
pub struct Store {
    pub(crate) chain: Chain,
    pub(crate) host: Name,
    pub(crate) slots: Slots,
    pub(crate) area: u64,
}

impl Model for Store {
    ghost use Rattle.std.specs.Prelude.{◌≡◌, ◌≤◌};
    ghost use Rattle.chain_commands.specs.RunState.{longest_area};
    ghost use Rattle.name_store.specs.Stored.{Stored};
    ghost use Rattle.name_store.specs.declared.limits.TheConstants.{EMPTY_AREA, SLOT_LIMITS};

    ghost Value = { Stored };

    ghost view = { λ s. record { index = s.chain; host = s.host; slots = s.slots; area = s.area } };

    ghost invariant = { λ s. (EMPTY_AREA ≤ s.area) × (s.area ≤ longest_area) × (s.slots.limits ≡ SLOT_LIMITS) };
}

/// What came of a request, whose refusals are of the type `R`. A store that is handed back with one of them, or for want of
/// memory, stands for what it stood for. A fault of the disk hands none back: open the files again.
#[derive(Drop)]
pub enum Outcome<T, R> {
    /// It was done, and this is told of it: of a command the tip now.
    Done(Store, T),
    Refused(Store, R),
    NoMemory(Store),
    Faulted,
}

impl Store {
    /// The store of these parts.
    pub(crate) fn of(chain: Chain, host: Name, slots: Slots, area: u64) -> Store
        requires some { EMPTY_AREA ≤ area }
        requires within { area ≤ longest_area }
        requires limits { slots.limits ≡ SLOT_LIMITS }
        ensures { result ≡ record { index = chain; host = host; slots = slots; area = area } }
    {
        Store {
            chain,
            host,
            slots,
            area,
        }
    }

    /// The index.
    pub fn chain(&self) -> &Chain
        ensures { result.now ≡ self.now.index }
    {
        &self.chain
    }

    /// The name of the base's host.
    pub fn host(&self) -> &Name
        ensures { result.now ≡ self.now.host }
    {
        &self.host
    }

    /// What a command came to that was done.
    fn done<R>(chain: Chain, host: Name, slots: Slots, area: u64) -> Outcome<Tip, R>
        requires some { EMPTY_AREA ≤ area }
        requires within { area ≤ longest_area }
        requires limits { slots.limits ≡ SLOT_LIMITS }
        ensures { result ≡ Outcome.Done (record { index = chain; host = host; slots = slots; area = area }) chain.tip }
    {
        let tip = chain.tip();
        Outcome::Done(Store::of(chain, host, slots, area), tip)
    }

    /// Executes a command: stages it, keeps it in the area, and then changes the index. A connect's block joins the chain, a
    /// disconnect's newest block leaves it.
    ///
    /// The refusals are those of the machine, that of a full area last. Where the command is refused, and where memory is
    /// wanting, the disk isn't asked. A crash at any moment leaves files that stand for the run state before or after, and the
    /// other two files as they were.
    pub fn execute<D: Disk, L: Ledger>(
        self,
        alloc: Global,
        disk: &mut D,
        command: ChainCommand<'_>,
        steps: &mut Steps<L>,
    ) -> Outcome<Tip, CommandRefusal>
        requires within { IsWithinLimits command }
        requires on_disk { IsTrue D.tells → IsOn self (D.seen disk.old).moments.now }
        ensures executes { Executes longest_area self command.entry result }
        ensures on_index { ExecutesOn (IsFullWith self.area longest_area (command_of command.entry)) self.index command.entry result }
        ensures undone { IfUndone (disk.new ≡ disk.old) result }
        ensures leaves { LeavesDisk D.tells (LeavesOthers (area_file self)) (D.seen disk.old) (D.seen disk.new) result }
        ensures kept { KeepsOn D.tells self (Adds (command_of command.entry)) (D.seen disk.old) (D.seen disk.new) result }
        ensures grows { Grows (command_of command.entry) self result }
        ensures adds { IsTrue D.tells → AddsRecord (command_of command.entry) self (D.seen disk.old) (D.seen disk.new) result }
        ensures cost { IsCheapIfDone self.index command.entry result steps.old steps.new }
    {
        self.execute_within(alloc, disk, command, LONGEST_AREA, steps)
    }

    /// The same, where an area has no more bytes than `longest`.
    pub fn execute_within<D: Disk, L: Ledger>(
        self,
        alloc: Global,
        disk: &mut D,
        command: ChainCommand<'_>,
        longest: u64,
        steps: &mut Steps<L>,
    ) -> Outcome<Tip, CommandRefusal>
        requires within { IsWithinLimits command }
        requires longest { longest ≤ longest_area }
        requires on_disk { IsTrue D.tells → IsOn self (D.seen disk.old).moments.now }
        ensures executes { Executes longest self command.entry result }
        ensures on_index { ExecutesOn (IsFullWith self.area longest (command_of command.entry)) self.index command.entry result }
        ensures undone { IfUndone (disk.new ≡ disk.old) result }
        ensures leaves { LeavesDisk D.tells (LeavesOthers (area_file self)) (D.seen disk.old) (D.seen disk.new) result }
        ensures kept { KeepsOn D.tells self (Adds (command_of command.entry)) (D.seen disk.old) (D.seen disk.new) result }
        ensures grows { Grows (command_of command.entry) self result }
        ensures adds { IsTrue D.tells → AddsRecord (command_of command.entry) self (D.seen disk.old) (D.seen disk.new) result }
        ensures cost { IsCheapIfDone self.index command.entry result steps.old steps.new }
    {
        let Store {
            chain,
            host,
            slots,
            area,
        } = self;
        let staged = match stage(alloc, chain, command, area, longest, steps) {
            CommandOutcome::Staged(staged) => staged,
            CommandOutcome::Refused(chain, refusal) => {
                let store = Store {
                    chain,
                    host,
                    slots,
                    area,
                };
                return Outcome::Refused(store, refusal);
            }
            CommandOutcome::NoMemory(chain) => {
                return Outcome::NoMemory(Store {
                    chain,
                    host,
                    slots,
                    area,
                });
            }
        };
        let file = slots.selected();
        match keep(disk, file, area, command, longest) {
            Ok(area) => Store::done(staged.commit(steps), host, slots, area),
            Err(_) => {
                staged.let_go();
                Outcome::Faulted
            }
        }
    }

    /// Lets go of a store that is of no use. Call it in the place of dropping it, which each crate would prove anew.
    pub fn let_go(self) {
        self.chain.let_go();
    }
}
