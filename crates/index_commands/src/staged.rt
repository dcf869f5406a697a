//! A command that was staged on an index, and what came of staging it.

ghost use Rattle.std.specs.Prelude.{◌≡◌, ◌+◌, ◌≤◌};
ghost use Rattle.index_commands.specs.Staged.{CommitsStaged, AbandonsStaged, steps_of_commit, full_of};

use chain_state::{BackRefusal, Chain, Refusal, StagedBack, StagedChain};
use nmc_base::Steps;
use std::sync::ledger::Ledger;

/// A command that was staged: the index takes it, and has all the memory that it wants. It is committed, abandoned or let go.
pub enum StagedCommand {
    Connect(StagedChain),
    Disconnect(StagedBack),
}

/// Why a command is refused.
#[derive(Clone, Copy, Debug, PartialEq, Eq)]
pub enum CommandRefusal {
    Connect(Refusal),
    Disconnect(BackRefusal),
}

/// What came of staging a command. An index that is handed back is the one that was given.
pub enum CommandOutcome {
    Staged(StagedCommand),
    Refused(Chain, CommandRefusal),
    NoMemory(Chain),
}

impl StagedCommand {
    /// The index behind the command. It can't fail, and takes no memory.
    pub fn commit<L: Ledger>(self, steps: &mut Steps<L>) -> Chain
        ensures commits { CommitsStaged self result }
        ensures cost { steps.new ≤ steps.old + steps_of_commit self }
    {
        match self {
            StagedCommand::Connect(staged) => staged.commit(steps),
            StagedCommand::Disconnect(staged) => staged.commit(steps),
        }
    }

    /// The index as it was before. It can't fail, and takes no memory.
    pub fn abandon<L: Ledger>(self, steps: &mut Steps<L>) -> Chain
        ensures { AbandonsStaged self result }
    {
        match self {
            StagedCommand::Connect(staged) => staged.abandon(steps),
            StagedCommand::Disconnect(staged) => staged.abandon(steps),
        }
    }

    /// Lets go of what was staged, and of the index. Call it in the place of dropping them, which each crate would prove anew.
    pub fn let_go(self) {
        match self {
            StagedCommand::Connect(staged) => staged.let_go(),
            StagedCommand::Disconnect(staged) => staged.let_go(),
        }
    }

    /// Its refusal where the journal is full.
    pub(crate) fn refusal_if_full(&self) -> CommandRefusal
        ensures { result ≡ full_of self.now }
    {
        match self {
            StagedCommand::Connect(_) => CommandRefusal::Connect(Refusal::JournalFull),
            StagedCommand::Disconnect(_) => CommandRefusal::Disconnect(BackRefusal::JournalFull),
        }
    }
}
