//! Following a command that was kept.
ghost use Rattle.std.specs.Prelude.{◌≡◌, Err};
ghost use Rattle.index_commands.specs.Following.{FollowsRecord, Commits};

use crate::command::read_command;
use crate::staged::CommandOutcome;
use crate::staging::stage;
use chain_state::Chain;
use nmc_base::Steps;
use std::alloc::Global;
use std::sync::ledger::Ledger;

/// Why a record was not followed.
#[derive(Clone, Copy, Debug, PartialEq, Eq)]
pub enum Unfollowed {
    /// It is that of no command that the index takes.
    Refused,

    /// There was no memory for what it does.
    NoMemory,
}

/// Lets go of the index.
fn without_chain(chain: Chain, why: Unfollowed) -> Result<Chain, Unfollowed>
    ensures { result ≡ Err why }
{
    chain.let_go();
    Err(why)
}

/// The index with the command that was staged. One that was handed back is let go.
fn committed<L: Ledger>(outcome: CommandOutcome, steps: &mut Steps<L>) -> Result<Chain, Unfollowed>
    ensures { Commits outcome result }
{
    match outcome {
        CommandOutcome::Staged(staged) => Ok(staged.commit(steps)),
        CommandOutcome::Refused(chain, _) => without_chain(chain, Unfollowed::Refused),
        CommandOutcome::NoMemory(chain) => without_chain(chain, Unfollowed::NoMemory),
    }
}

/// The index behind the command whose record these bytes are. It is let go where the record isn't followed.
pub fn follow<L: Ledger>(
    alloc: Global,
    chain: Chain,
    bytes: &[u8],
    steps: &mut Steps<L>,
) -> Result<Chain, Unfollowed>
    ensures { FollowsRecord chain bytes.now result }
{
    match read_command(bytes) {
        Some(command) => {
            let outcome = stage(alloc, chain, command, 0, u64::MAX, steps);
            committed(outcome, steps)
        }
        None => without_chain(chain, Unfollowed::Refused),
    }
}
