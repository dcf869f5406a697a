//! Staging a command on an index, whose commands an area keeps.

ghost use Rattle.chain_commands.specs.RunState.{record_length};
ghost use Rattle.index_commands.specs.ByIndex.{StagesCommandOn};
ghost use Rattle.index_commands.specs.Costs.{IsCheapStage};
ghost use Rattle.index_commands.specs.GivenUp.{GivesUp};
ghost use Rattle.index_commands.specs.Records.{HasSize};
ghost use Rattle.index_commands.specs.Staged.{OfConnect, OfDisconnect};
ghost use Rattle.index_commands.specs.Stages.{StagesCommand, Fits, IsFullWith};
ghost use Rattle.index_commands.specs.Views.{command_of, IsWithinLimits};
ghost use Rattle.std.specs.Prelude.{◌≡◌};

use crate::command::ChainCommand;
use crate::staged::{CommandOutcome, CommandRefusal, StagedCommand};
use block_reader::read_block;
use chain_state::{BackOutcome, Chain, Refusal, StageOutcome};
use nmc_base::Steps;
use std::alloc::Global;
use std::sync::ledger::Ledger;

/// What came of staging a block.
fn of_block(outcome: StageOutcome) -> CommandOutcome
    ensures { OfConnect (λ same. same ≡ outcome) result }
{
    match outcome {
        StageOutcome::Staged(staged) => CommandOutcome::Staged(StagedCommand::Connect(staged)),
        StageOutcome::Refused(chain, refusal) => {
            CommandOutcome::Refused(chain, CommandRefusal::Connect(refusal))
        }
        StageOutcome::NoMemory(chain) => CommandOutcome::NoMemory(chain),
    }
}

/// What came of staging a disconnect.
fn of_hash(outcome: BackOutcome) -> CommandOutcome
    ensures { OfDisconnect (λ same. same ≡ outcome) result }
{
    match outcome {
        BackOutcome::StagedBack(staged) => {
            CommandOutcome::Staged(StagedCommand::Disconnect(staged))
        }
        BackOutcome::Refused(chain, refusal) => {
            CommandOutcome::Refused(chain, CommandRefusal::Disconnect(refusal))
        }
        BackOutcome::NoMemory(chain) => CommandOutcome::NoMemory(chain),
    }
}

/// Stages the command, whatever room an area has for it.
fn stage_anywhere<L: Ledger>(
    alloc: Global,
    chain: Chain,
    command: ChainCommand<'_>,
    steps: &mut Steps<L>,
) -> CommandOutcome
    requires { IsWithinLimits command }
    ensures on_index { StagesCommandOn ⊥ chain command.entry result }
    ensures cost { IsCheapStage chain command.entry result steps.old steps.new }
{
    match command {
        ChainCommand::Connect(bytes) => match read_block(bytes) {
            Ok(block) => of_block(chain.stage(alloc, &block, steps)),
            Err(fault) => {
                let refusal = Refusal::BadBlock { at: fault.at };
                CommandOutcome::Refused(chain, CommandRefusal::Connect(refusal))
            }
        },
        ChainCommand::Disconnect(hash) => of_hash(chain.stage_back(alloc, hash, steps)),
    }
}

/// The outcome where the area has no room: what was staged is given up.
fn give_up<L: Ledger>(outcome: CommandOutcome, steps: &mut Steps<L>) -> CommandOutcome
    ensures { GivesUp outcome result }
{
    match outcome {
        CommandOutcome::Staged(staged) => {
            let full = staged.refusal_if_full();
            CommandOutcome::Refused(staged.abandon(steps), full)
        }
        unstaged => unstaged,
    }
}

/// Stages a command on the chain: of a connect it reads the bytes, all of them, as a block. The journal's area has `area` bytes of
/// `most`.
///
/// Of a connect, bytes that are no block are refused first, by the place in them where no block can go on so; of a disconnect, a
/// chain of the base alone, and then a hash that isn't the tip's. An area without room for the command's record is refused last.
/// `NoMemory` may come in the place of all that isn't found before memory is taken: of `Staged` and a full journal, and of a
/// connect's other Merkle root and broken rule.
pub fn stage<L: Ledger>(
    alloc: Global,
    chain: Chain,
    command: ChainCommand<'_>,
    area: u64,
    most: u64,
    steps: &mut Steps<L>,
) -> CommandOutcome
    requires { IsWithinLimits command }
    ensures stages { StagesCommand area most chain command.entry result }
    ensures on_index { StagesCommandOn (IsFullWith area most (command_of command.entry)) chain command.entry result }
    ensures fits { Fits area most (command_of command.entry) result }
    ensures cost { IsCheapStage chain command.entry result steps.old steps.new }
    // A hash has the 32 bytes of one.
    ensures sized { HasSize (command_of command.entry) }
{
    let is_full = most.saturating_sub(area) < command.record_length();
    let outcome = stage_anywhere(alloc, chain, command, steps);
    if is_full {
        give_up(outcome, steps)
    } else {
        outcome
    }
}
