//! The chain of a trial, behind one owner: what goes on with it borrows that, so that no way out of a trial drops a chain.

ghost use Rattle.std.specs.Prelude.{◌≤◌};
ghost use Rattle.nmc_base.specs.declared.limits.TheConstants.{HIGHEST_HEIGHT};

use super::stop::Stop;
use chain_state::{BackRefusal, Chain, Refusal};
use index_commands::{ChainCommand, CommandOutcome, CommandRefusal, stage};
use nmc_base::{Base, LONGEST_BLOCK, Steps, Tip};
use std::alloc::Global;
use std::sync::ledger::Ledger;

/// The number of a refusal, and the index of its transaction or the place in the bytes. Both are 0 where the block is
/// connected.
pub type Answer = (u8, u32);

/// The answer where there was no memory to connect a block.
pub const NO_MEMORY: Answer = (0xFE, 0);

/// The bytes of an area without commands, and the most of one.
const AREA: (u64, u64) = (9, 1 << 42);

/// The chain, or none where it was lost.
#[derive(Drop)]
pub struct Held {
    chain: Option<Chain>,
}

/// The one place where a chain is let go.
pub fn let_go(_: Held) {}

fn answer_to(refusal: &CommandRefusal) -> Answer {
    match refusal {
        CommandRefusal::Connect(refusal) => answer_to_block(refusal),
        CommandRefusal::Disconnect(BackRefusal::NotTip { .. }) => (6, 0),
        CommandRefusal::Disconnect(BackRefusal::AtBase) => (7, 0),
        CommandRefusal::Disconnect(BackRefusal::JournalFull) => (5, 0),
    }
}

fn answer_to_block(refusal: &Refusal) -> Answer {
    match refusal {
        Refusal::BadBlock { at } => (1, *at),
        Refusal::NotOnTip { .. } => (2, 0),
        Refusal::MerkleMismatch { .. } => (3, 0),
        Refusal::HeightLimit => (4, 0),
        Refusal::JournalFull => (5, 0),
        Refusal::Rule { tx, refusal } => (refusal.number(), *tx),
    }
}

/// The chain behind a command, and the answer.
fn settled<L: Ledger>(outcome: CommandOutcome, steps: &mut Steps<L>) -> (Chain, Answer) {
    match outcome {
        CommandOutcome::Staged(staged) => (staged.commit(steps), (0, 0)),
        CommandOutcome::Refused(chain, refusal) => (chain, answer_to(&refusal)),
        CommandOutcome::NoMemory(chain) => (chain, NO_MEMORY),
    }
}

impl Held {
    /// A chain of the base alone.
    pub fn at_base(alloc: Global, base: Base) -> Result<Held, Stop>
        requires { base.height ≤ HIGHEST_HEIGHT }
    {
        match Chain::at_base(alloc, base) {
            Ok(chain) => Ok(Held::of(chain)),
            Err(_) => Err(Stop::NoMemory),
        }
    }

    /// This chain.
    pub fn of(chain: Chain) -> Held {
        Held { chain: Some(chain) }
    }

    fn chain(&self) -> Result<&Chain, Stop> {
        match &self.chain {
            Some(chain) => Ok(chain),
            None => Err(Stop::Wrong("a chain")),
        }
    }

    /// The newest block, or the base.
    pub fn tip(&self) -> Result<Tip, Stop> {
        Ok(self.chain()?.tip())
    }

    /// The height of the tip.
    pub fn height(&self) -> Result<u32, Stop> {
        Ok(self.tip()?.height)
    }

    /// Whether this value is served for the name.
    pub fn serves(&self, name: &[u8], value: &[u8]) -> Result<bool, Stop> {
        match self.chain()?.live(name) {
            Some(live) => Ok(live == value),
            None => Ok(false),
        }
    }

    fn take(&mut self) -> Result<Chain, Stop> {
        match self.chain.take() {
            Some(chain) => Ok(chain),
            None => Err(Stop::Wrong("a chain")),
        }
    }

    fn put(&mut self, chain: Chain) {
        let before = self.chain.replace(chain);
        let_go(Held { chain: before });
    }

    /// Connects the bytes of a block, and tells the answer.
    pub fn connect<L: Ledger>(
        &mut self,
        alloc: Global,
        bytes: &[u8],
        steps: &mut Steps<L>,
    ) -> Result<Answer, Stop> {
        if bytes.len() > LONGEST_BLOCK {
            return Err(Stop::Wrong("too long"));
        }
        let chain = self.take()?;
        let command = ChainCommand::Connect(bytes);
        let outcome = stage(alloc, chain, command, AREA.0, AREA.1, steps);
        let (chain, answer) = settled(outcome, steps);
        self.put(chain);
        Ok(answer)
    }

    /// Disconnects the newest block, and tells whether there was memory for it.
    pub fn disconnect<L: Ledger>(
        &mut self,
        alloc: Global,
        steps: &mut Steps<L>,
    ) -> Result<bool, Stop> {
        let chain = self.take()?;
        let hash = chain.tip().hash;
        let command = ChainCommand::Disconnect(hash);
        let outcome = stage(alloc, chain, command, AREA.0, AREA.1, steps);
        let (chain, answer) = settled(outcome, steps);
        self.put(chain);
        Ok(answer != NO_MEMORY)
    }
}
