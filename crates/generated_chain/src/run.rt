//! Rounds of a run.

ghost use Rattle.std.specs.Prelude.{◌≡◌, ◌+◌, ◌%◌, ◌==◌, ◌<◌, ◌≤◌, length, IfOk, OnOk, OnErr};
ghost use Rattle.nmc_base.specs.Heights.{highest};
ghost use Rattle.nmc_base.specs.declared.limits.TheConstants.{LONGEST_BLOCK};
ghost use Rattle.generated_chain.specs.Stands.{stand_behind};
ghost use Rattle.generated_chain.specs.Blocks.{run_base, run_host};
ghost use Rattle.generated_chain.specs.Events.{round_on, round_at};

use crate::block::{block_with, ends_of};
use crate::draw::{NAMES, next_state, number_drawn};
use crate::stand::{Stand, made_at};
use crate::texts::query_text;
use nmc_base::{Base, Bytes, Hash32, NoMemory, Profile, Tip};
use std::alloc::Global;
use std::marker::Model;

/// A block that is connected to the chain of those before it, and what follows.
#[derive(Drop)]
pub struct Round {
    /// The bytes of the block.
    pub block: Bytes,
    /// Its hash, in the order of blocks.
    pub hash: Hash32,
    /// Whether it is disconnected then, and connected again.
    pub reconnects: bool,
    /// Whether a save follows.
    pub saves: bool,
    /// The query that is asked twice in the end, over UDP.
    pub query: Bytes,
}

/// A large run, of which everything is told by its seed. Contracts see the seed, and the number of rounds so far.
#[derive(Drop)]
pub struct Run {
    seed: u64,
    state: u64,
    tip: Tip,
    stands: [Stand; NAMES],
}

impl Model for Run {
    ghost use Rattle.generated_chain.specs.Place.{Place};

    ghost Value = { Place };

    ghost use Rattle.generated_chain.specs.Holding.{place_of, Holds};

    ghost view = { place_of };

    ghost invariant = { Holds };
}

/// Whether the block at a height leaves the chain and joins it again.
fn reconnects(height: u32) -> bool
    ensures { result ≡ (height % 20 == 0) }
{
    height % 20 == 0
}

/// Whether a save follows the block at a height.
fn saves(height: u32) -> bool
    ensures { result ≡ (height % 50 == 0) }
{
    height % 50 == 0
}

/// The round of the block on the tip that is about the name, and how this name stands behind it.
fn round_of(alloc: Global, tip: Tip, number: u8, stand: &Stand) -> Result<(Round, Stand), NoMemory>
    requires { tip.height < highest }
    ensures round { IfOk result (λ made. made.0 ≡ round_on tip number stand.now) }
    ensures stand { IfOk result (λ made. made.1 ≡ stand_behind (tip.height + 1) number stand.now) }
    ensures short { IfOk result (λ made. length made.0.block ≤ LONGEST_BLOCK) }
{
    let height = tip.height + 1;
    let deed = stand.deed(height);
    let block = block_with(alloc, tip, number, &deed)?;
    let (hash, output) = ends_of(alloc, block.as_slice())?;
    let query = query_text(alloc, height, number)?;
    let round = Round {
        block,
        hash,
        reconnects: reconnects(height),
        saves: saves(height),
        query,
    };
    Ok((round, stand.behind(&deed, made_at(height, output))))
}

impl Run {
    /// Where each run starts.
    pub fn base() -> Base
        ensures { result ≡ run_base }
    {
        Base {
            profile: Profile::Regtest,
            height: 0,
            hash: Hash32([0; 32]),
        }
    }

    /// The host text of its index.
    pub fn host() -> &'static [u8]
        ensures { result.now ≡ run_host }
    {
        b"ns.example."
    }

    /// The run of a seed, before its first round.
    pub fn new(seed: u64) -> Run
        ensures { result ≡ record { seed = seed; rounds = 0 } }
    {
        let Base { height, hash, .. } = Run::base();
        Run {
            seed,
            state: seed,
            tip: Tip { height, hash },
            stands: [Stand::UNKNOWN; NAMES],
        }
    }

    /// The next round. `NoMemory` is the only other answer, and then nothing has changed.
    pub fn next(&mut self, alloc: Global) -> Result<Round, NoMemory>
        requires { self.old.rounds < highest }
        ensures round { IfOk result (λ round. round ≡ round_at self.old.seed self.old.rounds) }
        // The block is no longer than one may be, and the query no longer than a datagram without an OPT (RFC 1035, 4.2.1).
        ensures block_fits { IfOk result (λ round. length round.block ≤ LONGEST_BLOCK) }
        ensures query_fits { IfOk result (λ round. length round.query ≤ 512) }
        ensures ok { OnOk result (self.new ≡ record { seed = self.old.seed; rounds = self.old.rounds + 1 }) }
        ensures err { OnErr result (self.new ≡ self.old) }
    {
        let state = next_state(self.state);
        let number = number_drawn(state);
        let stand = self.stands[number as usize];
        let (round, stand) = round_of(alloc, self.tip, number, &stand)?;
        self.state = state;
        self.tip = Tip {
            height: self.tip.height + 1,
            hash: round.hash,
        };
        self.stands[number as usize] = stand;
        Ok(round)
    }
}
