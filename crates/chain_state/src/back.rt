//! Takes the newest block off, in two steps of which the second can't fail.

ghost use Rattle.std.specs.Prelude.{◌≡◌, ◌+◌, ◌*◌, ◌≤◌, ◌≢◌, []};
ghost use Rattle.chain_state.specs.StageBack.{StagesBack, IsBackCheap, IsDisconnected, back_commit_steps, newest_work};
ghost use Rattle.chain_state.specs.Chain.{SameIndex};
ghost use Rattle.name_tables.specs.Parts.{newest_first};
ghost use Rattle.chain_state.specs.Chain as index;

use crate::chain::Chain;
use crate::whole::Whole;
use crate::work::Work;
use chain_names::Undo;
use name_tables::Tables;
use nmc_base::{Base, Hash32, OutPoint, RoomyList, Steps, Tip};
use std::alloc::Global;
use std::marker::Model;
use std::sync::ledger::Ledger;

/// The disconnect of a chain's newest block, staged: every place that it needs is there.
///
/// Contracts see the index of the chain.
#[derive(Drop)]
pub struct StagedBack {
    base: Base,
    tip: Tip,
    tables: Tables,
    undos: RoomyList<Undo>,
    /// Room for the outpoints whose places it empties.
    empty: RoomyList<OutPoint>,
}

impl Model for StagedBack {
    ghost use Rattle.chain_state.specs.Chain.{Indexed, index_of};
    ghost use Rattle.chain_state.specs.Back.{IsStagedBack};

    ghost Value = { Indexed };

    ghost view = { λ s. index_of s.base s.tip s.tables s.undos };

    ghost invariant = { λ s. IsStagedBack s.base s.tip s.tables s.undos s.empty };
}

/// Why the newest block isn't disconnected.
#[derive(Clone, Copy, PartialEq, Eq, Debug)]
pub enum BackRefusal {
    /// The chain has no block on its base.
    AtBase,
    /// The hash is another than the tip's, which is told.
    NotTip { tip: Hash32 },
    /// The journal has no room for the disconnect's record. An index without a journal has not this refusal.
    JournalFull,
}

/// What came of staging a disconnect. A chain that is handed back is the one that was given.
#[derive(Drop)]
pub enum BackOutcome {
    StagedBack(StagedBack),
    Refused(Chain, BackRefusal),
    NoMemory(Chain),
}

/// The hash of the newest of the blocks that these records undo, or of the base.
pub(crate) fn newest_hash(base: &Base, undos: &[Undo]) -> Hash32
    ensures { result ≡ index.newest_hash base.now (newest_first undos.now) }
{
    match undos.last() {
        Some(undo) => undo.block,
        None => base.hash,
    }
}

impl Chain {
    /// Stages the disconnect of the newest block: makes the places of all that undoing it puts back.
    ///
    /// A chain of the base alone is refused first, and then a hash that isn't the tip's. Memory is taken behind both.
    pub fn stage_back<L: Ledger>(
        self,
        alloc: Global,
        hash: Hash32,
        steps: &mut Steps<L>,
    ) -> BackOutcome
        ensures stages { StagesBack self hash result }
        // With the steps of its commit.
        ensures cost { IsBackCheap self result steps.old steps.new }
    {
        if self.parts.undos.len() == 0 {
            return BackOutcome::Refused(self, BackRefusal::AtBase);
        }
        if hash != self.tip.hash {
            let tip = self.tip.hash;
            return BackOutcome::Refused(self, BackRefusal::NotTip { tip });
        }
        let Chain { base, tip, parts } = self;
        let (tables, undos) = parts.split();
        let mut tables = tables;
        let Some(undo) = undos.as_slice().last() else {
            unreachable!()
        };
        match tables.make_room(alloc, undo.ops.as_slice(), undo.expired.as_slice(), steps) {
            Ok(empty) => BackOutcome::StagedBack(StagedBack {
                base,
                tip,
                tables,
                undos,
                empty,
            }),
            Err(_) => BackOutcome::NoMemory(Chain::joined(base, tip, tables, undos)),
        }
    }
}

impl StagedBack {
    /// The chain without the block. It can't fail, and takes no memory.
    pub fn commit<L: Ledger>(self, steps: &mut Steps<L>) -> Chain
        ensures disconnected { IsDisconnected self result }
        ensures cost { steps.new ≤ steps.old + back_commit_steps self.undos }
    {
        let StagedBack {
            base,
            tip,
            tables,
            undos,
            empty,
        } = self;
        let mut undos = undos;
        let Some(undo) = undos.pop() else {
            unreachable!()
        };
        let work = Work {
            tables,
            ops: undo.ops,
            empty,
            height: tip.height,
        };
        let expired = undo.expired;
        let tables = Whole { work, expired }.abandon(steps);
        let tip = Tip {
            height: tip.height - 1,
            hash: newest_hash(&base, undos.as_slice()),
        };
        Chain::joined(base, tip, tables, undos)
    }

    /// The chain as it was, with the block. It can't fail, and takes no memory.
    pub fn abandon<L: Ledger>(self, steps: &mut Steps<L>) -> Chain
        ensures same { SameIndex result self }
        ensures cost { steps.new ≤ steps.old + 2 * newest_work self.undos }
    {
        let StagedBack {
            base,
            tip,
            tables,
            undos,
            ..
        } = self;
        let mut tables = tables;
        let Some(undo) = undos.as_slice().last() else {
            unreachable!()
        };
        tables.clear(undo.ops.as_slice(), undo.expired.as_slice(), steps);
        Chain::joined(base, tip, tables, undos)
    }

    /// Lets go of what was staged, and of the chain. Call it in the place of dropping them, which each crate would prove anew.
    pub fn let_go(self) {}
}
