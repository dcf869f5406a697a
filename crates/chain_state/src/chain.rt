//! The index of a chain.

ghost use Rattle.std.specs.Prelude.{◌≡◌, ◌+◌, ◌≤◌, IfOk};
ghost use Rattle.nmc_base.specs.declared.limits.TheConstants.{HIGHEST_HEIGHT};
ghost use Rattle.name_tables.specs.Tables.{AreFilled};
ghost use Rattle.block_grammar.specs.Block.{Block};
ghost use Rattle.chain_state.specs.Chain.{Indexed, IsAtBase, indexed_of, kept_tip, IsIndexed, SameIndex, IsStagedOn, IsConnected, IsAbandoned, ArePartsOf, index_of};
ghost use Rattle.name_tables.specs.Parts.{newest_first, tables_of};
ghost use Rattle.std.specs.List.{AllByRecursion};
ghost use Rattle.chain_names.specs.Limits.{IsWithinLimits};
ghost use Rattle.chain_names.specs.Sound.{IsSound};
ghost use Rattle.chain_names.specs.Tables.{coins_in, queued_in, queue_of};
ghost use Rattle.name_tables.specs.Tables.{maps_by};
ghost use Rattle.chain_state.specs.Stage.{abandon_steps, commit_steps};

use crate::back::newest_hash;
use crate::whole::Whole;
use chain_names::Undo;
use name_tables::{Parts, Tables};
use nmc_base::{Base, Hash32, NoMemory, RoomyList, Steps, Tip};
use std::alloc::Global;
use std::marker::Model;
use std::sync::ledger::Ledger;

/// The index of a chain: which coins and names its blocks left, and what undoes each of them.
#[derive(Drop)]
pub struct Chain {
    pub(crate) base: Base,
    pub(crate) tip: Tip,
    pub(crate) parts: Parts,
}

impl Model for Chain {
    ghost use Rattle.chain_state.specs.Chain.{Indexed, IsIndexed, indexed_of};

    ghost Value = { Indexed };

    ghost view = { λ c. indexed_of c.base c.tip c.parts };

    ghost invariant = { λ c. IsIndexed (indexed_of c.base c.tip c.parts) };
}

/// A block that was staged on a chain: the chain with it is there, and so is what undoes it.
#[derive(Drop)]
pub struct StagedChain {
    pub(crate) base: Base,
    pub(crate) tip: Tip,
    pub(crate) hash: Hash32,
    pub(crate) whole: Whole,
    /// What undoes the blocks below it, with room for one more.
    pub(crate) undos: RoomyList<Undo>,
}

impl Model for StagedChain {
    ghost use Rattle.std.specs.Prelude.{◌<◌};
    ghost use Rattle.chain_state.specs.Chain.{StagedIndex, IsStagedIndex, staged_of};

    ghost Value = { StagedIndex };

    ghost view = { λ s. staged_of s.base s.tip s.hash s.whole s.undos };

    ghost invariant = { λ s. IsStagedIndex (staged_of s.base s.tip s.hash s.whole s.undos) × (0 < s.undos.spare) };
}

impl Chain {
    /// The chain of a base alone, with no coin and no name.
    pub fn at_base(alloc: Global, base: Base) -> Result<Chain, NoMemory>
        requires { base.height ≤ HIGHEST_HEIGHT }
        ensures { IfOk result (λ chain. IsAtBase base chain) }
    {
        let tables = Tables::new(alloc)?;
        let tip = Tip {
            height: base.height,
            hash: base.hash,
        };
        Ok(Chain::joined(base, tip, tables, RoomyList::new(alloc)))
    }

    /// The chain of parts that were kept: its tip has the hash of the newest record, and stands as many blocks above the base
    /// as there are records.
    pub fn from_parts(base: Base, parts: Parts) -> Chain
        requires queue { queued_in parts.queue ≡ queue_of (coins_in parts.coins) }
        requires filled { AreFilled (tables_of parts) }
        requires sound { IsSound base.profile base.height (kept_tip base parts).height (maps_by (tables_of parts)) (newest_first parts.undos.items) }
        ensures { result ≡ indexed_of base (kept_tip base parts) parts }
    {
        let tip = Tip {
            height: base.height + parts.undos.len() as u32,
            hash: newest_hash(&base, parts.undos.as_slice()),
        };
        Chain { base, tip, parts }
    }

    /// The chain that has these tables, and these records of what undoes its blocks.
    pub(crate) fn joined(base: Base, tip: Tip, tables: Tables, undos: RoomyList<Undo>) -> Chain
        requires { IsIndexed (index_of base tip tables undos) }
        ensures { result ≡ index_of base tip tables undos }
    {
        let parts = Parts::of(tables, undos);
        Chain { base, tip, parts }
    }

    /// The base of the chain.
    pub fn base(&self) -> &Base
        ensures { result.now ≡ self.now.base }
    {
        &self.base
    }

    /// The height and the hash of the newest block, or of the base.
    pub fn tip(&self) -> Tip
        ensures { result ≡ self.now.tip }
    {
        self.tip
    }

    /// The coins, the histories, the queue and the undo records, that of the oldest block first. Each place in the tables is
    /// filled, so a walk over them meets nothing else.
    pub fn parts(&self) -> &Parts
        ensures parts { ArePartsOf self.now result.now }
        ensures filled { AreFilled (tables_of result.now) }
        // They are sound with the base, and the queue is that of the coins.
        ensures sound { IsIndexed self.now }
        // Each undo record can be written.
        ensures limits { AllByRecursion IsWithinLimits (newest_first result.now.undos.items) }
    {
        &self.parts
    }

    /// Lets go of a chain that is of no use. Call it in the place of dropping it, which each crate would prove anew.
    pub fn let_go(self) {
        self.parts.let_go();
    }
}

impl StagedChain {
    /// The chain with the block. It can't fail, and takes no memory.
    pub fn commit<L: Ledger>(self, steps: &mut Steps<L>) -> Chain
        ensures connected { IsConnected self result }
        ensures cost { steps.new ≤ steps.old + commit_steps self }
    {
        let StagedChain {
            base,
            tip,
            hash: block,
            whole,
            undos,
        } = self;
        let committed = whole.commit(steps);
        let mut undos = undos;
        undos.push(Undo {
            block,
            ops: committed.ops,
            expired: committed.expired,
        });
        let tip = Tip {
            height: tip.height + 1,
            hash: block,
        };
        Chain::joined(base, tip, committed.tables, undos)
    }

    /// The chain as it was before the block. It can't fail, and takes no memory.
    pub fn abandon<L: Ledger>(self, steps: &mut Steps<L>) -> Chain
        ensures abandoned { IsAbandoned self result }
        // It is the index that the block was staged on.
        ensures same { (c : Indexed) (block : Block) → IsStagedOn c block self → SameIndex result c }
        ensures cost { steps.new ≤ steps.old + abandon_steps self }
    {
        let tables = self.whole.abandon(steps);
        Chain::joined(self.base, self.tip, tables, self.undos)
    }

    /// Lets go of what was staged, and of the chain. Call it in the place of dropping them, likewise.
    pub fn let_go(self) {}
}
