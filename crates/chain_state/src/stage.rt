//! Stages a block: all that may be refused, and all memory that it takes.

ghost use Rattle.std.specs.Prelude.{◌≡◌, ◌<◌, map, IfOk, IfErr, IsOk};
ghost use Rattle.nmc_base.specs.declared.limits.TheConstants.{HIGHEST_HEIGHT};
ghost use Rattle.block_grammar.specs.Merkle.{block_root};
ghost use Rattle.block_grammar.specs.Transaction.{txid_of};
ghost use Rattle.block_reader.specs.Rows.{seen_row};
ghost use Rattle.chain_state.specs.Stage.{Begins, HasIdsAndRoot, Stages, IsCheap};

use crate::block::{behind_coinbase, ids_behind};
use crate::chain::{Chain, StagedChain};
use crate::work::Work;
use crate::worked::Worked;
use block_reader::{Block, root_of, txids};
use chain_names::Undo;
use name_rules::RuleRefusal;
use name_tables::Tables;
use nmc_base::{HIGHEST_HEIGHT, Hash32, NoMemory, RoomyList, Steps};
use std::alloc::Global;
use std::sync::ledger::Ledger;

/// Why a block isn't connected.
#[derive(Clone, Copy, PartialEq, Eq, Debug)]
pub enum Refusal {
    /// Its bytes are no block: at this offset no block can go on so. A block that was read has not this refusal.
    BadBlock { at: u32 },
    /// Its previous hash isn't the tip's.
    NotOnTip { tip: Hash32 },
    /// The tip has the greatest height.
    HeightLimit,
    /// Its header has another Merkle root than the computed one of its transactions.
    MerkleMismatch { computed: Hash32 },
    /// The transaction with this index breaks a rule on names. The coinbase has the index 0.
    Rule { tx: u32, refusal: RuleRefusal },
    /// The journal has no room for the block's record. An index without a journal has not this refusal.
    JournalFull,
}

/// What came of staging a block. A chain that is handed back is the one that was given.
#[derive(Drop)]
pub enum StageOutcome {
    Staged(StagedChain),
    Refused(Chain, Refusal),
    NoMemory(Chain),
}

impl Work {
    /// The beginning of a block's work, or the tables where there is no memory for it. There is room for one undo record
    /// more then.
    fn begin(
        alloc: Global,
        tables: Tables,
        height: u32,
        undos: &mut RoomyList<Undo>,
    ) -> Result<Work, Tables>
        ensures ok { IfOk result (λ work. Begins tables height work) }
        ensures err { IfErr result (λ same. same ≡ tables) }
        ensures undos { undos.new.items ≡ undos.old.items }
        ensures room { IsOk result → 0 < undos.new.spare }
    {
        let mut empty = RoomyList::new(alloc);
        let room = match undos.reserve(1) {
            Ok(()) => empty.reserve(1),
            Err(error) => Err(error),
        };
        match room {
            Ok(()) => Ok(Work {
                tables,
                ops: RoomyList::new(alloc),
                empty,
                height,
            }),
            Err(_) => Err(tables),
        }
    }
}

/// The ids of the block's transactions, and their Merkle root.
fn ids_and_root(alloc: Global, block: &Block<'_>) -> Result<(Vec<Hash32>, Hash32), NoMemory>
    ensures { IfOk result (λ x. HasIdsAndRoot block.now x.0.items x.1) }
{
    let ids = txids(alloc, block)?;
    let root = root_of(alloc, &ids)?;
    Ok((ids, root))
}

impl Chain {
    /// Stages a block whose header was looked at, and whose transactions have these ids: does what they do to names.
    fn stage_names<L: Ledger>(
        self,
        alloc: Global,
        block: &Block<'_>,
        ids: &[Hash32],
        steps: &mut Steps<L>,
    ) -> StageOutcome
        requires on_tip { block.now.header.fields.previous ≡ self.tip.hash.0 }
        requires low { self.tip.height < HIGHEST_HEIGHT }
        requires root { block.now.header.fields.root ≡ block_root block.now }
        requires ids { seen_row ids.now ≡ map txid_of block.now.transactions }
        ensures stages { Stages self block.now result }
        ensures cost { IsCheap block.now result steps.old steps.new }
    {
        // The count says that an index of a transaction fits its number.
        let _count = block.count();
        let Chain { base, tip, parts } = self;
        let (tables, undos) = parts.split();
        let mut undos = undos;
        let work = match Work::begin(alloc, tables, tip.height + 1, &mut undos) {
            Ok(work) => work,
            Err(tables) => return StageOutcome::NoMemory(Chain::joined(base, tip, tables, undos)),
        };
        let txs = behind_coinbase(block.txs());
        match work.do_all(alloc, txs, ids_behind(ids), base.profile, steps) {
            Worked::Whole(whole) => {
                let hash = block.header().hash();
                StageOutcome::Staged(StagedChain {
                    base,
                    tip,
                    hash,
                    whole,
                    undos,
                })
            }
            Worked::Refused(tables, tx, refusal) => {
                let chain = Chain::joined(base, tip, tables, undos);
                StageOutcome::Refused(chain, Refusal::Rule { tx, refusal })
            }
            Worked::NoMemory(tables) => {
                StageOutcome::NoMemory(Chain::joined(base, tip, tables, undos))
            }
        }
    }

    /// Stages a block: does on the tables what it does to names, and keeps what undoes it. Each transaction is hashed once.
    ///
    /// A block that isn't on the tip is refused first, then one on the greatest height, then one with another Merkle root,
    /// and then the first transaction that breaks a rule on names. Memory is taken behind the first two refusals.
    pub fn stage<L: Ledger>(
        self,
        alloc: Global,
        block: &Block<'_>,
        steps: &mut Steps<L>,
    ) -> StageOutcome
        ensures stages { Stages self block.now result }
        // With the steps of its commit.
        ensures cost { IsCheap block.now result steps.old steps.new }
    {
        let header = block.header();
        if header.previous() != self.tip.hash {
            let tip = self.tip.hash;
            return StageOutcome::Refused(self, Refusal::NotOnTip { tip });
        }
        if self.tip.height >= HIGHEST_HEIGHT {
            return StageOutcome::Refused(self, Refusal::HeightLimit);
        }
        let (ids, computed) = match ids_and_root(alloc, block) {
            Ok(found) => found,
            Err(_) => return StageOutcome::NoMemory(self),
        };
        if header.root() != computed {
            return StageOutcome::Refused(self, Refusal::MerkleMismatch { computed });
        }
        self.stage_names(alloc, block, &ids, steps)
    }
}
