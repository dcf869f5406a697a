//! A block's work from its first transaction to the coins that expire.

ghost use Rattle.std.specs.Prelude.{◌≡◌, ◌+◌, ◌<◌, ◌^◌, [], length, map};
ghost use Rattle.block_grammar.specs.Block.{count_outputs};
ghost use Rattle.block_grammar.specs.Transaction.{txid_of};
ghost use Rattle.block_reader.specs.Rows.{seen_row};
ghost use Rattle.chain_state.specs.Block.{IsReady};
ghost use Rattle.chain_state.specs.Worked.{WorksOn, IsPaid};

use crate::whole::Whole;
use crate::work::Work;
use block_reader::Txs;
use chain_names::RuleRefusal;
use name_tables::Tables;
use nmc_base::{Hash32, Profile, Steps};
use std::alloc::Global;
use std::sync::ledger::Ledger;

/// What came of a block's work. Tables that are handed back hold what they held before it.
#[derive(Drop)]
pub(crate) enum Worked {
    Whole(Whole),
    /// The index in the block of the first transaction that is refused, and why it is.
    Refused(Tables, u32, RuleRefusal),
    NoMemory(Tables),
}

impl Work {
    /// Does what transactions with these ids do to names, and takes the coins away that are expired in the next block.
    pub(crate) fn do_all<L: Ledger>(
        self,
        alloc: Global,
        txs: Txs<'_>,
        ids: &[Hash32],
        profile: Profile,
        steps: &mut Steps<L>,
    ) -> Worked
        requires ready { IsReady profile self }
        requires fresh { self.ops.items ≡ [] }
        requires outputs { count_outputs txs < 2 ^ 32 }
        requires count { length txs + 1 < 2 ^ 32 }
        requires ids { seen_row ids.now ≡ map txid_of txs }
        ensures works { WorksOn profile self txs.entry result }
        ensures cost { IsPaid txs.entry result steps.old steps.new }
    {
        let mut work = self;
        match work.apply_all(alloc, txs, ids, profile, steps) {
            Ok(None) => {}
            Ok(Some((tx, refusal))) => {
                return Worked::Refused(work.abandon(steps), tx, refusal);
            }
            Err(_) => return Worked::NoMemory(work.abandon(steps)),
        }
        match work.finish(alloc, profile, steps) {
            Ok(whole) => Worked::Whole(whole),
            Err(work) => Worked::NoMemory(work.abandon(steps)),
        }
    }
}
