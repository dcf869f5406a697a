//! What the transactions of a block do to names, one after the other.

ghost use Rattle.std.specs.Prelude.{◌≡◌, ◌+◌, ◌*◌, ◌<◌, ◌≤◌, ◌^◌, [], length, map, drop};
ghost use Rattle.block_grammar.specs.Transaction.{txid_of};
ghost use Rattle.block_reader.specs.Rows.{seen_row};
ghost use Rattle.std.specs.List.{AllByRecursion};
ghost use Rattle.chain_names.specs.Log.{behind_coinbase};
ghost use Rattle.chain_state.specs.Cost.{WhereAccepted, owed_for, touched, all_touched};
ghost use Rattle.chain_state.specs.Block.{IsReady, Applies, AppliesAll, HasFewOutputs};

use crate::view::View;
use crate::work::Work;
use block_reader::Txs;
use chain_names::RuleRefusal;
use name_rules::{Verdict, check};
use nmc_base::{Hash32, NoMemory, OutPoint, Profile, Steps};
use std::alloc::Global;
use std::sync::ledger::Ledger;
use tx_reader::Tx;

impl Work {
    /// Does what a transaction does to names, or nothing where the rules refuse it or memory runs out.
    fn apply<L: Ledger>(
        &mut self,
        alloc: Global,
        tx: &Tx<'_>,
        txid: Hash32,
        profile: Profile,
        steps: &mut Steps<L>,
    ) -> Result<Option<RuleRefusal>, NoMemory>
        requires ready { IsReady profile self.old }
        requires outputs { length tx.now.outputs ≤ 2 ^ 32 }
        requires id { txid.0 ≡ txid_of tx.now }
        ensures applies { Applies profile self.old self.new tx.now result }
        ensures cost { WhereAccepted result (steps.new + owed_for self.new.ops.items ≤ steps.old + owed_for self.old.ops.items + 8 * touched tx.now) }
    {
        let view = View {
            tables: &self.tables,
        };
        match check(&view, tx, &txid, self.height, profile, steps) {
            Verdict::Plain => Ok(None),
            Verdict::Refused(refusal) => Ok(Some(refusal)),
            Verdict::New { hash, output } => {
                let index = output;
                self.commit_to(OutPoint { txid, index }, hash, steps)?;
                Ok(None)
            }
            Verdict::First {
                name,
                value,
                output,
                spent,
            } => {
                let index = output;
                let made = OutPoint { txid, index };
                self.open(alloc, &spent, &made, name, value, steps)?;
                Ok(None)
            }
            Verdict::Update {
                name,
                value,
                output,
                spent,
            } => {
                let index = output;
                let made = OutPoint { txid, index };
                self.update(alloc, &spent, &made, name, value, steps)?;
                Ok(None)
            }
        }
    }
}

/// The transactions of a block that are looked at for names: all but the coinbase.
pub(crate) fn behind_coinbase(txs: Txs<'_>) -> Txs<'_>
    ensures { result ≡ behind_coinbase txs.entry }
{
    let mut txs = txs;
    drop(txs.next());
    txs
}

/// The ids of the transactions behind the coinbase.
pub(crate) fn ids_behind(ids: &[Hash32]) -> &[Hash32]
    ensures { result.now ≡ drop 1 ids.now }
{
    match ids {
        [_, behind @ ..] => behind,
        [] => ids,
    }
}

impl Work {
    /// Does what transactions with these ids do to names, up to the first that the rules refuse, which it answers with its index. The
    /// first of these has the index 1, since the coinbase has 0.
    pub(crate) fn apply_all<L: Ledger>(
        &mut self,
        alloc: Global,
        txs: Txs<'_>,
        ids: &[Hash32],
        profile: Profile,
        steps: &mut Steps<L>,
    ) -> Result<Option<(u32, RuleRefusal)>, NoMemory>
        requires ready { IsReady profile self.old }
        requires fresh { self.old.ops.items ≡ [] }
        requires outputs { AllByRecursion HasFewOutputs txs }
        requires count { length txs + 1 < 2 ^ 32 }
        requires ids { seen_row ids.now ≡ map txid_of txs }
        ensures applies { AppliesAll profile self.old self.new txs.entry result }
        ensures cost { WhereAccepted result (steps.new + owed_for self.new.ops.items ≤ steps.old + 8 * all_touched txs.entry) }
    {
        let mut index = 1;
        let mut left = ids;
        for tx in txs {
            let [txid, more @ ..] = left else {
                unreachable!()
            };
            match self.apply(alloc, &tx, *txid, profile, steps) {
                Ok(None) => {}
                Err(error) => return Err(error),
                Ok(Some(refusal)) => return Ok(Some((index, refusal))),
            }
            index += 1;
            left = more;
        }
        Ok(None)
    }
}
