//! The verdict on a transaction.

ghost use Rattle.std.specs.Prelude.{◌≡◌, ◌+◌, ◌≤◌, ◌^◌, [], length};
ghost use Rattle.nmc_base.specs.Heights.{highest};
ghost use Rattle.block_grammar.specs.Transaction.{txid_of};
ghost use Rattle.chain_names.specs.Verdict.{verdict};
ghost use Rattle.chain_names.specs.Meaning.{Means};
ghost use Rattle.name_rules.specs.Seen.{seen_verdict};

use crate::before::Before;
use crate::inputs::name_inputs;
use crate::outputs::name_outputs;
use crate::verdict::Verdict;
use crate::view::NameView;
use nmc_base::{Hash32, Profile, Steps};
use std::sync::ledger::Ledger;
use tx_reader::Tx;

/// What a transaction in a block of this height is to the rules, or the first refusal in their order. The view is of what
/// stands before the transaction, and `txid` is the transaction's own. It takes no memory.
pub fn check<'a, V: NameView, L: Ledger>(
    view: &V,
    tx: &Tx<'a>,
    txid: &Hash32,
    height: u32,
    profile: Profile,
    steps: &mut Steps<L>,
) -> Verdict<'a>
    requires txid { txid.now.0 ≡ txid_of tx.now }
    requires height { height ≤ highest }
    requires outputs { length tx.now.outputs ≤ 2 ^ 32 }
    ensures verdict { seen_verdict result ≡ verdict profile (V.maps view.now) height tx.now }
    // What it then says of the coins and of the transaction.
    ensures means { Means profile (V.maps view.now) height tx.now (seen_verdict result) }
    ensures cost { steps.new ≤ steps.old + length tx.now.inputs + 2 }
    ensures cost_of_inputs { tx.now.outputs ≡ [] → steps.new ≤ steps.old + length tx.now.inputs }
{
    let spent = name_inputs(view, tx.inputs(), steps);
    let made = name_outputs(tx.outputs());
    let before = Before {
        view,
        profile,
        height,
    };
    match before.verdict(txid, tx.version(), &spent, &made, steps) {
        Ok(verdict) => verdict,
        Err(refusal) => Verdict::Refused(refusal),
    }
}
