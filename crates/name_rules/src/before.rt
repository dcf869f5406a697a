//! What stands before a transaction, and the rules that look at it.

ghost use Rattle.std.specs.Prelude.{◌≡◌, ◌+◌, ◌≤◌, ℕ, List, [], ◌∷◌};
ghost use Rattle.std.specs.Result.{result_err};
ghost use Rattle.nmc_base.specs.Heights.{highest};
ghost use Rattle.name_script.specs.NameScript.{name_firstupdate, name_update};
ghost use Rattle.chain_names.specs.Coins.{entry_of};
ghost use Rattle.chain_names.specs.Verdict.{spent_tests, made_tests, is_taken, first_of, kind_of, by_output, verdict_by};
ghost use Rattle.name_rules.specs.Refusals.{refusal_in, said};
ghost use Rattle.name_rules.specs.Seen.{seen_coin, seen_made, found_inputs, found_outputs};

use crate::found::Found;
use crate::inputs::Spent;
use crate::outputs::Made;
use crate::rules::{committed_hash, counted, spent_coin, updatable};
use crate::verdict::Verdict;
use crate::view::{CoinRef, NameView};
use chain_names::RuleRefusal;
use hash160::hash160_pair;
use name_script::NameOp;
use nmc_base::{Hash32, LONGEST_RAND, MATURITY, OutPoint, Profile, Steps};
use std::sync::ledger::Ledger;

/// What stands before a transaction, and the block that it is in.
#[derive(Drop)]
pub(crate) struct Before<'v, V> {
    pub view: &'v V,
    pub profile: Profile,
    pub height: u32,
    ghost within: { height ≤ highest },
}

impl<'v, V: NameView> Before<'v, V> {
    /// Whether the name stands, and isn't expired at the height.
    fn taken<L: Ledger>(&self, name: &[u8], steps: &mut Steps<L>) -> bool
        ensures value { let before = self.now in
            result ≡ is_taken before.profile before.height (entry_of ((V.maps before.view.now).names name.now)) }
        ensures cost { steps.new ≤ steps.old + 1 }
    {
        match self.view.entry_height(name, steps) {
            None => false,
            Some(made) => !self.profile.expired(made, self.height),
        }
    }

    /// Whether a name may be opened from the coin: a commitment to the salt and the name that is old enough, of a name that
    /// doesn't stand.
    fn openable<L: Ledger>(
        &self,
        coin: &CoinRef<'_>,
        name: &[u8],
        rand: &[u8],
        steps: &mut Steps<L>,
    ) -> Result<(), RuleRefusal>
        ensures refusal { (value : List ℕ) → let before = self.now in
            let operation = name_firstupdate name.now rand.now value in
            result_err result ≡ refusal_in (spent_tests before.profile (V.maps before.view.now) before.height operation (seen_coin coin.now)) }
        ensures cost { steps.new ≤ steps.old + 1 }
    {
        let (hash, made) = match *coin {
            CoinRef::New { hash, height } => (hash, height),
            CoinRef::Named { .. } => return Err(RuleRefusal::FirstNotFromNew),
        };
        if self.height < MATURITY || self.height - MATURITY < made {
            return Err(RuleRefusal::Immature);
        }
        if rand.len() > LONGEST_RAND {
            return Err(RuleRefusal::RandTooLong);
        }
        if hash160_pair(rand, name) != *hash {
            return Err(RuleRefusal::CommitMismatch);
        }
        if self.taken(name, steps) {
            return Err(RuleRefusal::NameTaken);
        }
        Ok(())
    }

    /// Whether no coin is at the outpoint.
    fn unoccupied<L: Ledger>(
        &self,
        point: &OutPoint,
        steps: &mut Steps<L>,
    ) -> Result<(), RuleRefusal>
        ensures refusal { result_err result ≡ refusal_in (made_tests (V.maps self.now.view.now) point.now) }
        ensures cost { steps.new ≤ steps.old + 1 }
    {
        match self.view.coin(point, steps) {
            None => Ok(()),
            Some(_) => Err(RuleRefusal::DuplicateOutpoint),
        }
    }

    /// What a transaction is whose output at the outpoint opens a name, and that spends this coin.
    fn opened<'a, L: Ledger>(
        &self,
        point: &OutPoint,
        spent: &Spent<'_>,
        name: &'a [u8],
        rand: &[u8],
        value: &'a [u8],
        steps: &mut Steps<L>,
    ) -> Result<Verdict<'a>, RuleRefusal>
        ensures verdict { let before = self.now in let maps = V.maps before.view.now in
            let operation = name_firstupdate name.entry.now rand.now value.entry.now in
            said result ≡ first_of (spent_tests before.profile maps before.height operation (seen_coin spent.now.coin))
            (first_of (made_tests maps point.now) (kind_of operation point.now.index spent.now.at)) }
        ensures cost { steps.new ≤ steps.old + 2 }
    {
        self.openable(&spent.coin, name, rand, steps)?;
        self.unoccupied(point, steps)?;
        Ok(Verdict::First {
            name,
            value,
            output: point.index,
            spent: spent.at,
        })
    }

    /// What a transaction is whose output at the outpoint updates a name, and that spends this coin.
    fn updated<'a, L: Ledger>(
        &self,
        point: &OutPoint,
        spent: &Spent<'_>,
        name: &'a [u8],
        value: &'a [u8],
        steps: &mut Steps<L>,
    ) -> Result<Verdict<'a>, RuleRefusal>
        ensures verdict { let before = self.now in let maps = V.maps before.view.now in
            let operation = name_update name.entry.now value.entry.now in
            said result ≡ first_of (spent_tests before.profile maps before.height operation (seen_coin spent.now.coin))
            (first_of (made_tests maps point.now) (kind_of operation point.now.index spent.now.at)) }
        ensures cost { steps.new ≤ steps.old + 2 }
    {
        updatable(&spent.coin, name)?;
        self.unoccupied(point, steps)?;
        Ok(Verdict::Update {
            name,
            value,
            output: point.index,
            spent: spent.at,
        })
    }

    /// What a transaction with this name output is.
    fn with_output<'a, L: Ledger>(
        &self,
        txid: &Hash32,
        spent: &Found<Spent<'_>>,
        output: &Made<'a>,
        steps: &mut Steps<L>,
    ) -> Result<Verdict<'a>, RuleRefusal>
        ensures verdict { let before = self.now in said result
            ≡ by_output before.profile (V.maps before.view.now) before.height txid.now.0 (seen_made output.now ∷ []) (found_inputs spent.now) }
        ensures cost { steps.new ≤ steps.old + 2 }
    {
        if output.amount < self.profile.least_amount() {
            return Err(RuleRefusal::Greedy);
        }
        let point = OutPoint {
            txid: *txid,
            index: output.place,
        };
        match output.operation {
            NameOp::New { hash } => {
                let hash = committed_hash(hash, spent)?;
                self.unoccupied(&point, steps)?;
                Ok(Verdict::New {
                    hash,
                    output: output.place,
                })
            }
            NameOp::First { name, rand, value } => {
                let coin = spent_coin(name, value, spent)?;
                self.opened(&point, &coin, name, rand, value, steps)
            }
            NameOp::Update { name, value } => {
                let coin = spent_coin(name, value, spent)?;
                self.updated(&point, &coin, name, value, steps)
            }
        }
    }

    /// What a transaction with these name inputs and name outputs is, or the first refusal.
    pub(crate) fn verdict<'a, L: Ledger>(
        &self,
        txid: &Hash32,
        version: u32,
        spent: &Found<Spent<'_>>,
        made: &Found<Made<'a>>,
        steps: &mut Steps<L>,
    ) -> Result<Verdict<'a>, RuleRefusal>
        ensures verdict { let before = self.now in said result
            ≡ verdict_by before.profile (V.maps before.view.now) before.height txid.now.0 version (found_inputs spent.now) (found_outputs made.now) }
        ensures cost { steps.new ≤ steps.old + 2 }
        ensures none { found_outputs made.now ≡ [] → steps.new ≡ steps.old }
    {
        counted(version, spent, made)?;
        match made {
            Found::Nothing => Ok(Verdict::Plain),
            Found::One(output) | Found::More(output) => {
                self.with_output(txid, spent, output, steps)
            }
        }
    }
}
