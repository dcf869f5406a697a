//! The tables of the rules that look at the transaction alone, each as a function: the first refusal that holds, or what
//! the next table needs.

ghost use Rattle.std.specs.Prelude.{◌≡◌, ℕ, List, [], slice_get, Some, IfOk};
ghost use Rattle.std.specs.Result.{result_err};
ghost use Rattle.nmc_base.specs.declared.chain_ends.Profile.{Profile as ProfileValue};
ghost use Rattle.name_script.specs.NameScript.{name_new, name_update};
ghost use Rattle.chain_names.specs.Coins.{Maps};
ghost use Rattle.chain_names.specs.Verdict.{count_tests, operation_tests, spent_tests};
ghost use Rattle.name_rules.specs.Refusals.{refusal_in};
ghost use Rattle.name_rules.specs.Seen.{seen_coin, seen_spent, found_inputs, found_outputs};

use crate::found::Found;
use crate::inputs::Spent;
use crate::outputs::Made;
use crate::view::CoinRef;
use chain_names::RuleRefusal;
use nmc_base::{Hash20, LONGEST_NAME, LONGEST_VALUE, NAME_VERSION};

/// Of the version, and of how many name inputs and name outputs there are.
pub(crate) fn counted(
    version: u32,
    spent: &Found<Spent<'_>>,
    made: &Found<Made<'_>>,
) -> Result<(), RuleRefusal>
    ensures { result_err result ≡ refusal_in (count_tests version (found_inputs spent.now) (found_outputs made.now)) }
{
    if spent.many() {
        return Err(RuleRefusal::MultipleNameInputs);
    }
    if made.many() {
        return Err(RuleRefusal::MultipleNameOutputs);
    }
    if version == NAME_VERSION {
        return if made.some() {
            Ok(())
        } else {
            Err(RuleRefusal::NameWithoutOutput)
        };
    }
    if spent.some() {
        return Err(RuleRefusal::PlainWithNameInput);
    }
    if made.some() {
        return Err(RuleRefusal::PlainWithNameOutput);
    }
    Ok(())
}

/// The hash of a commitment, which spends no name.
pub(crate) fn committed_hash(hash: &[u8], spent: &Found<Spent<'_>>) -> Result<Hash20, RuleRefusal>
    ensures refusal { result_err result ≡ refusal_in (operation_tests (name_new hash.now) (found_inputs spent.now)) }
    ensures value { IfOk result (λ h. (h.0 ≡ hash.now) × (found_inputs spent.now ≡ [])) }
{
    if spent.some() {
        return Err(RuleRefusal::NewWithNameInput);
    }
    match hash.as_array() {
        Some(bytes) => Ok(Hash20(*bytes)),
        None => Err(RuleRefusal::NewWrongSize),
    }
}

/// The coin that is spent where a name is opened or updated.
pub(crate) fn spent_coin<'v>(
    name: &[u8],
    value: &[u8],
    spent: &Found<Spent<'v>>,
) -> Result<Spent<'v>, RuleRefusal>
    ensures refusal { result_err result ≡ refusal_in (operation_tests (name_update name.now value.now) (found_inputs spent.now)) }
    ensures coin { IfOk result (λ s. slice_get (found_inputs spent.now) 0 ≡ Some (seen_spent s)) }
{
    let Some(first) = spent.first() else {
        return Err(RuleRefusal::UpdateWithoutInput);
    };
    if name.len() > LONGEST_NAME {
        return Err(RuleRefusal::NameTooLong);
    }
    if value.len() > LONGEST_VALUE {
        return Err(RuleRefusal::ValueTooLong);
    }
    Ok(first)
}

/// Whether the coin is that of the name, where the name is updated.
pub(crate) fn updatable(coin: &CoinRef<'_>, name: &[u8]) -> Result<(), RuleRefusal>
    ensures { (profile : ProfileValue) (maps : Maps) (height : ℕ) (value : List ℕ)
        → result_err result ≡ refusal_in (spent_tests profile maps height (name_update name.now value) (seen_coin coin.now)) }
{
    match *coin {
        CoinRef::New { .. } => Err(RuleRefusal::UpdateOfNew),
        CoinRef::Named { name: named, .. } => {
            if name == named {
                Ok(())
            } else {
                Err(RuleRefusal::NameMismatch)
            }
        }
    }
}
