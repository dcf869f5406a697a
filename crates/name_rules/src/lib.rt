//! The rules on names: the first refusal of a transaction that holds, or what the transaction does to names.
#![tactic(auto)]

mod before;
mod found;
mod inputs;
mod outputs;
mod rules;
mod transaction;
mod verdict;
mod view;

pub use chain_names::RuleRefusal;
pub use transaction::check;
pub use verdict::Verdict;
pub use view::{CoinRef, NameView};
