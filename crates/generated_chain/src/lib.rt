//! The commands of a large run that is made from a number: blocks about 64 names, saves, and queries.
#![tactic(auto)]

mod block;
mod draw;
mod law;
mod run;
mod stand;
mod texts;

pub use law::{queries_ask, round_after_round, small_draws_and_texts};
pub use run::{Round, Run};
pub use stand::{Deed, Made, Stand};
