//! Sound states: what has to be looked at where a record is undone, and how soundness is decided from the tip down to the base. Each law is the contract of a function that does nothing.
#![tactic(auto)]

mod laws;

pub use laws::{few_coins, soundness_by_walking, steps_by_lists, undoing_leaves_a_state};
