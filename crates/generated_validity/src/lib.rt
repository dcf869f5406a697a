//! Each block of a generated chain is accepted, unless two name transactions of its chain that differ have one txid; and so a refusal of a
//! run's events has one of three causes, of which in a run of at most 10,000 blocks that one alone is left.
#![tactic(auto)]

mod laws;

pub use laws::{blocks_are_valid, events_lead_on, lengths_are_small, refusals_have_causes};
