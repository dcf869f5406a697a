//! The queue of expiry: the outpoints of named coins by the height of their blocks, with places that are taken before anything is put there.
#![tactic(auto)]

mod queue;
mod row;

pub use queue::Queue;
