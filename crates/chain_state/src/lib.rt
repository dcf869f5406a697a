//! The index of a chain in memory: it connects and disconnects blocks in two steps, of which the second can't fail, and follows the chain.
#![tactic(auto)]

mod back;
mod block;
mod chain;
mod laws;
mod live;
mod stage;
mod view;
mod whole;
mod work;
mod worked;

pub use back::{BackOutcome, BackRefusal, StagedBack};
pub use chain::{Chain, StagedChain};
pub use laws::{
    base_stands, chains_are_sound, connecting_again_redoes, connects_follow, connects_stand,
    disconnecting_undoes, disconnects_follow, disconnects_stand, one_index, same_stands,
};
pub use name_tables::{Parts, Tables};
pub use stage::{Refusal, StageOutcome};
