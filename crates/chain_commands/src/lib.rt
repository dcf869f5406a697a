//! The commands on a chain: run states, events, what a connect, a disconnect or a save may be refused with and what it leaves, and
//! the chain that survives commands.
#![tactic(auto)]

mod laws;
mod saves;

pub use laws::{one_event, one_refusal, survivors_are_sound};
pub use saves::{one_text, saved_texts_stay, saves_leave_the_chain};
