//! What a chain says of its names: the log of its name outputs, live coins, histories, the rules on name transactions, how a block changes all that, and what undoes it.
#![tactic(auto)]

mod coin;
mod kept_op;
mod laws;
mod refusal;
mod undo;
mod undoing;

pub use coin::{Coin, HeldCoin, Item};
pub use kept_op::{Change, ChangeRoom, KeptOp, OpParts};
pub use laws::{
    due_coins, expiry_laws, index_follows, queue_follows, refusals_agree, registrations,
    starts_empty, undoing_restores, verdict_meaning,
};
pub use refusal::RuleRefusal;
pub use undo::{Undo, UndoOp};
pub use undoing::{
    begins_sound, block_keeps_soundness, block_keeps_state, chains_have_undos, fit_allows_undoing,
    index_goes_back, index_is_sound, one_undo, restored_are_due, undo_agrees, undo_of_index,
    undoing_keeps_soundness, undone_restores,
};
