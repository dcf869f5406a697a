//! Replies to messages of DNS, the answers in which are kept for those who ask the same; and what is kept of a reply without its question, and the reply to another asker from it.
#![tactic(auto)]

mod answering;
mod answers;
mod giving;
mod keeping;
mod law;
mod limits;
mod lower;
mod numbers;

pub use answer_cache::Cache;
pub use answers::Answers;
pub use giving::give;
pub use keeping::{KeptReply, keep};
pub use law::{
    alike, kept_answers_are_right, kept_replies_fit, numbers_of_kept_answers, one_kept,
    replies_are_kept,
};
pub use limits::{LONGEST_KEPT, MOST_KEPT};
