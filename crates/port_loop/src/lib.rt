//! The loop that deals with the polls of a port, one by one, whatever answers their frames.
#![tactic(auto)]

mod answering;
mod attending;
mod dealing;
mod law;
mod message_text;
mod polling;
mod sending;
mod streaming;

pub use attending::{Ending, attend};
pub use dealing::PollBuffers;
pub use law::{in_its_place, number_of_dropped, one_reading, streams_are_answered};
pub use sending::DROPPED;
