//! The frames of a stream: their kinds, a stream's splitting into frames, and a reader that is fed in any pieces.
#![tactic(auto)]

mod frame;
mod front;
mod kinds;
mod law;
mod reader;

pub use frame::Frame;
pub use kinds::{KINDS, Kind, LONGEST_MESSAGE, LONGEST_PAYLOAD};
pub use law::{any_pieces, numbers_of_frames, one_splitting};
pub use reader::{BadFrame, Frames, PIECE};
