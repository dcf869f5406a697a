//! The loop that answers the frames of a stream, one by one, whatever answers them.
#![tactic(auto)]

mod answerer;
mod answering;
mod delivery;
mod filling;
mod following;
mod law;
mod outlet;
mod reply;

pub use answerer::{Answerer, Over, QUERY, STREAM_QUERY};
pub use answering::{Halted, answer_all};
pub use delivery::{Undelivered, deliver};
pub use filling::Buffers;
pub use following::{Ending, follow};
pub use law::{numbers_of_queries, one_ending};
pub use outlet::{Outlet, ToSink};
pub use reply::{LONGEST_REPLY, REPLY_HEAD, REPLY_ROOM, ReplyBuf};
