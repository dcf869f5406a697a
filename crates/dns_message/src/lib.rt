//! DNS messages (RFC 1035) with EDNS (RFC 6891): reads queries, and writes replies to them into a buffer.
#![tactic(auto)]

mod counts;
mod edns;
mod header;
mod law;
mod name;
mod numbers;
mod query;
pub mod rcode;
mod record;
mod reply;
mod transport;
mod write;

pub use counts::Section;
pub use edns::Edns;
pub use law::{
    limits_are_kept, numbers_of_messages, opt_where_asked, replies_are_headed, replies_end,
    same_front,
};
pub use numbers::{EDNS_SIZE, GREATEST_LIMIT, HEADER_SIZE, LEAST_LIMIT, TIME_TO_LIVE};
pub use query::{Asked, Question, read_query};
pub use reply::{Reply, bare};
pub use transport::Transport;
