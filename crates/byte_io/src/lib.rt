//! Bytes that are read from a source and written to a sink, and a port of datagrams and a feed: with the cause of each fault.
#![tactic(auto)]

mod errors;
mod numbers;
mod port;
mod sent;
mod sink;
mod source;

pub use errors::Failed;
pub use numbers::number_of_a_poll;
pub use port::{POLL_ROOM, Polled, Port};
pub use sent::Sent;
pub use sink::Sink;
pub use source::Source;
