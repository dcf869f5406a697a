//! DNS messages over TCP streams: joins the pieces of the streams of up to 16 clients, and gives their whole messages (RFC 1035, 4.2.2; RFC 7766, 8).
#![tactic(auto)]

mod buffer;
mod law;
mod message;
mod streams;

pub use law::{any_pieces, clients_apart, number_of_clients, one_splitting};
pub use streams::{CLIENTS, LONGEST_PIECE, Streams};
