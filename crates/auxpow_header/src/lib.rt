//! Reads headers with the merge-mining part of Namecoin's merged mining ("auxpow"), in place.
#![tactic(auto)]

mod fields;
mod header;
mod merge_part;

pub use header::{Header, read_header};
