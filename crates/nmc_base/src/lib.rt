//! What every layer of the index speaks of: hashes, outpoints, the tip and the base of a chain, expiry, want of memory, lists of bytes and lists with spare room, steps.
#![tactic(auto)]

mod boxed;
mod byte_list;
mod chain_ends;
mod compact_bytes;
mod hashes;
mod limits;
mod no_memory;
mod numbers;
mod roomy_list;
mod steps;

pub use boxed::Boxed;
pub use byte_list::Bytes;
pub use chain_ends::{Base, Profile, Tip};
pub use compact_bytes::CompactBytes;
pub use hashes::{Hash20, Hash32, OutPoint};
pub use limits::{
    DIGEST_LENGTH, HIGHEST_HEIGHT, LONGEST_BLOCK, LONGEST_NAME, LONGEST_RAND, LONGEST_VALUE,
    MATURITY, NAME_VERSION,
};
pub use no_memory::NoMemory;
pub use numbers::numbers_of_chains;
pub use roomy_list::{RoomyList, Words};
pub use steps::Steps;
