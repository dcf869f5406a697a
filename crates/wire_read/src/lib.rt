//! Reads the fields of Bitcoin's formats: a cursor over bytes, and readers at their front, each fault exact.
#![tactic(auto)]

mod cursor;
mod fault;
mod fields;
mod size;

pub use cursor::{Cursor, WireFault};
pub use fault::{Fault, TxFault, cut};
pub use fields::{before, counted_at, hash_at, size_at, some_size_at, u32_at, u64_at};
