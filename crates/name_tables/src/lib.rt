//! The tables of a chain: live coins, histories of names, and the queue in which names expire, kept in step. They know no block.
#![tactic(auto)]

mod clearing;
mod expiry;
mod moving;
mod parts;
mod placing;
mod tables;

pub use moving::{Move, Shift};
pub use parts::Parts;
pub use tables::Tables;
