//! A disk in memory that may crash at any moment, and whose listed calls fail.
#![tactic(auto)]

mod choice;
mod kept;
mod memory;
mod notes;
mod put;
mod replay;
mod touched;

pub use choice::Choice;
pub use memory::MemoryDisk;
