//! Trials of what comes in pieces and fails where it is told to: frames, files, and the sources, sinks and ports in memory; and a net in
//! memory, which shows that there are nets that tell.
#![tactic(auto)]

mod memory_net;
mod parts;
mod told;

pub use memory_net::MemoryNet;
pub use parts::InParts;
pub use told::{Told, What};

#[cfg(test)]
mod comparing;
#[cfg(test)]
mod counts;
#[cfg(test)]
mod ends;
#[cfg(test)]
mod files;
#[cfg(test)]
mod frames;
#[cfg(test)]
mod net;
#[cfg(test)]
mod port;
