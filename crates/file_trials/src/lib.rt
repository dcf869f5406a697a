//! Trials of the files: the disk in memory, the journal, the slots, the store; each stop, each failing call and each changed byte in turn.
#![tactic(auto)]

#[cfg(test)]
mod comparing;
#[cfg(test)]
mod disk;
#[cfg(test)]
mod journal;
#[cfg(test)]
mod slots;
#[cfg(test)]
mod store;
