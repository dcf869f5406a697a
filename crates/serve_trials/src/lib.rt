//! Trials of the program's words over streams, files and a port in memory: each of their calls fails in turn, each stop of the disk,
//! a name that a feed registers, saves, at once and in slices, also over a text of version 1, and reports for a sink whose writes fail.
#![tactic(auto)]

#[cfg(test)]
mod courses;
#[cfg(test)]
mod crashes;
#[cfg(test)]
mod failing_polls;
#[cfg(test)]
mod failing_streams;
#[cfg(test)]
mod feed;
#[cfg(test)]
mod first_block;
#[cfg(test)]
mod fronts;
#[cfg(test)]
mod listings;
#[cfg(test)]
mod outside;
#[cfg(test)]
mod polls;
#[cfg(test)]
mod refusals;
#[cfg(test)]
mod registered_again;
#[cfg(test)]
mod registering;
#[cfg(test)]
mod replays;
#[cfg(test)]
mod reports;
#[cfg(test)]
mod saves;
#[cfg(test)]
mod sliced_saves;
#[cfg(test)]
mod starts;
#[cfg(test)]
mod statuses;
#[cfg(test)]
mod stops;
#[cfg(test)]
mod streams;
#[cfg(test)]
mod tables;
#[cfg(test)]
mod texts;
#[cfg(test)]
mod version_1;
#[cfg(test)]
mod wanting;
