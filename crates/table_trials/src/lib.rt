//! Trials of the tables of names and of what they are made of: coins, histories, the queue of what expires, verdicts, undo records, images that are sound and that are read in pieces, snapshots, registration heights; of values that are pinned, with the rows of a table; and of the index over a chain of blocks, for what no reply shows.
#![tactic(auto)]

#[cfg(test)]
mod chains;
#[cfg(test)]
mod coins;
#[cfg(test)]
mod comparing;
#[cfg(test)]
mod heights;
#[cfg(test)]
mod histories;
#[cfg(test)]
mod images;
#[cfg(test)]
mod loading;
#[cfg(test)]
mod outputs;
#[cfg(test)]
mod pinned_changes;
#[cfg(test)]
mod pinned_maps;
#[cfg(test)]
mod pinned_rows;
#[cfg(test)]
mod pinned_stacks;
#[cfg(test)]
mod queue;
#[cfg(test)]
mod snapshots;
#[cfg(test)]
mod undo;
#[cfg(test)]
mod verdicts;
