//! Trials of what reads and makes blocks: bytes and numbers that every layer speaks of, fields, digests, scripts, transactions, headers, blocks.
#![tactic(auto)]

#[cfg(test)]
mod base;
#[cfg(test)]
mod blocks;
#[cfg(test)]
mod comparing;
#[cfg(test)]
mod digests;
#[cfg(test)]
mod fields;
#[cfg(test)]
mod headers;
#[cfg(test)]
mod keeping;
#[cfg(test)]
mod kinds;
#[cfg(test)]
mod making;
#[cfg(test)]
mod scripts;
#[cfg(test)]
mod transactions;
