//! The histories of names: a map from each name to its values, whose places and room are taken before anything is put there.
#![tactic(auto)]

mod table;
mod widths;

pub use chain_names::Item;
pub use table::Table;
