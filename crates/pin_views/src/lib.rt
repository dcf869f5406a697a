//! Values that are pinned as they stand: an ordered map and a stack whose pins share their nodes, and the rows of a chain's names as such a map.
#![tactic(auto)]

mod laws;
mod map;
mod name_key;
mod pile;
mod rows;
mod stack;
mod waste;

pub use laws::pairs_by_key;
pub use map::SharedMap;
pub use name_key::NameKey;
pub use rows::{Row, rows_of};
pub use stack::SharedStack;
pub use waste::MapWaste;
