//! Pairs in the order of their keys, in chunks behind shared pointers: what stands nowhere else is changed in place, and what is shared is copied.
#![tactic(auto)]

mod chunks;
mod entry;
mod hints;
mod leaf;
mod level;
mod part;
mod sub;
mod waste;

pub use chunks::Chunks;
pub use entry::Entry;
pub use hints::{Hinted, number_of, numbers_rise};
pub use leaf::Leaf;
pub use level::Level;
pub use part::Part;
pub use sub::Sub;
pub use waste::Waste;
