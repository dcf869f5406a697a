//! Makes small blocks that stand on a given tip, each with one name operation or none: for trials and tests.
#![tactic(auto)]

mod contents;
mod fields;
mod law;
mod maker;
mod operation;
mod script;
mod transaction;

pub use law::{number_of_parts, root_law, script_law};
pub use maker::Maker;
pub use operation::{LONGEST_PART, MakeOp};
