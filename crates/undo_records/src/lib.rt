//! The text of the record that undoes a block, and the reading of that text.
//!
//! The readers and writers of its parts are public for texts that are made of the same parts. A reader takes the part at
//! the front of the bytes, and gives what it found with the bytes behind it, or the first fault with the bytes from its
//! place on.
#![tactic(auto)]

pub mod coins;
pub mod fault;
pub mod fields;
pub mod found;
mod law;
pub mod lists;
pub mod ops;
pub mod owned;
mod reading;
pub mod text;
mod version;
pub mod widths;
mod writing;

pub use chain_names::{Coin, HeldCoin, Item, KeptOp, Undo};
pub use fault::UndoFault;
pub use law::text_laws;
pub use reading::{UndoV1, read, read_v1, undo_at};
pub use version::Version;
pub use writing::{add_undo, write};
