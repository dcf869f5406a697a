//! The text of an image of an index, given out in pieces, and its length.
#![tactic(auto)]

pub mod copy;
mod front;
mod length;
pub mod lengths;
mod listed;
mod order;
pub mod page;
mod places;
mod stage;
mod text;
pub mod values;
pub mod widths;

pub use length::image_len;
pub use text::{ImageText, image_text};
