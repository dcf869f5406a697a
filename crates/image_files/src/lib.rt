//! An image of an index in an area file of a disk: written and selected, and read.
#![tactic(auto)]

mod drafting;
mod fault;
mod feeding;
mod front;
mod law;
mod loading;
mod making;
mod pieces;
mod reading;
mod saved;
mod saving;
mod writing;

pub use fault::ReadFault;
pub use front::read_length;
pub use law::{a_saved_index_is_read, images_of_a_save, one_bad_image, one_index_of_an_image};
pub use making::make_image;
pub use reading::read_image;
pub use saved::{SaveFault, Saved};
pub use saving::save_index;
pub use writing::select_draft;
