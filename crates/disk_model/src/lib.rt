//! A disk of three files that may crash at any moment.
#![tactic(auto)]

mod disk;
mod law;

pub use disk::{Disk, Failed};
pub use law::{OfFiles, images_after_a_sync, images_of_a_disk, images_of_moments};
