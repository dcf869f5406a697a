//! Where a text stops being the image of a state: its first fault, by the grammar, and that the reader of images tells this place, both ways. It has no code.
#![tactic(auto)]

mod laws;

pub use laws::{damage_by_the_grammar, faults_of_images, worked_faults};
