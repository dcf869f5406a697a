//! The registration heights that a text of version 1 leaves out, set in histories and records from the records alone.
#![tactic(auto)]

mod beginnings;
mod filling;
mod laws;
mod putting;
mod room;
mod taking;

pub use filling::fill;
pub use laws::{a_sound_state_is_told_by_version_1, images_of_one_text, registrations_follow};
