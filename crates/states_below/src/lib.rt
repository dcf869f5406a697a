//! Whether tables and undo records, as they were read from a text, are sound. The blocks are undone over the tables: none is copied and none is changed.
#![tactic(auto)]

mod below;
mod bottom;
mod coins_below;
mod fitting;
mod names_below;
mod scan;
mod step;
mod top;
mod walk;
mod whole;

pub use whole::is_image_sound;
