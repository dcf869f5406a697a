//! Two areas for images, and the selections that tell which of them counts.
#![tactic(auto)]

mod areas;
mod draft;
mod faults;
mod law;
mod limits;
mod reading;
mod selecting;
mod slots;

pub use draft::{Draft, Ready, begin_draft};
pub use faults::{DraftFault, SlotFault};
pub use law::{areas_of_selections, one_damage_of_selections, one_list_of_selections};
pub use limits::SlotLimits;
pub use slots::Slots;
