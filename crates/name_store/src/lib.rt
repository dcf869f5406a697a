//! The store: an index of names whose commands and saves are kept in files that outlive a crash.
#![tactic(auto)]

mod drafting;
mod faults;
mod header;
mod host;
mod host_text;
mod initialised;
mod law;
mod limits;
mod making;
mod making_header;
mod making_steps;
mod opening;
mod saving;
mod slice_steps;
mod slicing;
mod starting;
mod starting_area;
mod store;

pub use drafting::{DraftOutcome, SlicedDraft};
pub use faults::{CreateFault, CreateFromFault, OpenFault};
pub use host::number_of_hosts;
pub use initialised::is_initialised;
pub use law::{drafts_stay, images_of_a_store, one_damage, one_kind_of_files, saved_is_read_again};
pub use making::create;
pub use saving::SaveRefusal;
pub use slice_steps::LONGEST_SLICE;
pub use slicing::SliceOutcome;
pub use starting::create_from;
pub use store::{Outcome, Store};
