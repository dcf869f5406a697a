//! The lister: a bridge that lists the names of its chain besides, page by page, in sessions that blocks don't disturb, and saves its index
//! in slices between events; and `list`, a run of it over a stream.
#![tactic(auto)]

mod answering;
mod event;
mod laws;
mod leavings;
mod letting_go;
mod lister;
mod listing;
mod mirroring;
mod replies;
mod saving;
mod slicing;

pub use event::ListEvent;
pub use laws::{accepted_commands, pinned_pages, saves_in_slices};
pub use leavings::Leavings;
pub use lister::{ListTurned, Lister};
pub use listing::list;
