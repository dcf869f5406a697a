//! Listing sessions: each pages through the names of the chain that it was opened on, however the chain moves on meanwhile.
#![tactic(auto)]

mod codes;
mod laws;
mod listing;
mod page;
mod replies;
mod sessions;

pub use laws::one_listing;
pub use page::{LARGEST_PAGE, LONGEST_PAGE};
pub use sessions::{MOST_SESSIONS, Sessions};
pub use sliced_save::Rows;
