//! Reading the image of a state, of either version, that comes in pieces: its base, its records and its tables, where it is the text of a sound state; else the place of its first fault.
#![tactic(auto)]

mod fault;
mod head;
mod histories;
mod live_coins;
mod loader;
mod next;
mod reading;
mod records;
mod settling;
mod turning;
mod values;

pub use fault::ImageFault;
pub use loader::Loader;
pub use settling::let_go;
