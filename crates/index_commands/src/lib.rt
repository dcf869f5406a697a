//! What a command does to an index, by the index alone, and so to each chain that it stands for; and the area that keeps commands: they
//! are followed one by one from an index on, and kept.
#![tactic(auto)]

mod areas;
mod command;
mod following;
mod keeping;
mod laws;
mod limits;
mod reading;
mod staged;
mod staging;

pub use areas::{Followed, follow_commands};
pub use command::ChainCommand;
pub use following::{Unfollowed, follow};
pub use keeping::keep;
pub use laws::{allowed_in_two_parts, commands_follow, commands_lead, one_lead, one_result};
pub use limits::LONGEST_AREA;
pub use staged::{CommandOutcome, CommandRefusal, StagedCommand};
pub use staging::stage;
