//! The machine that the program is: its steps and runs, with their laws; and the bridge, which makes them over a disk: it deals with events one by one, and with whole streams of frames, and keeps its commands in files.
#![tactic(auto)]

mod answering;
mod bridge;
pub mod codes;
mod desk;
mod event;
mod index_answers;
mod laws;
mod opening;
mod querying;
mod replaying;
mod replies;
mod reply_room;
mod served;
mod slicing;
mod status;

pub use answering::{Request, act};
pub use bridge::{Bridge, Turned};
pub use event::{Event, read_event};
pub use frame_loop::ReplyBuf;
pub use index_answers::answer;
pub use index_commands::ChainCommand;
pub use kept_answers::Cache;
pub use laws::{decided_step, disconnecting_forgets, done_or_left, one_surviving, surviving_chain};
pub use name_store::OpenFault;
pub use opening::{let_go, unopened};
pub use replaying::{replay, status_of};
pub use replies::{lack_memory, refuse_save, tell_fault};
pub use slicing::{DraftTurned, SliceTurned};
pub use status::Status;
