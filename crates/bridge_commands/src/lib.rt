//! The commands of the program, by the words of its command line; among them the making of files, of a base alone or from a snapshot that a source gives.
#![tactic(auto)]

mod command;
mod course;
mod dumping;
mod fields;
mod making;
mod numbers;
mod playing;
mod self_test;
mod serving;
mod start_fault;
mod starting;
mod summary;
mod words;
mod wrong;

pub use bridge_core::Status;
pub use command::run;
pub use fields::LONGEST_HOST_NAME;
pub use numbers::{MOST_BLOCKS, MOST_ROWS, MOST_TURNS};
pub use start_fault::StartFault;
pub use starting::make_from;
pub use words::{Command, Plan, Start, Trial, read_words};
pub use wrong::{Field, Form, Wrong, WrongWord};
