//! Reading a snapshot that comes in pieces: the start list of a chain, make by make, into the index of the chain of no blocks on its base; or the place of its first fault; and reading one from a source, piece by piece, up to its end, a fault or a limit. It knows no file.
#![tactic(auto)]

mod fault;
mod feed_fault;
mod feeding;
mod found;
mod head;
mod laws;
mod makes;
mod next;
mod putting;
mod reading;
mod source_feeding;
mod source_reading;
mod turning;
mod values;

pub use fault::SnapshotFault;
pub use feed_fault::FeedFault;
pub use feeding::Snapshot;
pub use laws::{
    answers_exclude, faults_stay, images_are_short, one_answer, worked_rows, worked_texts,
};
pub use source_reading::read_snapshot;
