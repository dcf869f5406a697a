//! A journal of records in a file: each record counts once the gate before it is open.
#![tactic(auto)]

mod faults;
mod gate;
mod journal;
mod law;
mod reading;
mod staged;

pub use faults::{AppendFault, JournalFault};
pub use gate::open_gate;
pub use journal::Journal;
pub use law::{
    gate_behind_records, image_and_records_of_an_area, records_of_a_journal, records_up_to_a_gate,
};
