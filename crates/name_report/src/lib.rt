//! The report of an index: its tip, and each name with all that it was given, as text for a sink; and how many names it has.
#![tactic(auto)]

mod counting;
mod laws;
mod lines;
mod order;
mod page;
mod reporting;

pub use counting::{NameCounts, count_names};
pub use laws::{one_count, one_report};
pub use reporting::{ReportFault, report};
