//! Answers of the zone `bit.` (RFC 1034, 4.3.2): what a question is answered with, from the values of the names that are served, and whole replies to DNS messages.
#![tactic(auto)]

mod cases;
mod limits;
mod node;
mod numbers;
mod place;
mod question;
mod rdata;
mod reply_laws;
mod replying;
mod resource;
pub mod rr_type;
mod short_bytes;
mod simple;
mod way;
mod writing;
mod zone;

pub use limits::{CLASS_IN, EXPIRE, MINIMUM, MOST_CNAMES, REFRESH, RETRY};
pub use numbers::numbers_of_answers;
pub use question::resolve;
pub use reply_laws::{replies_are_lawful, truncated_replies_are_headed};
pub use replying::{Answered, Replied, answer, reply_to_question};
pub use resource::{Resource, Resources, Sections};
pub use short_bytes::ShortBytes;
pub use zone::Zone;
