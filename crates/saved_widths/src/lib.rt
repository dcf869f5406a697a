//! What the chain's log says is as wide as its fields, where its start list is; so each text of its index that is short enough is read again. It has no code.
#![tactic(auto)]

mod laws;

pub use laws::{chains_have_widths, starts_are_wide, texts_are_read_again};
