//! The coins of name outputs, by outpoint: a map whose places are taken before anything is put there.
#![tactic(auto)]

mod coins;
mod widths;

pub use chain_names::Coin;
pub use coins::Coins;
