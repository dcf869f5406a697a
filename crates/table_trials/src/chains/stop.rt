//! Why a trial stops before its end.

/// What is wrong with a trial, or that there was no memory for the index.
#[derive(Clone, Copy, PartialEq, Eq, Debug)]
pub enum Stop {
    NoMemory,
    Wrong(&'static str),
}
