//! Tables of lines, which stand as bytes: so nothing is proved of each of their letters. What a run over bytes is.

use crate::outside::{Outside, end_of};
use crate::streams::{Given, Pace, Taken};
use crate::texts::add_word;
use bridge_core::Status;
use nmc_base::NoMemory;
use std::alloc::{AllocError, Global};

/// The text of a table; empty where it is none.
pub(crate) fn text(table: &[u8]) -> &str {
    std::str::from_utf8(table).unwrap_or("")
}

/// Adds the bytes that a text of words stands for.
pub(crate) fn add_words(bytes: &mut Vec<u8>, text: &str) -> Result<(), AllocError> {
    for word in text.split(' ') {
        add_word(bytes, word)?;
    }
    Ok(())
}

/// The bytes of all lines of a table.
pub(crate) fn bytes_of_lines(alloc: Global, table: &[u8]) -> Result<Vec<u8>, AllocError> {
    let mut all = Vec::new(alloc);
    for line in text(table).lines() {
        add_words(&mut all, line)?;
    }
    Ok(all)
}

/// Runs the words over the bytes and the files, into an empty sink.
pub(crate) fn run_of(
    alloc: Global,
    outside: &mut Outside,
    words: &str,
    input: &[u8],
) -> Result<Status, NoMemory> {
    outside.source = Given::new(alloc, input, Pace::Whole, 0)?;
    outside.sink = Taken::new(alloc, Pace::Whole, 0)?;
    Ok(end_of(alloc, outside, words))
}

/// Replays the bytes.
pub(crate) fn replay_of(
    alloc: Global,
    outside: &mut Outside,
    input: &[u8],
) -> Result<Status, NoMemory> {
    run_of(alloc, outside, "replay", input)
}
