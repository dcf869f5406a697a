//! Texts of words, and the bytes that they stand for.

use crate::first_block::{FIRST_BLOCK, FIRST_HASH};
use std::alloc::{AllocError, Global};

/// The field of a row at this place; empty where it has none there.
pub(crate) fn field(row: &str, place: usize) -> &str {
    row.split(" | ").nth(place).unwrap_or("")
}

/// The number that the text is, or the other one.
pub(crate) fn number_or(text: &str, other: u64) -> u64 {
    text.parse::<u64>().unwrap_or(other)
}

/// The bytes of a hexadecimal text behind the others.
fn add_digits(bytes: &mut Vec<u8>, digits: &str) -> Result<(), AllocError> {
    let mut high: Option<u8> = None;
    for letter in digits.as_bytes() {
        let low = digit(*letter);
        high = match high {
            None => Some(low),
            Some(h) => {
                bytes.push(h.wrapping_mul(16).wrapping_add(low))?;
                None
            }
        };
    }
    Ok(())
}

fn digit(letter: u8) -> u8 {
    match letter {
        b'0'..=b'9' => letter - b'0',
        b'a'..=b'f' => letter - b'a' + 10,
        _ => 0,
    }
}

/// The words that aren't digits, each with the bytes that it stands for, in two parts.
static WORDS: [(&str, &[u8], &[u8]); 21] = [
    ("block", &FIRST_BLOCK, &[]),
    ("hash", &FIRST_HASH, &[]),
    ("zeros", &[0; 32], &[]),
    ("aas", &[0xAA; 32], &[]),
    // the frame of the first block, and the reply that accepts it: code 0, a length of 36, and height 1
    ("first", &[1, 0x1d, 1, 0, 0], &FIRST_BLOCK),
    ("accepted", &[0, 36, 0, 0, 0, 1, 0, 0, 0], &FIRST_HASH),
    // the reply to a block on the block before the first, where the first is the tip
    ("not-on-tip", &[2, 32, 0, 0, 0], &FIRST_HASH),
    // the frame of the disconnect of the first block, and its reply
    ("back", &[2, 32, 0, 0, 0], &FIRST_HASH),
    ("base", &[0, 36, 0, 0, 0, 0, 0, 0, 0], &[0; 32]),
    ("at-base", &[7, 0, 0, 0, 0], &[]),
    // the frame of a save, and its reply before the number
    ("save", &[4, 0, 0, 0, 0], &[]),
    ("saved", &[0, 8, 0, 0, 0], &[]),
    // the frames of the begin of a save in slices and of a slice before its number of bytes, and the replies: begun, one runs, none
    // runs, there is more, and selected before the number
    ("begin", &[8, 0, 0, 0, 0], &[]),
    ("slice", &[9, 4, 0, 0, 0], &[]),
    ("begun", &[0; 5], &[]),
    ("running", &[33, 0, 0, 0, 0], &[]),
    ("more", &[0, 1, 0, 0, 0], &[0]),
    ("selected", &[0, 9, 0, 0, 0], &[1]),
    // a message that asks nothing, and the reply to it
    ("asked", &[0x12, 0x34, 1, 0], &[0; 8]),
    ("told", &[0x12, 0x34, 0x81, 1], &[0; 8]),
    // a name and its value, as a make of a snapshot tells them
    ("example", b"\x09d/example", b"\x10\x00{\"ip\":\"1.2.3.4\"}"),
];

/// What a word stands for. None where it is digits.
fn pieces(word: &str) -> Option<(&'static [u8], &'static [u8])> {
    for (name, front, behind) in &WORDS {
        if *name == word {
            return Some((*front, *behind));
        }
    }
    None
}

/// A part of the first block, as `block:0-100`.
fn part(word: &str) -> Option<&'static [u8]> {
    let (_, places) = word.split_once(':')?;
    let (from, to) = places.split_once('-')?;
    FIRST_BLOCK.get(from.parse::<usize>().ok()?..to.parse::<usize>().ok()?)
}

/// Adds the bytes that a word stands for.
pub(crate) fn add_word(bytes: &mut Vec<u8>, word: &str) -> Result<(), AllocError> {
    if let Some((front, behind)) = pieces(word) {
        bytes.extend_from_slice(front)?;
        return bytes.extend_from_slice(behind);
    }
    match part(word) {
        Some(part) => bytes.extend_from_slice(part),
        None => add_digits(bytes, word),
    }
}

/// The bytes that a text of words stands for.
pub(crate) fn bytes_of(alloc: Global, text: &str) -> Result<Vec<u8>, AllocError> {
    let mut bytes = Vec::new(alloc);
    for word in text.split(' ') {
        add_word(&mut bytes, word)?;
    }
    Ok(bytes)
}
