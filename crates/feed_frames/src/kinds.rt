//! The table of the kinds of frames.

use nmc_base::LONGEST_BLOCK;

/// A kind of frame, and the least and the greatest length of its payload.
#[derive(Clone, Copy, PartialEq, Eq, Debug)]
pub struct Kind {
    pub byte: u8,
    pub least: usize,
    pub greatest: usize,
}

/// No message of DNS is longer: its length has 16 bits (RFC 1035, 4.2.2).
pub const LONGEST_MESSAGE: usize = 65_535;

/// No kind of frame has a longer payload.
pub const LONGEST_PAYLOAD: usize = LONGEST_BLOCK;

/// The kinds of frames, by their numbers from 1 on. Who reads frames reads those up to a number; a kind more is one row more.
pub const KINDS: [Kind; 9] = [
    // a block that is to join the chain
    Kind {
        byte: 1,
        least: 0,
        greatest: LONGEST_BLOCK,
    },
    // the hash of the newest block, which is to leave it
    Kind {
        byte: 2,
        least: 32,
        greatest: 32,
    },
    // a message of DNS, which is to be answered
    Kind {
        byte: 3,
        least: 0,
        greatest: LONGEST_MESSAGE,
    },
    // the index is to be saved; there is nothing else to say
    Kind {
        byte: 4,
        least: 0,
        greatest: 0,
    },
    // a listing of the names as they are now is to be opened
    Kind {
        byte: 5,
        least: 0,
        greatest: 0,
    },
    // the number of a listing, whose next page is asked for
    Kind {
        byte: 6,
        least: 4,
        greatest: 4,
    },
    // the number of a listing, which is to be closed
    Kind {
        byte: 7,
        least: 4,
        greatest: 4,
    },
    // a save in slices is to begin
    Kind {
        byte: 8,
        least: 0,
        greatest: 0,
    },
    // how many bytes the next slice of that save may have
    Kind {
        byte: 9,
        least: 4,
        greatest: 4,
    },
];
