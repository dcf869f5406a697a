//! The numbers of the files: gates, the header, and how many saves and bytes there may be.

// The sizes of the files.

use image_slots::SlotLimits;

/// The length of an area without a command: the length of its image in 8 bytes, and a closed gate.
pub const EMPTY_AREA: u64 = 9;

/// The file that has the header.
pub const HEADER_FILE: u8 = 0;

/// The file that has the commands as long as no save was made.
pub const FIRST_AREA: u8 = 1;

/// So many saves are selected at most, and so many bytes has an image at most: 2^37.
pub const SLOT_LIMITS: SlotLimits = SlotLimits {
    selections: u32::MAX,
    image: 1 << 37,
};

/// So many bytes has a header with the shortest host, and the gate behind it.
pub const SHORTEST_HEADER: u64 = 50;

/// A closed gate.
pub const CLOSED: u8 = 0;

/// An open gate.
pub const OPEN: u8 = 1;
