//! The limit of an area.

/// No area is longer: 2^42 bytes.
pub const LONGEST_AREA: u64 = 1 << 42;
