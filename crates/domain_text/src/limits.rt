//! How long labels and names may be.

/// No label has more bytes (RFC 1035, 2.3.4).
pub const LONGEST_LABEL: usize = 63;

/// No name has more bytes on the wire, with the lengths of its labels and the 0 behind them (RFC 1035, 2.3.4).
pub const LONGEST_WIRE: usize = 255;
