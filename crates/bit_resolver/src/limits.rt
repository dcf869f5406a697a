//! Numbers of the zone `bit.` and of its answers.

/// QCLASS and CLASS of the internet: IN (RFC 1035, 3.2.4).
pub const CLASS_IN: u16 = 1;

/// No answer has more CNAME records: there its chase ends.
pub const MOST_CNAMES: u8 = 8;

/// REFRESH of the zone, in seconds (RFC 1035, 3.3.13).
pub const REFRESH: u32 = 600;

/// RETRY of the zone, in seconds (RFC 1035, 3.3.13).
pub const RETRY: u32 = 600;

/// EXPIRE of the zone, in seconds (RFC 1035, 3.3.13).
pub const EXPIRE: u32 = 7200;

/// MINIMUM of the zone: a negative answer may be kept for so many seconds (RFC 2308, 4).
pub const MINIMUM: u32 = 600;
