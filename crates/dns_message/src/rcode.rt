//! The response codes.

/// No error (RFC 1035, 4.1.1).
pub const NOERROR: u8 = 0;

/// Format error: the query was not understood (RFC 1035, 4.1.1).
pub const FORMERR: u8 = 1;

/// Server failure (RFC 1035, 4.1.1).
pub const SERVFAIL: u8 = 2;

/// Name error: there is no such name (RFC 1035, 4.1.1).
pub const NXDOMAIN: u8 = 3;

/// Not implemented: a kind of query that is not answered (RFC 1035, 4.1.1).
pub const NOTIMP: u8 = 4;

/// Refused (RFC 1035, 4.1.1).
pub const REFUSED: u8 = 5;

/// A name that a DNAME leads to is too long (RFC 6672, 2.2; RFC 2136, 2.2).
pub const YXDOMAIN: u8 = 6;

/// The query's version of EDNS is none that is known: its high bits stand in the OPT record (RFC 6891, 6.1.3 and 9).
pub const BADVERS: u8 = 16;
