//! The numbers of TYPEs and QTYPEs.

/// An IPv4 address (RFC 1035, 3.2.2).
pub const A: u16 = 1;

/// A name server (RFC 1035, 3.2.2).
pub const NS: u16 = 2;

/// The canonical name of an alias (RFC 1035, 3.2.2).
pub const CNAME: u16 = 5;

/// The start of a zone of authority (RFC 1035, 3.2.2).
pub const SOA: u16 = 6;

/// A mail exchange (RFC 1035, 3.2.2).
pub const MX: u16 = 15;

/// Texts (RFC 1035, 3.2.2).
pub const TXT: u16 = 16;

/// An IPv6 address (RFC 3596, 2.1).
pub const AAAA: u16 = 28;

/// A service (RFC 2782).
pub const SRV: u16 = 33;

/// Another name for all that is below the owner (RFC 6672, 2.1).
pub const DNAME: u16 = 39;

/// A delegation signer (RFC 4034, 5).
pub const DS: u16 = 43;

/// A fingerprint of an SSH key (RFC 4255, 3).
pub const SSHFP: u16 = 44;

/// A certificate of TLS (RFC 6698, 7.1).
pub const TLSA: u16 = 52;

/// QTYPE of an incremental zone transfer (RFC 1995, 2).
pub const IXFR: u16 = 251;

/// QTYPE of a zone transfer (RFC 1035, 3.2.3).
pub const AXFR: u16 = 252;

/// QTYPE of all records: `*`, or ANY (RFC 1035, 3.2.3).
pub const ANY: u16 = 255;
