//! Numbers of the message format.

/// The bytes of a header (RFC 1035, 4.1.1).
pub const HEADER_SIZE: usize = 12;

/// A reply may be given no lower limit: the bytes of a message over UDP (RFC 1035, 4.2.1).
pub const LEAST_LIMIT: usize = 512;

/// A reply may be given no higher limit: the bytes of a message over TCP, whose length has 16 bits
/// (RFC 1035, 4.2.2).
pub const GREATEST_LIMIT: usize = 65_535;

/// The bytes of a message over UDP that this server reads, and the most that it sends: what the least MTU of IPv6 leaves
/// beside the headers of IPv6 and UDP, so that no datagram is split (RFC 6891, 6.2.5; RFC 8200, 5).
pub const EDNS_SIZE: u16 = 1232;

/// The time to live of each record, in seconds (RFC 1035, 4.1.3).
pub const TIME_TO_LIVE: u32 = 600;

/// The class of each record: IN, the internet (RFC 1035, 3.2.4).
pub(crate) const CLASS_IN: u16 = 1;

/// The bytes of a record between its owner and its RDATA: TYPE, CLASS, TTL and RDLENGTH (RFC 1035, 4.1.3).
pub(crate) const FIXED_SIZE: usize = 10;

/// The bytes of a question behind its name: QTYPE and QCLASS (RFC 1035, 4.1.2).
pub(crate) const TYPE_AND_CLASS_SIZE: usize = 4;

/// The TYPE of an OPT record (RFC 6891, 6.1.2).
pub(crate) const OPT: u16 = 41;

/// The bytes of an OPT record without options (RFC 6891, 6.1.2).
pub(crate) const OPT_SIZE: usize = 11;

/// The version of EDNS that this server knows (RFC 6891, 6.1.3).
pub(crate) const EDNS_VERSION: u8 = 0;

/// DO, the highest bit of an OPT record's flags (RFC 3225, 3; RFC 6891, 6.1.3).
pub(crate) const DO: u16 = 0x8000;

/// A pointer to the question's name, which stands right behind the header: two bits 1, and the offset 12
/// (RFC 1035, 4.1.4).
pub(crate) const POINTER: [u8; 2] = [0xc0, 0x0c];

// The fields of a header's flags (RFC 1035, 4.1.1), each by the weight of its lowest bit.

/// QR: a response.
pub(crate) const QR: u16 = 0x8000;

/// OPCODE, of four bits: the kind of query.
pub(crate) const OPCODE: u16 = 0x0800;

/// AA: an authoritative answer.
pub(crate) const AA: u16 = 0x0400;

/// TC: the message was truncated.
pub(crate) const TC: u16 = 0x0200;

/// RD: recursion is desired.
pub(crate) const RD: u16 = 0x0100;

/// OPCODE of a standard query.
pub(crate) const QUERY: u16 = 0;
