//! Sizes of the parts of what is kept, and of a reply.

/// The bytes of what is kept of a reply before its records.
pub(crate) const HEAD_SIZE: usize = 8;

/// The bytes of a question behind its name: QTYPE and QCLASS (RFC 1035, 4.1.2).
pub(crate) const TYPE_AND_CLASS_SIZE: usize = 4;

/// The bytes of an OPT record without options (RFC 6891, 6.1.2).
pub(crate) const OPT_SIZE: usize = 11;

/// The TYPE of an OPT record (RFC 6891, 6.1.2).
pub(crate) const OPT: u16 = 41;

/// DO, the highest bit of an OPT record's flags (RFC 3225, 3; RFC 6891, 6.1.3).
pub(crate) const DO: u16 = 0x8000;

// The fields of a header's flags (RFC 1035, 4.1.1), each by the weight of its lowest bit.

/// QR: a response.
pub(crate) const QR: u16 = 0x8000;

/// OPCODE, of four bits: the kind of query.
pub(crate) const OPCODE: u16 = 0x0800;

/// RD: recursion is desired.
pub(crate) const RD: u16 = 0x0100;

/// What a bit of the high byte weighs.
pub(crate) const HIGH: u16 = 0x0100;

/// AA, in the high byte of the flags: an authoritative answer.
pub(crate) const AA: u8 = 0x04;

/// TC, in the high byte of the flags: the message was truncated.
pub(crate) const TC: u8 = 0x02;
