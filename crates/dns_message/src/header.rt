//! The header of a message.

ghost use Rattle.std.specs.Prelude.{◌≡◌, ◌==◌, ◌≤◌, ◌+◌, ◌++◌, length, drop};
ghost use Rattle.dns_message.specs.Header.{header_text, flags_of_reply, qr_of, opcode_of};
ghost use Rattle.dns_message.specs.Reading.{word_at, header_at};
ghost use Rattle.dns_message.specs.declared.numbers.TheConstants.{HEADER_SIZE};

use crate::numbers::{AA, HEADER_SIZE, OPCODE, QR, RD, TC};
use crate::write::put;

/// The header of a message (RFC 1035, 4.1.1), each number of 16 bits, the high byte first:
///
///       0  1  2  3  4  5  6  7  8  9 10 11 12 13 14 15
///     +--+--+--+--+--+--+--+--+--+--+--+--+--+--+--+--+
///     |                      ID                       |
///     |QR|   OPCODE  |AA|TC|RD|RA|   Z    |   RCODE   |
///     |                    QDCOUNT                    |
///     |                    ANCOUNT                    |
///     |                    NSCOUNT                    |
///     |                    ARCOUNT                    |
///     +--+--+--+--+--+--+--+--+--+--+--+--+--+--+--+--+
#[derive(Clone, Copy)]
pub(crate) struct Header {
    pub id: u16,
    pub flags: u16,
    pub questions: u16,
    pub answers: u16,
    pub authorities: u16,
    pub additionals: u16,
}

/// The number of 16 bits at a place, the high byte first.
pub(crate) fn word(bytes: &[u8], at: usize) -> u16
    requires { at + 2 ≤ length bytes.now }
    ensures { result ≡ word_at at bytes.now }
{
    u16::from_be_bytes([bytes[at], bytes[at + 1]])
}

impl Header {
    /// The header at the front of a message.
    pub(crate) fn read(bytes: &[u8]) -> Header
        requires { HEADER_SIZE ≤ length bytes.now }
        ensures { result ≡ header_at bytes.now }
    {
        Header {
            id: word(bytes, 0),
            flags: word(bytes, 2),
            questions: word(bytes, 4),
            answers: word(bytes, 6),
            authorities: word(bytes, 8),
            additionals: word(bytes, 10),
        }
    }

    /// The bytes of the header.
    fn to_bytes(self) -> [u8; HEADER_SIZE]
        ensures { result ≡ header_text self }
    {
        let [id_high, id_low] = self.id.to_be_bytes();
        let [flags_high, flags_low] = self.flags.to_be_bytes();
        let [questions_high, questions_low] = self.questions.to_be_bytes();
        let [answers_high, answers_low] = self.answers.to_be_bytes();
        let [authorities_high, authorities_low] = self.authorities.to_be_bytes();
        let [additionals_high, additionals_low] = self.additionals.to_be_bytes();
        [
            id_high,
            id_low,
            flags_high,
            flags_low,
            questions_high,
            questions_low,
            answers_high,
            answers_low,
            authorities_high,
            authorities_low,
            additionals_high,
            additionals_low,
        ]
    }

    /// Writes the header at the front of a buffer.
    pub(crate) fn put(self, buf: &mut [u8])
        requires { HEADER_SIZE ≤ length buf.old }
        ensures { buf.new ≡ header_text self ++ drop HEADER_SIZE buf.old }
    {
        put(buf, 0, &self.to_bytes());
    }
}

/// Whether these are the flags of a response.
pub(crate) fn is_response(flags: u16) -> bool
    ensures { result ≡ (qr_of flags == 1) }
{
    flags / QR == 1
}

/// The kind of query that flags tell.
pub(crate) fn opcode(flags: u16) -> u16
    ensures { result ≡ opcode_of flags }
{
    flags / OPCODE % 16
}

/// The flags of a reply to a query of these flags. Of RCODE the header has the four low bits (RFC 6891, 6.1.3).
pub(crate) fn reply_flags(flags: u16, aa: bool, tc: bool, rcode: u8) -> u16
    ensures { result ≡ flags_of_reply flags aa tc rcode }
{
    let kept = opcode(flags) * OPCODE + flags / RD % 2 * RD;
    let authoritative = if aa { AA } else { 0 };
    let truncated = if tc { TC } else { 0 };
    QR + kept + authoritative + truncated + u16::from(rcode % 16)
}
