//! The OPT record of a query, and that of its reply.

ghost use Rattle.std.specs.Prelude.{◌≡◌, ◌+◌, ◌≤◌, ◌&&◌, ◌++◌, [], length, take};
ghost use Rattle.dns_message.specs.Edns.{opt_text, edns_of_reply, opt_of_reply, opt_size_of_reply, additionals_of_reply};
ghost use Rattle.dns_message.specs.Reading.{begins_opt, has_additional, opt_at, additional_at};

use crate::header::{Header, word};
use crate::numbers::{DO, EDNS_SIZE, EDNS_VERSION, OPT, OPT_SIZE};
use crate::write::put;

/// What the OPT record of a query tells of its sender (RFC 6891, 6.1.3):
///
///     +--+--+--+--+--+--+--+--+
///     |           0           |  NAME, the root
///     +--+--+--+--+--+--+--+--+--+--+--+--+--+--+--+--+
///     |                   TYPE: 41                    |
///     |           CLASS: UDP payload size             |
///     |    extended RCODE     |        VERSION        |
///     |DO|                    Z                       |
///     |                   RDLENGTH                    |
///     +--+--+--+--+--+--+--+--+--+--+--+--+--+--+--+--+
///     |                RDATA: options                 |
#[derive(Clone, Copy, Debug)]
pub struct Edns {
    /// So many bytes of a message over UDP can it take.
    pub size: u16,
    pub version: u8,
    /// DO: it can take DNSSEC's records (RFC 3225, 3).
    pub dnssec: bool,
}

/// What stands behind a question.
#[derive(Clone, Copy)]
pub(crate) enum Additional {
    /// No OPT record.
    NoOpt,
    /// An OPT record, whole.
    Opt(Edns),
    /// An OPT record inside which the message ends.
    CutOpt,
}

/// Whether the counts of a header let an OPT record stand right behind the question.
fn may_have_opt(header: Header) -> bool
    ensures { result ≡ has_additional header }
{
    header.answers == 0 && header.authorities == 0 && header.additionals != 0
}

/// Whether the root and the type of an OPT record stand at the front.
fn is_opt(more: &[u8]) -> bool
    ensures { result ≡ begins_opt more.now }
{
    more.len() >= 3 && more[0] == 0 && word(more, 1) == OPT
}

/// The OPT record at the front, by its length.
fn read_opt(more: &[u8]) -> Additional
    ensures { result ≡ opt_at more.now }
{
    if more.len() < OPT_SIZE {
        return Additional::CutOpt;
    }
    if more.len() - OPT_SIZE < usize::from(word(more, 9)) {
        return Additional::CutOpt;
    }
    Additional::Opt(Edns {
        size: word(more, 3),
        version: more[6],
        dnssec: word(more, 7) / DO == 1,
    })
}

/// The OPT record behind a question, which has the bytes behind it.
#[tactic(auto, unfolding(crate::specs::Reading::additional_at))]
pub(crate) fn read_additional(header: Header, more: &[u8]) -> Additional
    ensures { result ≡ additional_at header more.now }
{
    if may_have_opt(header) && is_opt(more) {
        read_opt(more)
    } else {
        Additional::NoOpt
    }
}

/// How many OPT records the reply has.
pub(crate) fn additionals(edns: Option<Edns>) -> u16
    ensures { result ≡ additionals_of_reply edns }
{
    match edns {
        Some(_) => 1,
        None => 0,
    }
}

/// The bytes of the reply's OPT record.
pub(crate) fn opt_size(edns: Option<Edns>) -> usize
    ensures { result ≡ opt_size_of_reply edns }
{
    match edns {
        Some(_) => OPT_SIZE,
        None => 0,
    }
}

impl Edns {
    /// The OPT record of the reply.
    fn reply_bytes(self, extended: u8) -> [u8; OPT_SIZE]
        ensures { result ≡ opt_text (edns_of_reply self) extended 0 [] }
    {
        let flags = if self.dnssec { DO } else { 0 };
        let [type_high, type_low] = OPT.to_be_bytes();
        let [size_high, size_low] = EDNS_SIZE.to_be_bytes();
        let [flags_high, flags_low] = flags.to_be_bytes();
        [
            0,
            type_high,
            type_low,
            size_high,
            size_low,
            extended,
            EDNS_VERSION,
            flags_high,
            flags_low,
            0,
            0,
        ]
    }
}

/// Writes the reply's OPT record at a place, if it has one, and gives the place behind it.
pub(crate) fn put_opt(buf: &mut [u8], at: usize, edns: Option<Edns>, extended: u8) -> usize
    requires { at + opt_size_of_reply edns ≤ length buf.old }
    ensures end { result ≡ at + opt_size_of_reply edns }
    ensures text { take result buf.new ≡ take at buf.old ++ opt_of_reply edns extended }
{
    match edns {
        Some(edns) => put(buf, at, &edns.reply_bytes(extended)),
        None => at,
    }
}
