//! What carries a message, and how long its reply may be.

ghost use Rattle.std.specs.Prelude.{◌≡◌, ◌≤◌};
ghost use Rattle.dns_message.specs.Limits.{limit_of, most_of, udp_limit};
ghost use Rattle.dns_message.specs.Query.{query_of};
ghost use Rattle.dns_message.specs.declared.numbers.TheConstants.{LEAST_LIMIT, GREATEST_LIMIT};

use crate::edns::Edns;
use crate::numbers::{EDNS_SIZE, GREATEST_LIMIT, LEAST_LIMIT};
use crate::query::Question;

/// What carries a message and the reply to it.
#[derive(Clone, Copy, PartialEq, Eq, Debug)]
pub enum Transport {
    /// A datagram (RFC 1035, 4.2.1).
    Udp,
    /// A stream, in which a length of 16 bits stands before each message (RFC 1035, 4.2.2; RFC 7766).
    Tcp,
}

/// The bytes that a reply over UDP may have.
fn datagram_limit(edns: Option<Edns>) -> usize
    ensures { result ≡ udp_limit edns }
{
    match edns {
        Some(edns) => usize::from(edns.size)
            .max(LEAST_LIMIT)
            .min(usize::from(EDNS_SIZE)),
        None => LEAST_LIMIT,
    }
}

impl Transport {
    /// The bytes that a reply to this question may have, its OPT record with them.
    pub fn limit(self, asked: &Question<'_>) -> usize
        ensures limit { result ≡ limit_of self (query_of asked.now) }
        ensures least { LEAST_LIMIT ≤ result }
        ensures most { result ≤ most_of self }
        ensures greatest { result ≤ GREATEST_LIMIT }
    {
        match self {
            Transport::Udp => datagram_limit(asked.edns),
            Transport::Tcp => GREATEST_LIMIT,
        }
    }

    /// The bytes that a reply may have at most, whatever is asked: so many should a buffer have room for.
    pub fn most(self) -> usize
        ensures { result ≡ most_of self }
    {
        match self {
            Transport::Udp => usize::from(EDNS_SIZE),
            Transport::Tcp => GREATEST_LIMIT,
        }
    }
}
