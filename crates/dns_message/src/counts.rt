//! The sections of a reply, and how many records stand in each.

ghost use Rattle.std.specs.Prelude.{◌≡◌, ◌+◌, ◌<◌};
ghost use Rattle.dns_message.specs.Edns.{additionals_of_reply};
ghost use Rattle.dns_message.specs.Replies.{header_by};
ghost use Rattle.dns_message.specs.Holding.{one_more_of};
ghost use Rattle.dns_message.specs.declared.numbers.TheConstants.{GREATEST_LIMIT};

use crate::edns::{Edns, additionals};
use crate::header::Header;

/// The sections of a reply that hold records (RFC 1035, 4.1).
#[derive(Clone, Copy, Debug)]
pub enum Section {
    Answer,
    Authority,
}

/// How many records stand in the sections of a reply.
#[derive(Clone, Copy)]
pub(crate) struct Counts {
    pub answers: u16,
    pub authorities: u16,
}

impl Counts {
    /// No records.
    pub(crate) fn none() -> Counts
        ensures { result ≡ record { answers = 0; authorities = 0 } }
    {
        Counts {
            answers: 0,
            authorities: 0,
        }
    }

    /// With one record more of this section.
    pub(crate) fn one_more(self, section: Section) -> Counts
        requires { self.answers + self.authorities < GREATEST_LIMIT }
        ensures { result ≡ one_more_of section self }
    {
        match section {
            Section::Answer => Counts {
                answers: self.answers + 1,
                authorities: self.authorities,
            },
            Section::Authority => Counts {
                answers: self.answers,
                authorities: self.authorities + 1,
            },
        }
    }

    /// The header of a reply with one question and these records, to a query of this EDNS.
    pub(crate) fn header(self, id: u16, flags: u16, edns: Option<Edns>) -> Header
        ensures { result ≡ header_by id flags self.answers self.authorities (additionals_of_reply edns) }
    {
        Header {
            id,
            flags,
            questions: 1,
            answers: self.answers,
            authorities: self.authorities,
            additionals: additionals(edns),
        }
    }
}
