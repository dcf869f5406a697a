//! Reads a query.

ghost use Rattle.std.specs.Prelude.{◌≡◌, ◌↔◌, option_map};
ghost use Rattle.dns_message.specs.Query.{Reading, ReadsAs, IsQuery, IfQuery, IsByVersion, query_of, asked_of};
ghost use Rattle.dns_message.specs.Reading.{query_at, with_additional, reading_behind, reading_of};

use crate::edns::{Additional, Edns, read_additional};
use crate::header::{Header, is_response, opcode, word};
use crate::name::name_len;
use crate::numbers::{EDNS_VERSION, HEADER_SIZE, QUERY, TYPE_AND_CLASS_SIZE};
use domain_text::LONGEST_WIRE;

/// A question (RFC 1035, 4.1.2), and the ID and the flags of its query. The name is in its wire form, as it stands
/// in the message: labels of 1 to 63 bytes, each behind its length, and a 0; in all at most 255 bytes.
#[derive(Clone, Copy, Debug)]
pub struct Question<'a> {
    pub id: u16,
    pub flags: u16,
    /// QNAME.
    pub name: &'a [u8],
    /// QTYPE.
    pub kind: u16,
    /// QCLASS.
    pub class: u16,
    /// What its OPT record tells, if it has one (RFC 6891, 6.1).
    pub edns: Option<Edns>,
}

/// What comes of a message.
#[derive(Clone, Copy, Debug)]
pub enum Asked<'a> {
    /// It is a query of one question, without an OPT record or with one of version 0.
    Query(Question<'a>),
    /// It gets a reply that tells version 0: its OPT record has another one (RFC 6891, 6.1.3).
    BadVersion(Question<'a>),
    /// It gets no reply: it has no whole header, or it is a response.
    Drop,
    /// It gets a format error: it isn't one question, or it ends inside its OPT record.
    FormErr { id: u16, flags: u16 },
    /// It gets 'not implemented': its opcode isn't that of a standard query.
    NotImp { id: u16, flags: u16 },
}

/// The question behind a header, and the bytes behind it, which aren't read yet.
#[tactic(auto, unfolding(crate::specs::Reading::query_at))]
fn read_question<'a>(header: Header, bytes: &'a [u8]) -> Option<(Question<'a>, &'a [u8])>
    ensures { option_map (λ found. (query_of found.0, found.1.now)) result ≡ query_at header bytes.now }
{
    let len = name_len(bytes)?;
    if len > LONGEST_WIRE {
        return None;
    }
    let (name, rest) = bytes.split_at_checked(len)?;
    if rest.len() < TYPE_AND_CLASS_SIZE {
        return None;
    }
    let question = Question {
        id: header.id,
        flags: header.flags,
        name,
        kind: word(rest, 0),
        class: word(rest, 2),
        edns: None,
    };
    Some((question, rest.split_at(TYPE_AND_CLASS_SIZE).1))
}

/// What comes of a question, and of what stands behind it.
fn with_additional<'a>(question: &Question<'a>, additional: Additional) -> Asked<'a>
    ensures { asked_of result ≡ with_additional (query_of question.now) additional }
{
    match additional {
        Additional::NoOpt => Asked::Query(*question),
        Additional::CutOpt => Asked::FormErr {
            id: question.id,
            flags: question.flags,
        },
        Additional::Opt(edns) => {
            let asked = Question {
                edns: Some(edns),
                ..*question
            };
            if edns.version == EDNS_VERSION {
                Asked::Query(asked)
            } else {
                Asked::BadVersion(asked)
            }
        }
    }
}

/// What comes of a message of this header.
#[tactic(auto, unfolding(crate::specs::Reading::reading_behind))]
fn read_behind<'a>(header: Header, rest: &'a [u8]) -> Asked<'a>
    ensures { asked_of result ≡ reading_behind header rest.now }
{
    let Header { id, flags, .. } = header;
    if is_response(flags) {
        return Asked::Drop;
    }
    if opcode(flags) != QUERY {
        return Asked::NotImp { id, flags };
    }
    if header.questions != 1 {
        return Asked::FormErr { id, flags };
    }
    match read_question(header, rest) {
        Some((question, more)) => with_additional(&question, read_additional(header, more)),
        None => Asked::FormErr { id, flags },
    }
}

/// The same, of its bytes.
#[tactic(auto, unfolding(crate::specs::Reading::reading_of))]
fn read_message<'a>(bytes: &'a [u8]) -> Asked<'a>
    ensures { asked_of result ≡ reading_of bytes.now }
{
    if bytes.len() < HEADER_SIZE {
        return Asked::Drop;
    }
    read_behind(Header::read(bytes), bytes.split_at(HEADER_SIZE).1)
}

/// What comes of a message (RFC 1035, 4.1). Behind the question only an OPT record is read that stands right there
/// (RFC 6891, 6.1), and of it neither the extended RCODE nor the options.
pub fn read_query<'a>(bytes: &'a [u8]) -> Asked<'a>
    // It depends on the message alone.
    ensures reading { asked_of result ≡ reading_of bytes.now }
    // It is what the rules say, one rule for each cause.
    ensures rules { (reading : Reading) → (asked_of result ≡ reading) ↔ ReadsAs bytes.now reading }
    // A question that is found is that of a query, so its name is a name.
    ensures query { IfQuery result (λ question. IsQuery (query_of question) bytes.now) }
    // Its version of EDNS is 0, or it is found as one of another version.
    ensures version { IsByVersion result }
{
    read_message(bytes)
}
