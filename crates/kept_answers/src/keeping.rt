//! What is kept of a reply, and its form in bytes.

ghost use Rattle.std.specs.Prelude.{◌≡◌, ℕ, ◌≤◌, ◌++◌, List, length};
ghost use Rattle.dns_message.specs.Query.{Query, query_of};
ghost use Rattle.dns_message.specs.Replies.{head_text};
ghost use Rattle.dns_message.specs.Edns.{opt_size_of_reply};
ghost use Rattle.dns_message.specs.declared.numbers.TheConstants.{HEADER_SIZE};
ghost use Rattle.kept_answers.specs.Kept.{Kept, IsKept, reply_with, kept_head, kept_text};

use crate::numbers::{AA, HEAD_SIZE, OPT_SIZE, TC, TYPE_AND_CLASS_SIZE};
use dns_message::{Edns, HEADER_SIZE, Question};

/// What is kept of a reply, in 8 bytes and its records:
///
///       0  1  2  3  4  5  6  7  8  9 10 11 12 13 14 15
///     +--+--+--+--+--+--+--+--+--+--+--+--+--+--+--+--+
///     |        0     |AA|TC| 0|         RCODE         |
///     |                    ANCOUNT                    |
///     |                    NSCOUNT                    |
///     |                       0                       |
///     +--+--+--+--+--+--+--+--+--+--+--+--+--+--+--+--+
///     |         records of answer and authority       |
#[derive(Clone, Copy, Debug)]
pub struct KeptReply<'a> {
    /// Its 8 bytes.
    pub head: [u8; HEAD_SIZE],
    /// Its records, as they stand in the reply.
    pub records: &'a [u8],
}

/// The bytes of a reply's OPT record.
pub(crate) fn opt_size(edns: Option<Edns>) -> usize
    ensures { result ≡ opt_size_of_reply edns }
{
    match edns {
        Some(_) => OPT_SIZE,
        None => 0,
    }
}

/// The 8 bytes, from a reply's header.
fn kept_head(reply: &[u8]) -> [u8; HEAD_SIZE]
    requires { HEADER_SIZE ≤ length reply.now }
    ensures { (q : Query) (k : Kept) (rest : List ℕ) → IsKept k
        → reply.now ≡ head_text q k.rcode k.aa k.tc k.answers k.authorities ++ rest → result ≡ kept_head k }
{
    let aa = reply[2] / AA % 2 * AA;
    let tc = reply[2] / TC % 2 * TC;
    let rcode = reply[3] % 16;
    [aa + tc, rcode, reply[6], reply[7], reply[8], reply[9], 0, 0]
}

/// The records of a reply to this question.
fn records<'a>(reply: &'a [u8], asked: &Question<'_>) -> &'a [u8]
    requires { (k : Kept) × (reply.now ≡ reply_with (query_of asked.now) k) }
    ensures { (k : Kept) → reply.now ≡ reply_with (query_of asked.now) k → result.now ≡ k.records }
{
    let start = HEADER_SIZE + asked.name.len() + TYPE_AND_CLASS_SIZE;
    &reply[start..reply.len() - opt_size(asked.edns)]
}

/// What is kept of a reply to this question.
pub fn keep<'a>(reply: &'a [u8], asked: &Question<'_>) -> KeptReply<'a>
    requires { (k : Kept) × IsKept k × (reply.now ≡ reply_with (query_of asked.now) k) }
    ensures text { (k : Kept) → IsKept k → reply.now ≡ reply_with (query_of asked.now) k
        → result.head ++ result.records.now ≡ kept_text k }
    ensures records { (k : Kept) → reply.now ≡ reply_with (query_of asked.now) k → result.records.now ≡ k.records }
{
    KeptReply {
        head: kept_head(reply),
        records: records(reply, asked),
    }
}
