//! Writes the question and records of a reply.

ghost use Rattle.std.specs.Prelude.{◌≡◌, ◌+◌, ◌≤◌, ◌<◌, ◌^◌, ◌++◌, length, take, IfSome, IfNone};
ghost use Rattle.std.specs.Str.{bytes_eq};
ghost use Rattle.domain_text.specs.Names.{lower};
ghost use Rattle.dns_message.specs.Query.{question_text, query_of};
ghost use Rattle.dns_message.specs.Records.{owner_by, fixed_text, text_by, record_of};
ghost use Rattle.dns_message.specs.declared.numbers.TheConstants.{HEADER_SIZE, FIXED_SIZE, GREATEST_LIMIT};

use crate::numbers::{CLASS_IN, FIXED_SIZE, GREATEST_LIMIT, HEADER_SIZE, POINTER, TIME_TO_LIVE};
use crate::query::Question;
use crate::write::{put, put_lower};

/// Writes the question behind the header, and gives the place behind it.
pub(crate) fn put_question(buf: &mut [u8], asked: &Question<'_>) -> usize
    requires { HEADER_SIZE + length (question_text (query_of asked.now)) ≤ length buf.old }
    ensures end { result ≡ HEADER_SIZE + length (question_text (query_of asked.now)) }
    ensures text { take result buf.new ≡ take HEADER_SIZE buf.old ++ question_text (query_of asked.now) }
{
    let [kind_high, kind_low] = asked.kind.to_be_bytes();
    let [class_high, class_low] = asked.class.to_be_bytes();
    let end = put(buf, HEADER_SIZE, asked.name);
    put(buf, end, &[kind_high, kind_low, class_high, class_low])
}

/// Whether an owner is the question's name, without regard to the case of ASCII letters (RFC 1035, 2.3.3). Most askers write the
/// name as it stands in the owner, so their bytes are compared first, which is quicker.
pub(crate) fn is_asked(asked: &[u8], owner: &[u8]) -> bool
    ensures { result ≡ bytes_eq (lower owner.now) (lower asked.now) }
{
    if owner == asked {
        return true;
    }
    owner.eq_ignore_ascii_case(asked)
}

fn owner_size(is_asked: bool, owner: &[u8]) -> usize
    ensures size { result ≡ length (owner_by is_asked owner.now) }
    ensures small { result < 2 ^ 63 }
{
    if is_asked { POINTER.len() } else { owner.len() }
}

/// Writes an owner at a place: a pointer where it is the question's name, else the name in lower case.
fn put_owner(buf: &mut [u8], at: usize, is_asked: bool, owner: &[u8]) -> usize
    requires { at + length (owner_by is_asked owner.now) ≤ length buf.old }
    ensures end { result ≡ at + length (owner_by is_asked owner.now) }
    ensures text { take result buf.new ≡ take at buf.old ++ owner_by is_asked owner.now }
{
    if is_asked {
        put(buf, at, &POINTER)
    } else {
        put_lower(buf, at, owner)
    }
}

/// Writes TYPE, CLASS, TTL and RDLENGTH at a place.
fn put_fixed(buf: &mut [u8], at: usize, kind: u16, len: u16) -> usize
    requires { at + FIXED_SIZE ≤ length buf.old }
    ensures end { result ≡ at + FIXED_SIZE }
    ensures text { take result buf.new ≡ take at buf.old ++ fixed_text kind len }
{
    let [kind_high, kind_low] = kind.to_be_bytes();
    let [class_high, class_low] = CLASS_IN.to_be_bytes();
    let [ttl_3, ttl_2, ttl_1, ttl_0] = TIME_TO_LIVE.to_be_bytes();
    let [len_high, len_low] = len.to_be_bytes();
    put(
        buf,
        at,
        &[
            kind_high, kind_low, class_high, class_low, ttl_3, ttl_2, ttl_1, ttl_0, len_high,
            len_low,
        ],
    )
}

/// Writes a record behind the first `len` bytes, and gives the place behind it. None where it passes the limit;
/// then nothing is written.
pub(crate) fn append_record(
    buf: &mut [u8],
    len: usize,
    limit: usize,
    is_asked: bool,
    owner: &[u8],
    kind: u16,
    rdata: &[u8],
) -> Option<usize>
    requires room { limit ≤ length buf.old }
    requires within { len ≤ limit }
    requires limit { limit ≤ GREATEST_LIMIT }
    ensures some { IfSome result (λ end. (end ≤ limit)
        × (take end buf.new ≡ take len buf.old ++ text_by is_asked (record_of owner.now kind rdata.now))) }
    ensures none { IfNone result (limit < len + length (text_by is_asked (record_of owner.now kind rdata.now))) }
    ensures same { IfNone result (buf.new ≡ buf.old) }
{
    let size = owner_size(is_asked, owner);
    if rdata.len() > GREATEST_LIMIT {
        return None;
    }
    if limit - len < size + FIXED_SIZE + rdata.len() {
        return None;
    }
    let end = put_owner(buf, len, is_asked, owner);
    let end = put_fixed(buf, end, kind, rdata.len() as u16);
    Some(put(buf, end, rdata))
}
