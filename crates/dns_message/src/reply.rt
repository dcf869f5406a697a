//! A reply that is being written.

ghost use Rattle.std.specs.Prelude.{◌≡◌, ◌+◌, ◌≤◌, ◌++◌, length, take, drop};
ghost use Rattle.domain_text.specs.Names.{IsName};
ghost use Rattle.dns_message.specs.Edns.{opt_of_reply, opt_size_of_reply};
ghost use Rattle.dns_message.specs.Header.{header_text};
ghost use Rattle.dns_message.specs.Query.{Query, query_of};
ghost use Rattle.dns_message.specs.Records.{record_of};
ghost use Rattle.dns_message.specs.Replies.{Contents, without_records, reply_text, bad_version_text, bare_text};
ghost use Rattle.dns_message.specs.Holding.{Holds, with_record, MayAdd};
ghost use Rattle.dns_message.specs.declared.numbers.TheConstants.{HEADER_SIZE, LEAST_LIMIT, GREATEST_LIMIT};

use crate::counts::{Counts, Section};
use crate::edns::{Edns, opt_size, put_opt};
use crate::header::{Header, reply_flags};
use crate::numbers::{HEADER_SIZE, TYPE_AND_CLASS_SIZE};
use crate::query::Question;
use crate::rcode;
use crate::record::{append_record, is_asked, put_question};
use domain_text::Name;

/// A reply that is being written into a buffer. It keeps lengths and counts, and no buffer: each call is given the
/// buffer again, which begins with the bytes that the call before left. The header and the OPT record are written last.
#[derive(Drop)]
pub struct Reply {
    id: u16,
    flags: u16,
    edns: Option<Edns>,
    /// The reply may have so many bytes, its OPT record with them.
    limit: usize,
    /// The place behind the question.
    start: usize,
    /// The place behind the last record.
    len: usize,
    counts: Counts,
    /// A record didn't fit.
    truncated: bool,
}

impl Reply {
    /// A reply to this query, without records yet, of at most so many bytes: 512 to 65,535.
    pub fn new(buf: &mut [u8], limit: usize, asked: &Question<'_>) -> Reply
        requires room { limit ≤ length buf.old }
        requires least { LEAST_LIMIT ≤ limit }
        requires greatest { limit ≤ GREATEST_LIMIT }
        requires name { IsName asked.now.name.now }
        ensures holds { Holds (without_records (query_of asked.now)) result buf.new }
        ensures limit { result.limit ≡ limit }
    {
        let end = put_question(buf, asked);
        Reply {
            id: asked.id,
            flags: asked.flags,
            edns: asked.edns,
            limit,
            start: end,
            len: end,
            counts: Counts::none(),
            truncated: false,
        }
    }

    /// Adds a record of class IN (RFC 1035, 4.1.3) to a section, answers before authority. A reply whose records
    /// pass the limit will have none, and TC.
    pub fn add(&mut self, buf: &mut [u8], section: Section, owner: &Name, kind: u16, rdata: &[u8])
        requires holds { (t : Contents) × Holds t self.old buf.old × MayAdd section t }
        ensures holds { (t : Contents) → Holds t self.old buf.old → MayAdd section t
            → Holds (with_record section (record_of owner.now kind rdata.now) t) self.new buf.new }
        ensures limit { self.new.limit ≡ self.old.limit }
    {
        self.add_wire(buf, section, owner.wire(), kind, rdata);
    }

    /// The same, of an owner in its wire form.
    pub fn add_wire(
        &mut self,
        buf: &mut [u8],
        section: Section,
        owner: &[u8],
        kind: u16,
        rdata: &[u8],
    )
        requires holds { (t : Contents) × Holds t self.old buf.old × MayAdd section t }
        ensures holds { (t : Contents) → Holds t self.old buf.old → MayAdd section t
            → Holds (with_record section (record_of owner.now kind rdata.now) t) self.new buf.new }
        ensures limit { self.new.limit ≡ self.old.limit }
    {
        if self.truncated {
            return;
        }
        let asked = is_asked(&buf[HEADER_SIZE..self.start - TYPE_AND_CLASS_SIZE], owner);
        let limit = self.limit - opt_size(self.edns);
        match append_record(buf, self.len, limit, asked, owner, kind, rdata) {
            Some(len) => {
                self.len = len;
                self.counts = self.counts.one_more(section);
            }
            None => self.truncated = true,
        }
    }

    /// Writes the header and the OPT record, which a reply has where its query has one, and gives the bytes of the reply. Of
    /// RCODE the header has the four low bits, and the OPT record the others (RFC 6891, 6.1.3).
    pub fn finish(self, buf: &mut [u8], rcode: u8, aa: bool) -> usize
        requires { (t : Contents) × Holds t self buf.old }
        ensures text { (t : Contents) → Holds t self buf.old
            → take result buf.new ≡ reply_text self.limit t rcode aa }
        ensures within { result ≤ self.limit }
    {
        let Reply {
            id,
            flags,
            edns,
            limit: _,
            start,
            len,
            counts,
            truncated,
        } = self;
        let bits = reply_flags(flags, aa, truncated, rcode);
        let extended = rcode / 16;
        if truncated {
            let header = Counts::none().header(id, bits, edns);
            return put_ends(buf, start, header, edns, extended);
        }
        let header = counts.header(id, bits, edns);
        put_ends(buf, len, header, edns, extended)
    }

    /// Finishes a reply without records as the one to a query whose version of EDNS isn't known (RFC 6891, 6.1.3).
    pub fn bad_version(self, buf: &mut [u8]) -> usize
        requires { (q : Query) × Holds (without_records q) self buf.old }
        ensures text { (q : Query) → Holds (without_records q) self buf.old → take result buf.new ≡ bad_version_text q }
        ensures within { result ≤ self.limit }
    {
        self.finish(buf, rcode::BADVERS, false)
    }
}

/// Writes the header, and the OPT record where the records end, and gives the place behind it.
fn put_ends(buf: &mut [u8], end: usize, header: Header, edns: Option<Edns>, extended: u8) -> usize
    requires head { HEADER_SIZE ≤ end }
    requires room { end + opt_size_of_reply edns ≤ length buf.old }
    ensures end { result ≡ end + opt_size_of_reply edns }
    ensures text { take result buf.new ≡ header_text header ++ (drop HEADER_SIZE (take end buf.old) ++ opt_of_reply edns extended) }
{
    header.put(buf);
    put_opt(buf, end, edns, extended)
}

/// Writes a reply of a header alone, to a query of this ID and these flags, and gives its 12 bytes. Of RCODE the four
/// low bits are written.
pub fn bare(buf: &mut [u8], id: u16, flags: u16, rcode: u8) -> usize
    requires { HEADER_SIZE ≤ length buf.old }
    ensures text { take result buf.new ≡ bare_text id flags rcode }
    ensures size { result ≡ HEADER_SIZE }
{
    let header = Header {
        id,
        flags: reply_flags(flags, false, false, rcode),
        questions: 0,
        answers: 0,
        authorities: 0,
        additionals: 0,
    };
    header.put(buf);
    HEADER_SIZE
}
