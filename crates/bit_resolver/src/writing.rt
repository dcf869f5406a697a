//! Writes the sections of a reply.

ghost use Rattle.std.specs.Prelude.{◌≡◌, ◌≤◌, length, map, take};
ghost use Rattle.domain_text.specs.Names.{IsName};
ghost use Rattle.dns_message.specs.Query.{query_of};
ghost use Rattle.dns_message.specs.Replies.{Contents, bad_version_text};
ghost use Rattle.dns_message.specs.Holding.{Holds, MayAdd, with_records};
ghost use Rattle.dns_message.specs.declared.numbers.TheConstants.{LEAST_LIMIT, GREATEST_LIMIT};
ghost use Rattle.bit_resolver.specs.Ends.{seen_sections};
ghost use Rattle.bit_resolver.specs.Replies.{written, answer_text, failure_text};

use crate::resource::{Resource, Sections};
use dns_message::{Question, Reply, Section, rcode};

/// Adds records to a section, answers before authority.
fn add_records(reply: &mut Reply, buffer: &mut [u8], section: Section, records: &[Resource])
    requires holds { (t : Contents) × Holds t reply.old buffer.old × MayAdd section t }
    ensures holds { (t : Contents) → Holds t reply.old buffer.old → MayAdd section t
        → Holds (with_records section (map written records.now) t) reply.new buffer.new }
    ensures limit { reply.new.limit ≡ reply.old.limit }
{
    for record in records {
        reply.add_wire(
            buffer,
            section,
            record.owner.as_slice(),
            record.kind,
            record.rdata.as_slice(),
        );
    }
}

/// Writes the reply with this answer, and gives its bytes.
pub(crate) fn put_answer(
    sections: &Sections,
    asked: &Question<'_>,
    limit: usize,
    buffer: &mut [u8],
) -> usize
    requires room { limit ≤ length buffer.old }
    requires least { LEAST_LIMIT ≤ limit }
    requires greatest { limit ≤ GREATEST_LIMIT }
    requires name { IsName asked.now.name.now }
    ensures text { take result buffer.new ≡ answer_text limit (query_of asked.now) (seen_sections sections.now) }
    ensures within { result ≤ limit }
{
    let mut reply = Reply::new(buffer, limit, asked);
    add_records(
        &mut reply,
        buffer,
        Section::Answer,
        sections.answer.as_slice(),
    );
    add_records(
        &mut reply,
        buffer,
        Section::Authority,
        sections.authority.as_slice(),
    );
    reply.finish(buffer, sections.rcode, sections.aa)
}

/// Writes the reply that memory ran out, and gives its bytes.
pub(crate) fn put_failure(asked: &Question<'_>, limit: usize, buffer: &mut [u8]) -> usize
    requires room { limit ≤ length buffer.old }
    requires least { LEAST_LIMIT ≤ limit }
    requires greatest { limit ≤ GREATEST_LIMIT }
    requires name { IsName asked.now.name.now }
    ensures text { take result buffer.new ≡ failure_text (query_of asked.now) }
    ensures within { result ≤ limit }
{
    let reply = Reply::new(buffer, limit, asked);
    reply.finish(buffer, rcode::SERVFAIL, false)
}

/// Writes the reply that the question's version of EDNS isn't known, and gives its bytes.
pub(crate) fn put_bad_version(asked: &Question<'_>, limit: usize, buffer: &mut [u8]) -> usize
    requires room { limit ≤ length buffer.old }
    requires least { LEAST_LIMIT ≤ limit }
    requires greatest { limit ≤ GREATEST_LIMIT }
    requires name { IsName asked.now.name.now }
    ensures text { take result buffer.new ≡ bad_version_text (query_of asked.now) }
    ensures within { result ≤ limit }
{
    let reply = Reply::new(buffer, limit, asked);
    reply.bad_version(buffer)
}
