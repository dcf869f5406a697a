//! The reply to a message, from names that are served.

ghost use Rattle.std.specs.Prelude.{◌≡◌, ◌≤◌, length, take};
ghost use Rattle.domain_text.specs.Names.{IsName};
ghost use Rattle.dns_message.specs.Limits.{most_of};
ghost use Rattle.dns_message.specs.Query.{query_of};
ghost use Rattle.dns_message.specs.Reading.{reading_of};
ghost use Rattle.dns_message.specs.declared.numbers.TheConstants.{LEAST_LIMIT, GREATEST_LIMIT};
ghost use Rattle.import_expand.specs.declared.limits.TheConstants.{MOST_HELD};
ghost use Rattle.bit_resolver.specs.Held.{HoldsReplied};
ghost use Rattle.bit_resolver.specs.Replies.{MayReply, limit_for, told, replied_size, IsReplied, IsWithin};

use crate::question::resolve;
use crate::writing::{put_answer, put_bad_version, put_failure};
use crate::zone::Zone;
use dns_message::{Asked, Question, Transport, bare, rcode, read_query};
use import_expand::{Names, Room};
use std::alloc::Global;

/// What comes of a message.
#[derive(Clone, Copy, Debug)]
pub enum Answered {
    /// It gets no reply.
    Dropped,
    /// So many bytes at the front of the buffer are the reply.
    Text(usize),
}

/// What comes of a question: a reply of so many bytes at the front of the buffer.
#[derive(Clone, Copy, Debug)]
pub enum Replied {
    /// The question's answer.
    Answer(usize),
    /// SERVFAIL: memory ran out, or more than 65,536 bytes would have to be held: of values, of their entries, and one for each source
    /// that is asked for a label.
    Failure(usize),
}

impl Replied {
    /// The bytes of the reply.
    pub fn size(&self) -> usize
        ensures { result ≡ replied_size self.now }
    {
        match *self {
            Replied::Answer(size) | Replied::Failure(size) => size,
        }
    }
}

/// Writes the reply to a question at the front of the buffer, in at most so many bytes: 512 to 65,535. `held` becomes the
/// bytes that were held for it, with one for each source that was asked for a label.
pub fn reply_to_question<N: Names>(
    alloc: Global,
    names: &N,
    zone: &Zone,
    asked: &Question<'_>,
    limit: usize,
    buffer: &mut [u8],
    room: &mut Room,
    held: &mut usize,
) -> Replied
    requires within { limit ≤ length buffer.old }
    requires least { LEAST_LIMIT ≤ limit }
    requires greatest { limit ≤ GREATEST_LIMIT }
    requires name { IsName asked.now.name.now }
    ensures text { IsReplied (N.served names.now) zone.now limit (query_of asked.now) result buffer.new }
    ensures within { replied_size result ≤ limit }
    // At most 65,536 bytes are held for it, and the value of the question's own name is among them.
    ensures bound { held.new ≤ MOST_HELD }
    ensures least { HoldsReplied (N.served names.now) held.new (query_of asked.now) result }
{
    let found = resolve(alloc, names, zone, asked, room);
    *held = room.held();
    room.clear(alloc);
    match found {
        Ok(sections) => Replied::Answer(put_answer(&sections, asked, limit, buffer)),
        Err(_) => Replied::Failure(put_failure(asked, limit, buffer)),
    }
}

/// Writes the reply to a message at the front of the buffer, in as many bytes as the transport and the message allow.
/// `held` becomes the bytes that were held for it: an answer that would need more than 65,536 is SERVFAIL.
pub fn answer<N: Names>(
    alloc: Global,
    names: &N,
    zone: &Zone,
    message: &[u8],
    transport: Transport,
    buffer: &mut [u8],
    held: &mut usize,
) -> Answered
    requires { most_of transport ≤ length buffer.old }
    // It is the definition's, byte for byte, or SERVFAIL for want of memory.
    ensures reply { MayReply (N.served names.now) zone.now transport message.now (told result buffer.new) }
    ensures within { IsWithin (limit_for transport (reading_of message.now)) result }
    ensures most { IsWithin (most_of transport) result }
    // At most 65,536 bytes are held for it.
    ensures bound { held.new ≤ MOST_HELD }
{
    *held = 0;
    match read_query(message) {
        Asked::Drop => Answered::Dropped,
        Asked::NotImp { id, flags } => Answered::Text(bare(buffer, id, flags, rcode::NOTIMP)),
        Asked::FormErr { id, flags } => Answered::Text(bare(buffer, id, flags, rcode::FORMERR)),
        Asked::BadVersion(asked) => {
            Answered::Text(put_bad_version(&asked, transport.limit(&asked), buffer))
        }
        Asked::Query(asked) => {
            let limit = transport.limit(&asked);
            let mut room = Room::new(alloc);
            let replied = reply_to_question(
                alloc, names, zone, &asked, limit, buffer, &mut room, held,
            );
            Answered::Text(replied.size())
        }
    }
}
