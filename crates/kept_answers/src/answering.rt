//! Answers a message, from an answer that is kept or from the names, and keeps it then.

ghost use Rattle.std.specs.Prelude.{◌≡◌, ◌↔◌, ◌<◌, ◌≤◌, length, take, Some, None, IsTrue, IfSome, IfNone};
ghost use Rattle.domain_text.specs.Names.{IsName, lower};
ghost use Rattle.dns_message.specs.Limits.{most_of};
ghost use Rattle.dns_message.specs.Query.{Query, query_of};
ghost use Rattle.dns_message.specs.Query.Reading.{Asks};
ghost use Rattle.dns_message.specs.Reading.{reading_of};
ghost use Rattle.dns_message.specs.declared.numbers.TheConstants.{LEAST_LIMIT, GREATEST_LIMIT};
ghost use Rattle.import_expand.specs.declared.limits.TheConstants.{MOST_HELD};
ghost use Rattle.bit_resolver.specs.Replies.{told, IsReplied, IsWithin, MayReply, replied_size};
ghost use Rattle.answer_cache.specs.Cached.{held};
ghost use Rattle.answer_cache.specs.Keys.{key_of};
ghost use Rattle.kept_answers.specs.Kept.{Kept, IsKept, reply_with};
ghost use Rattle.kept_answers.specs.Answering.{AnswersMessage, AnswersQuestion, GivesKept, IsHeldOrMissed, IsLookedFor, Stores, key_for, zone_at};

use crate::answers::Answers;
use crate::giving::give;
use crate::keeping::keep;
use crate::limits::LONGEST_KEPT;
use crate::lower::{ROOM, lower_in};
use answer_cache::{AskedKey, mark_of};
use bit_resolver::{Answered, CLASS_IN, Replied, Zone, reply_to_question};
use dns_message::{Asked, Question, Transport, read_query};
use domain_text::Name;
use import_expand::{Names, Room};
use std::alloc::Global;

/// The zone of a host. It is made for what isn't kept alone, since it takes a copy of the host.
fn zone_of(host: &Name, serial: u32) -> Zone
    ensures { result ≡ zone_at host.now serial }
{
    Zone {
        host: host.copy(),
        serial,
    }
}

/// Writes the reply to a question by the names that are served. What is kept has no need of the zone, whose room is cleared first.
fn reply_by_names<N: Names>(
    alloc: Global,
    names: &N,
    host: &Name,
    serial: u32,
    asked: &Question<'_>,
    limit: usize,
    buffer: &mut [u8],
    room: &mut Room,
    spent: &mut usize,
) -> Replied
    requires within { limit ≤ length buffer.old }
    requires least { LEAST_LIMIT ≤ limit }
    requires greatest { limit ≤ GREATEST_LIMIT }
    requires name { IsName asked.now.name.now }
    ensures text { IsReplied (N.served names.now) (zone_at host.now serial) limit (query_of asked.now) result buffer.new }
    ensures within { replied_size result ≤ limit }
    ensures bound { spent.new ≤ MOST_HELD }
{
    let zone = zone_of(host, serial);
    reply_to_question(alloc, names, &zone, asked, limit, buffer, room, spent)
}

/// Writes the reply to a message by the names that are served.
fn answer_by_names<N: Names>(
    alloc: Global,
    names: &N,
    host: &Name,
    serial: u32,
    message: &[u8],
    transport: Transport,
    buffer: &mut [u8],
    spent: &mut usize,
) -> Answered
    requires { most_of transport ≤ length buffer.old }
    ensures reply { MayReply (N.served names.now) (zone_at host.now serial) transport message.now (told result buffer.new) }
    ensures most { IsWithin (most_of transport) result }
    ensures bound { spent.new ≤ MOST_HELD }
{
    let zone = zone_of(host, serial);
    bit_resolver::answer(alloc, names, &zone, message, transport, buffer, spent)
}

impl Answers {
    /// Whether the answer to a question is looked for.
    fn looks_for(&self, asked: &Question<'_>) -> bool
        ensures { IsTrue result ↔ IsLookedFor self.now (query_of asked.now) }
    {
        asked.class == CLASS_IN && self.accepted < u64::MAX
    }

    /// The question of a message, where its answer is looked for.
    fn question<'a>(&self, message: &'a [u8]) -> Option<Question<'a>>
        ensures name { IfSome result (λ asked. IsName asked.name.now) }
        ensures found { IfSome result (λ asked. (Asks (query_of asked) ≡ reading_of message.now) × IsLookedFor self.now (query_of asked)) }
        ensures none { IfNone result ((q : Query) → reading_of message.now ≡ Asks q → ¬ (IsLookedFor self.now q)) }
    {
        match read_query(message) {
            Asked::Query(asked) => {
                if self.looks_for(&asked) {
                    Some(asked)
                } else {
                    None
                }
            }
            Asked::BadVersion(_) | Asked::Drop | Asked::FormErr { .. } | Asked::NotImp { .. } => {
                None
            }
        }
    }

    /// What the answer to a question is kept under, in a reply of at most so many bytes. The name lies in the room.
    fn key<'a>(&self, asked: &Question<'_>, limit: usize, room: &'a mut [u8; ROOM]) -> AskedKey<'a>
        requires name { IsName asked.now.name.now }
        requires greatest { limit ≤ GREATEST_LIMIT }
        ensures key { key_of result ≡ key_for self.now.accepted limit (query_of asked.now) }
        ensures limit { result.limit ≡ limit }
    {
        let name = lower_in(room, asked.name);
        AskedKey {
            accepted: self.accepted,
            name,
            mark: mark_of(name),
            kind: asked.kind,
            limit: limit as u16,
            edns: asked.edns.is_some(),
        }
    }

    /// Keeps the reply to a question, or counts it as missed: its records have too many bytes, or memory is wanting.
    fn keep(&mut self, alloc: Global, key: AskedKey<'_>, asked: &Question<'_>, reply: &[u8])
        requires kept { (k : Kept) × IsKept k × (reply.now ≡ reply_with (query_of asked.now) k) }
        requires key { key_of key ≡ key_for key.accepted key.limit (query_of asked.now) }
        requires within { length reply.now ≤ key.limit }
        ensures { (k : Kept) → IsKept k → reply.now ≡ reply_with (query_of asked.now) k → Stores (key_of key.entry) k self.old self.new }
    {
        let kept = keep(reply, asked);
        if kept.records.len() <= LONGEST_KEPT {
            let _ = self.cache.put(alloc, key, &kept.head, kept.records);
        } else {
            self.cache.miss();
        }
    }

    /// Writes the reply to a question from the answer that is kept under its key, and gives its bytes. None where none is.
    fn give_kept(
        &mut self,
        key: AskedKey<'_>,
        asked: &Question<'_>,
        buffer: &mut [u8],
    ) -> Option<usize>
        requires key { key_of key ≡ key_for self.old.accepted key.limit (query_of asked.now) }
        requires room { key.limit ≤ length buffer.old }
        ensures given { IfSome result (λ size. GivesKept (key_of key.entry) (query_of asked.now) self.old self.new (take size buffer.new)) }
        ensures within { IfSome result (λ size. size ≤ key.entry.limit) }
        ensures none { IfNone result ((held (key_of key.entry) self.old.cache ≡ None) × (self.new ≡ self.old) × (buffer.new ≡ buffer.old)) }
    {
        if let Some(kept) = self.cache.get(key) {
            return Some(give(kept, asked, buffer));
        }
        None
    }

    /// Writes the reply to a question, from the answer that is kept or by the names that are served, and gives its bytes.
    fn reply<N: Names>(
        &mut self,
        alloc: Global,
        names: &N,
        host: &Name,
        serial: u32,
        asked: &Question<'_>,
        limit: usize,
        buffer: &mut [u8],
        spent: &mut usize,
    ) -> usize
        requires room { limit ≤ length buffer.old }
        requires least { LEAST_LIMIT ≤ limit }
        requires greatest { limit ≤ GREATEST_LIMIT }
        requires name { IsName asked.now.name.now }
        requires looked_for { IsLookedFor self.old (query_of asked.now) }
        ensures answers { AnswersQuestion (N.served names.now) (zone_at host.now serial) limit (query_of asked.now) self.old (take result buffer.new) self.new }
        ensures within { result ≤ limit }
        ensures bound { spent.new ≤ MOST_HELD }
    {
        *spent = 0;
        let mut name = [0; ROOM];
        let key = self.key(asked, limit, &mut name);
        if let Some(size) = self.give_kept(key, asked, buffer) {
            return size;
        }
        match reply_by_names(
            alloc,
            names,
            host,
            serial,
            asked,
            limit,
            buffer,
            &mut self.room,
            spent,
        ) {
            Replied::Answer(size) => {
                self.keep(alloc, key, asked, &buffer[..size]);
                size
            }
            Replied::Failure(size) => size,
        }
    }

    /// Writes the reply to a message at the front of the buffer, in as many bytes as the transport and the message allow. The answer to
    /// a question of class IN is taken from those that are kept, and is kept where it isn't one of them; no SERVFAIL is. `spent` becomes the
    /// bytes that were held for it: an answer that would need more than 65,536 is SERVFAIL.
    pub fn answer<N: Names>(
        &mut self,
        alloc: Global,
        names: &N,
        host: &Name,
        serial: u32,
        message: &[u8],
        transport: Transport,
        buffer: &mut [u8],
        spent: &mut usize,
    ) -> Answered
        requires { most_of transport ≤ length buffer.old }
        // Where the answers that are kept are right the reply is the definition's, or SERVFAIL for want of memory.
        ensures message { AnswersMessage (N.served names.now) (zone_at host.now serial) transport message.now self.old (told result buffer.new) self.new }
        // A reply that is to be kept is held then, or counted as missed.
        ensures held { IsHeldOrMissed transport (reading_of message.now) (told result buffer.new) self.old self.new }
        ensures most { IsWithin (most_of transport) result }
        // At most 65,536 bytes are held for it.
        ensures bound { spent.new ≤ MOST_HELD }
    {
        if let Some(asked) = self.question(message) {
            let limit = transport.limit(&asked);
            return Answered::Text(self.reply(
                alloc, names, host, serial, &asked, limit, buffer, spent,
            ));
        }
        answer_by_names(
            alloc, names, host, serial, message, transport, buffer, spent,
        )
    }
}
