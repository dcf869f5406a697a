//! Gives a reply from what was kept of one.

ghost use Rattle.std.specs.Prelude.{◌≡◌, ℕ, ◌+◌, ◌^◌, ◌≤◌, ◌<◌, ◌++◌, [], length, take};
ghost use Rattle.dns_message.specs.Edns.{opt_text, edns_of_reply, opt_of_reply, opt_size_of_reply, additionals_of_reply};
ghost use Rattle.dns_message.specs.Header.{flags_of_reply};
ghost use Rattle.dns_message.specs.Query.{query_of, question_text};
ghost use Rattle.dns_message.specs.Replies.{head_text};
ghost use Rattle.kept_answers.specs.Kept.{Kept, IsKept, reply_with, bits_of, kept_text};
ghost use Rattle.kept_answers.specs.Parts.{parts_text, parts_size};

use crate::numbers::{DO, HEAD_SIZE, HIGH, OPCODE, OPT, OPT_SIZE, QR, RD};
use dns_message::{EDNS_SIZE, Edns, HEADER_SIZE, Question};

/// Writes a piece at a place, and gives the place behind it.
fn put(buffer: &mut [u8], at: usize, piece: &[u8]) -> usize
    requires { at + length piece.now ≤ length buffer.old }
    ensures end { result ≡ at + length piece.now }
    ensures text { take result buffer.new ≡ take at buffer.old ++ piece.now }
{
    let end = at + piece.len();
    buffer[at..end].copy_from_slice(piece);
    end
}

/// The flags of the reply to a query of these flags: AA, TC and RCODE as they were kept.
fn reply_flags(flags: u16, bits: u8, rcode: u8) -> u16
    requires bits { bits ≤ 6 }
    requires rcode { rcode < 2 ^ 4 }
    ensures { (k : Kept) → IsKept k → bits ≡ bits_of k → rcode ≡ k.rcode
        → result ≡ flags_of_reply flags k.aa k.tc k.rcode }
{
    let opcode = flags / OPCODE % 16 * OPCODE;
    let desired = flags / RD % 2 * RD;
    QR + opcode + u16::from(bits) * HIGH + desired + u16::from(rcode)
}

/// How many OPT records the reply has.
fn additionals(edns: Option<Edns>) -> u16
    ensures { result ≡ additionals_of_reply edns }
{
    match edns {
        Some(_) => 1,
        None => 0,
    }
}

/// The header of the reply (RFC 1035, 4.1.1).
fn head_bytes(kept: &[u8], asked: &Question<'_>) -> [u8; HEADER_SIZE]
    requires { (k : Kept) × IsKept k × (kept.now ≡ kept_text k) }
    ensures { (k : Kept) → IsKept k → kept.now ≡ kept_text k
        → result ≡ head_text (query_of asked.now) k.rcode k.aa k.tc k.answers k.authorities }
{
    let [id_high, id_low] = asked.id.to_be_bytes();
    let [flags_high, flags_low] = reply_flags(asked.flags, kept[0], kept[1]).to_be_bytes();
    let [more_high, more_low] = additionals(asked.edns).to_be_bytes();
    [
        id_high, id_low, flags_high, flags_low, 0, 1, kept[2], kept[3], kept[4], kept[5],
        more_high, more_low,
    ]
}

/// Writes the question at a place (RFC 1035, 4.1.2), and gives the place behind it.
fn put_question(buffer: &mut [u8], at: usize, asked: &Question<'_>) -> usize
    requires { at + length (question_text (query_of asked.now)) ≤ length buffer.old }
    ensures end { result ≡ at + length (question_text (query_of asked.now)) }
    ensures text { take result buffer.new ≡ take at buffer.old ++ question_text (query_of asked.now) }
{
    let [kind_high, kind_low] = asked.kind.to_be_bytes();
    let [class_high, class_low] = asked.class.to_be_bytes();
    let end = put(buffer, at, asked.name);
    put(buffer, end, &[kind_high, kind_low, class_high, class_low])
}

/// The OPT record of the reply (RFC 6891, 6.1.2): NAME, the root; TYPE; the size that is read; extended RCODE 0, version 0;
/// DO as it was asked (RFC 3225, 3); no options.
fn opt_bytes(edns: Edns) -> [u8; OPT_SIZE]
    ensures { result ≡ opt_text (edns_of_reply edns) 0 0 [] }
{
    let flags = if edns.dnssec { DO } else { 0 };
    let [type_high, type_low] = OPT.to_be_bytes();
    let [size_high, size_low] = EDNS_SIZE.to_be_bytes();
    let [flags_high, flags_low] = flags.to_be_bytes();
    [
        0, type_high, type_low, size_high, size_low, 0, 0, flags_high, flags_low, 0, 0,
    ]
}

/// Writes the reply's OPT record at a place, if it has one, and gives the place behind it.
fn put_opt(buffer: &mut [u8], at: usize, edns: Option<Edns>) -> usize
    requires { at + opt_size_of_reply edns ≤ length buffer.old }
    ensures end { result ≡ at + opt_size_of_reply edns }
    ensures text { take result buffer.new ≡ take at buffer.old ++ opt_of_reply edns 0 }
{
    match edns {
        Some(edns) => put(buffer, at, &opt_bytes(edns)),
        None => at,
    }
}

/// Writes header, question, records and OPT record at the front of the buffer, and gives their bytes.
fn put_parts(buffer: &mut [u8], head: &[u8], asked: &Question<'_>, records: &[u8]) -> usize
    requires { parts_size (query_of asked.now) head.now records.now ≤ length buffer.old }
    ensures end { result ≡ parts_size (query_of asked.now) head.now records.now }
    ensures text { take result buffer.new ≡ parts_text (query_of asked.now) head.now records.now }
{
    let head = put(buffer, 0, head);
    let question = put_question(buffer, head, asked);
    let records = put(buffer, question, records);
    put_opt(buffer, records, asked.edns)
}

/// Writes the reply to a question at the front of the buffer, from the text that was kept of a reply to the same, and gives its
/// bytes.
pub fn give(kept: &[u8], asked: &Question<'_>, buffer: &mut [u8]) -> usize
    requires { (k : Kept) × IsKept k × (kept.now ≡ kept_text k)
        × (length (reply_with (query_of asked.now) k) ≤ length buffer.old) }
    ensures text { (k : Kept) → IsKept k → kept.now ≡ kept_text k
        → take result buffer.new ≡ reply_with (query_of asked.now) k }
    ensures size { (k : Kept) → IsKept k → kept.now ≡ kept_text k
        → result ≡ length (reply_with (query_of asked.now) k) }
    ensures within { result ≤ length buffer.old }
{
    put_parts(buffer, &head_bytes(kept, asked), asked, &kept[HEAD_SIZE..])
}
