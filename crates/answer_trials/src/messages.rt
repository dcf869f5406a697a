//! Messages and the replies to them, as another reading of the standards has both.

ghost use Rattle.std.specs.Prelude.{◌≡◌, ◌≤◌, length};
ghost use Rattle.domain_text.specs.Names.{IsName};
ghost use Rattle.dns_message.specs.Replies.{Contents};
ghost use Rattle.dns_message.specs.Holding.{Holds, MayAdd};

use crate::comparing::same;
use dns_message::{Asked, Question, Reply, Section, Transport, bare, rcode, read_query};
use domain_text::Name;
use std::process::Abort;

/// A record: its owner in the wire form, its type, its RDATA. Bytes are hexadecimal.
type Row = (&'static [u8], u16, &'static [u8]);

/// A query, what is said to it, and the reply.
struct Exchange {
    query: &'static [u8],
    answer: &'static [Row],
    authority: &'static [Row],
    rcode: u8,
    aa: bool,
    reply: &'static [u8],
}

/// Replies, as another reading of the standard has them.
static EXCHANGES: [Exchange; 10] = [
    // an address
    Exchange {
        query: b"1234 0100 0001 0000 0000 0000 07 6578616d706c65 03 626974 00 0001 0001",
        answer: &[(b"07 6578616d706c65 03 626974 00", 1, b"01020304")],
        authority: &[],
        rcode: rcode::NOERROR,
        aa: true,
        reply: b"1234 8500 0001 0001 0000 0000 07 6578616d706c65 03 626974 00 0001 0001 c00c 0001 0001 00000258 0004 01020304",
    },
    // no such name
    Exchange {
        query: b"1234 0100 0001 0000 0000 0000 01 78 03 626974 00 0001 0001",
        answer: &[],
        authority: &[(
            b"03 626974 00",
            6,
            b"02 6e73 07 6578616d706c65 00 0a 686f73746d6173746572 02 6e73 07 6578616d706c65 00 00000028 00000258 00000258 00001c20 00000258",
        )],
        rcode: rcode::NXDOMAIN,
        aa: true,
        reply: b"1234 8503 0001 0000 0001 0000 01 78 03 626974 00 0001 0001 03626974 00 0006 0001 00000258 0037 02 6e73 07 6578616d706c65 00 0a 686f73746d6173746572 02 6e73 07 6578616d706c65 00 00000028 00000258 00000258 00001c20 00000258",
    },
    // a chase, in letters of either case, of a query with an OPT
    Exchange {
        query: b"80b1 0100 0001 0000 0000 0001 0141 026e36 03426974 00 0001 0001 00002904b0010000000000",
        answer: &[
            (b"026e36 03626974 00", 39, b"026e37 03626974 00"),
            (b"0141 026e36 03426974 00", 5, b"0161 026e37 03626974 00"),
            (b"0161 026E37 03626974 00", 5, b"0161 026e38 03626974 00"),
        ],
        authority: &[(
            b"03424954 00",
            6,
            b"025f78012d02795f000a686f73746d6173746572025f78012d02795f0000000028000002580000025800001c2000000258",
        )],
        rcode: rcode::NXDOMAIN,
        aa: true,
        reply: b"80b1 8503 0001 0003 0001 0001 0141026e36034269740000010001 026e36036269740000270001000002580008026e370362697400 c00c0005000100000258000a0161026e370362697400 0161026e3703626974000005000100000258000a0161026e380362697400 036269740000060001000002580031025f78012d02795f000a686f73746d6173746572025f78012d02795f0000000028000002580000025800001c2000000258 000029 04d0 00000000 0000",
    },
    // a cut, of a query with DO
    Exchange {
        query: b"aeac 0130 0001 0000 0000 0001 0161 03626954 00 00ff 0001 00002904cf010080000000",
        answer: &[],
        authority: &[
            (b"0161 03626974 00", 2, b"0161 0161 03626974 00"),
            (b"0161 03626974 00", 2, b"0178 0162 03626974 00"),
            (b"0161 03626974 00", 2, b"0161 045f343433 0161 03626974 00"),
        ],
        rcode: rcode::NOERROR,
        aa: false,
        reply: b"aeac 8100 0001 0000 0003 0001 01610362695400 00ff0001 c00c00020001000002580009016101610362697400 c00c00020001000002580009017801620362697400 c00c0002000100000258000e0161045f34343301610362697400 000029 04d0 00008000 0000",
    },
    // RCODE's high bits aren't the header's
    Exchange {
        query: b"1234 0000 0001 0000 0000 0000 00 00ff 0003",
        answer: &[],
        authority: &[],
        rcode: 21,
        aa: false,
        reply: b"1234 8005 0001 0000 0000 0000 00 00ff 0003",
    },
    // they are the OPT's
    Exchange {
        query: b"1234 0000 0001 0000 0000 0001 00 00ff 0003 000029 0200 00007fff 0000",
        answer: &[],
        authority: &[],
        rcode: 21,
        aa: false,
        reply: b"1234 8005 0001 0000 0000 0001 00 00ff 0003 000029 04d0 01000000 0000",
    },
    // an address, of a query with an OPT: 56 bytes
    Exchange {
        query: b"1234 0100 0001 0000 0000 0001 07 6578616d706c65 03 626974 00 0001 0001 000029 1000 00000000 0000",
        answer: &[(b"07 6578616d706c65 03 626974 00", 1, b"01020304")],
        authority: &[],
        rcode: rcode::NOERROR,
        aa: true,
        reply: b"1234 8500 0001 0001 0000 0001 07 6578616d706c65 03 626974 00 0001 0001 c00c 0001 0001 00000258 0004 01020304 000029 04d0 00000000 0000",
    },
    // version 1, with an option: 40 bytes
    Exchange {
        query: b"1234 0100 0001 0000 0000 0001 07 6578616d706c65 03 626974 00 0001 0001 000029 1000 00010000 0004 000a 0000",
        answer: &[],
        authority: &[],
        rcode: rcode::NOERROR,
        aa: true,
        reply: b"1234 8100 0001 0000 0000 0001 07 6578616d706c65 03 626974 00 0001 0001 000029 04d0 01000000 0000",
    },
    // an OPT behind another record isn't read
    Exchange {
        query: b"1234 0100 0001 0001 0000 0001 07 6578616d706c65 03 626974 00 0001 0001 000029 1000 00010000 0000",
        answer: &[],
        authority: &[],
        rcode: rcode::NOERROR,
        aa: true,
        reply: b"1234 8500 0001 0000 0000 0000 07 6578616d706c65 03 626974 00 0001 0001",
    },
    // all bits that a query may set beside the opcode
    Exchange {
        query: b"ffff 07ff 0001 ffff ffff ffff 01 00 00 ffff ffff",
        answer: &[],
        authority: &[],
        rcode: rcode::REFUSED,
        aa: true,
        reply: b"ffff 8505 0001 0000 0000 0000 01 00 00 ffff ffff",
    },
];

/// Messages, and the replies where each question is refused. None is 0 bytes.
static MESSAGES: [(&[u8], &[u8]); 25] = [
    (b"", b""),
    (b"1234 0100 0001 0000 0000 00", b""),
    // a header without a question, and an opcode before it
    (
        b"1234 0100 0000 0000 0000 0000",
        b"1234 8101 0000 0000 0000 0000",
    ),
    (
        b"1234 1000 0000 0000 0000 0000",
        b"1234 9004 0000 0000 0000 0000",
    ),
    // a response, of any opcode
    (b"1234 8100 0001 0000 0000 0000 00 0001 0001", b""),
    (b"eb0c 9fef 0001 0000 0000 0001 00 0001 0001", b""),
    // counts
    (
        b"1234 0100 0002 0000 0000 0000 00 0001 0001 00 0001 0001",
        b"1234 8101 0000 0000 0000 0000",
    ),
    (
        b"373e 0110 ffff 0000 0000 0000 0162 03626974 00 000f 0001",
        b"373e 8101 0000 0000 0000 0000",
    ),
    (
        b"1234 0100 0100 0000 0000 0000 00 0001 0001",
        b"1234 8101 0000 0000 0000 0000",
    ),
    // a pointer, to the question itself, and behind a label
    (
        b"1234 0100 0001 0000 0000 0000 c00c 0001 0001",
        b"1234 8101 0000 0000 0000 0000",
    ),
    (
        b"1234 0100 0001 0000 0000 0000 0161 c00c 0001 0001",
        b"1234 8101 0000 0000 0000 0000",
    ),
    (
        b"1234 0100 0001 0000 0000 0000 0161 80 0001 0001",
        b"1234 8101 0000 0000 0000 0000",
    ),
    // labels that pass the end
    (
        b"1234 0100 0001 0000 0000 0000 3f 616161",
        b"1234 8101 0000 0000 0000 0000",
    ),
    (
        b"1234 0100 0001 0000 0000 0000 0161 0162",
        b"1234 8101 0000 0000 0000 0000",
    ),
    // the root, and bytes behind the question
    (
        b"1234 0100 0001 0000 0000 0000 00 0002 0001",
        b"1234 8105 0001 0000 0000 0000 00 0002 0001",
    ),
    (
        b"1234 0100 0001 0000 0000 0000 00 0002 0001 ff ff",
        b"1234 8105 0001 0000 0000 0000 00 0002 0001",
    ),
    // an OPT that is cut, in its fields and in its options; a record that is none
    (
        b"1234 0100 0001 0000 0000 0001 00 0002 0001 000029 10",
        b"1234 8101 0000 0000 0000 0000",
    ),
    (
        b"1234 0100 0001 0000 0000 0001 00 0002 0001 000029 1000 00000000 0005 000a 0000",
        b"1234 8101 0000 0000 0000 0000",
    ),
    (
        b"1234 0100 0001 0000 0000 0001 00 0002 0001 000028 10",
        b"1234 8105 0001 0000 0000 0000 00 0002 0001",
    ),
    // one that is cut behind its type, and in another version
    (
        b"1234 0100 0001 0000 0000 0001 00 0002 0001 000029",
        b"1234 8101 0000 0000 0000 0000",
    ),
    (
        b"1234 0100 0001 0000 0000 0001 00 0002 0001 000029 1000 00010000 00",
        b"1234 8101 0000 0000 0000 0000",
    ),
    // none: its type is cut; its owner isn't the root; it is counted nowhere
    (
        b"1234 0100 0001 0000 0000 0001 00 0002 0001 0000",
        b"1234 8105 0001 0000 0000 0000 00 0002 0001",
    ),
    (
        b"1234 0100 0001 0000 0000 0001 00 0002 0001 c00c0029 1000 00010000 0000",
        b"1234 8105 0001 0000 0000 0000 00 0002 0001",
    ),
    (
        b"1234 0100 0001 0000 0000 0000 00 0002 0001 000029 1000 00010000 0000",
        b"1234 8105 0001 0000 0000 0000 00 0002 0001",
    ),
    // a label of any bytes
    (
        b"1234 0100 0001 0000 0000 0000 03 00ff2e 00 0001 0001",
        b"1234 8105 0001 0000 0000 0000 03 00ff2e 00 0001 0001",
    ),
];

static REFUSED: Exchange = Exchange {
    query: b"",
    answer: &[],
    authority: &[],
    rcode: rcode::REFUSED,
    aa: false,
    reply: b"",
};

const QUERY: [u8; 29] = [
    0x12, 0x34, 1, 0, 0, 1, 0, 0, 0, 0, 0, 0, 7, b'e', b'x', b'a', b'm', b'p', b'l', b'e', 3, b'b',
    b'i', b't', 0, 0, 1, 0, 1,
];

fn digit(c: u8) -> Option<u8> {
    match c {
        b'0'..=b'9' => Some(c - b'0'),
        b'a'..=b'f' => Some(c - b'a' + 10),
        b'A'..=b'F' => Some(c - b'A' + 10),
        _ => None,
    }
}

/// Reads hexadecimal digits into a buffer of zeros, past other bytes. Gives how many bytes they make.
fn read_hex(text: &[u8], into: &mut [u8]) -> usize
    ensures { result ≤ length into.new }
{
    let mut digits: usize = 0;
    for c in text {
        match digit(*c) {
            Some(value) => {
                match into.get_mut(digits / 2) {
                    Some(byte) => *byte = byte.wrapping_mul(16).wrapping_add(value),
                    None => {}
                }
                digits = digits.wrapping_add(1);
            }
            None => {}
        }
    }
    (digits / 2).min(into.len())
}

/// Adds a record, if its owner is a name.
fn add_record(
    reply: &mut Reply,
    buf: &mut [u8],
    section: Section,
    owner: &[u8],
    kind: u16,
    rdata: &[u8],
)
    requires { (t : Contents) × Holds t reply.old buf.old × MayAdd section t }
    ensures holds { (t : Contents) × Holds t reply.new buf.new × MayAdd section t }
    ensures limit { reply.new.limit ≡ reply.old.limit }
{
    match Name::from_wire(owner) {
        Some(owner) => reply.add(buf, section, &owner, kind, rdata),
        None => {}
    }
}

fn add_row(reply: &mut Reply, buf: &mut [u8], section: Section, row: &Row)
    requires { (t : Contents) × Holds t reply.old buf.old × MayAdd section t }
    ensures holds { (t : Contents) × Holds t reply.new buf.new × MayAdd section t }
    ensures limit { reply.new.limit ≡ reply.old.limit }
{
    let mut owner = [0; 300];
    let mut rdata = [0; 300];
    let owner_len = read_hex(row.0, &mut owner);
    let rdata_len = read_hex(row.2, &mut rdata);
    add_record(
        reply,
        buf,
        section,
        &owner[..owner_len],
        row.1,
        &rdata[..rdata_len],
    );
}

fn add_rows(reply: &mut Reply, buf: &mut [u8], section: Section, rows: &[Row])
    requires { (t : Contents) × Holds t reply.old buf.old × MayAdd section t }
    ensures holds { (t : Contents) × Holds t reply.new buf.new × MayAdd section t }
    ensures limit { reply.new.limit ≡ reply.old.limit }
{
    for row in rows {
        add_row(reply, buf, section, row);
    }
}

/// The reply to a question, and its bytes.
fn write_records(buf: &mut [u8], said: &Exchange, asked: &Question<'_>) -> usize
    requires room { 1232 ≤ length buf.old }
    requires name { IsName asked.now.name.now }
    ensures { result ≤ 1232 }
{
    let mut reply = Reply::new(buf, Transport::Udp.limit(asked), asked);
    add_rows(&mut reply, buf, Section::Answer, said.answer);
    add_rows(&mut reply, buf, Section::Authority, said.authority);
    reply.finish(buf, said.rcode, said.aa)
}

/// The reply to a question of another version, and its bytes.
fn write_version(buf: &mut [u8], asked: &Question<'_>) -> usize
    requires room { 1232 ≤ length buf.old }
    requires name { IsName asked.now.name.now }
    ensures { result ≤ 1232 }
{
    Reply::new(buf, Transport::Udp.limit(asked), asked).bad_version(buf)
}

/// The reply to a message over UDP, and its bytes.
fn reply_to(buf: &mut [u8], said: &Exchange, message: &[u8]) -> usize
    requires { 1232 ≤ length buf.old }
    ensures { result ≤ 1232 }
{
    match read_query(message) {
        Asked::Query(asked) => write_records(buf, said, &asked),
        Asked::BadVersion(asked) => write_version(buf, &asked),
        Asked::Drop => 0,
        Asked::FormErr { id, flags } => bare(buf, id, flags, rcode::FORMERR),
        Asked::NotImp { id, flags } => bare(buf, id, flags, rcode::NOTIMP),
    }
}

/// The reply to the message is this one.
fn replies(rt: &impl Abort, said: &Exchange, message: &[u8], reply: &[u8]) {
    let mut buf = [0xaa; 1232];
    let len = reply_to(&mut buf, said, message);
    same(rt, &buf[..len], reply);
}

/// The same of texts.
fn exchanges(rt: &impl Abort, said: &Exchange, message: &[u8], reply: &[u8]) {
    let mut bytes = [0; 300];
    let mut want = [0; 300];
    let len = read_hex(message, &mut bytes);
    let want_len = read_hex(reply, &mut want);
    replies(rt, said, &bytes[..len], &want[..want_len]);
}

#[test]
fn replies_with_records(rt: HostRuntime) {
    for row in &EXCHANGES {
        exchanges(&rt, row, row.query, row.reply);
    }
}

#[test]
fn hostile_messages(rt: HostRuntime) {
    for (message, reply) in &MESSAGES {
        exchanges(&rt, &REFUSED, message, reply);
    }
}

/// A query of which so many bytes came.
fn replies_to_cut(rt: &impl Abort, len: usize) {
    let format_error = [0x12, 0x34, 0x81, 1, 0, 0, 0, 0, 0, 0, 0, 0];
    let want: &[u8] = if len < 12 { &[] } else { &format_error };
    replies(rt, &REFUSED, &QUERY[..len.min(29)], want);
}

#[test]
fn cuts_of_a_query(rt: HostRuntime) {
    for len in 0..29 {
        replies_to_cut(&rt, len);
    }
}

/// A query of this opcode.
fn replies_to_opcode(rt: &impl Abort, opcode: u8) {
    let flags = opcode % 16 * 8 + 1;
    let mut query = QUERY;
    query[2] = flags;
    replies(
        rt,
        &REFUSED,
        &query,
        &[0x12, 0x34, 128 + flags, 4, 0, 0, 0, 0, 0, 0, 0, 0],
    );
}

#[test]
fn other_opcodes(rt: HostRuntime) {
    for opcode in 1..16 {
        replies_to_opcode(&rt, opcode);
    }
}

/// A query whose name has labels of these lengths, and bytes behind it.
fn query_of_labels(labels: &[u8]) -> [u8; 300] {
    let mut query = [b'a'; 300];
    query[..12].copy_from_slice(&QUERY[..12]);
    let mut at: usize = 12;
    for label in labels {
        match query.get_mut(at) {
            Some(byte) => *byte = *label,
            None => {}
        }
        at = at.wrapping_add(1 + usize::from(*label));
    }
    query
}

/// Such a query is refused in so many bytes.
fn refuses_labels(rt: &impl Abort, labels: &[u8], len: usize, flags: u8) {
    let query = query_of_labels(labels);
    let mut buf = [0xaa; 1232];
    let got = reply_to(&mut buf, &REFUSED, &query);
    assert_eq!(rt; (got, buf[3]), (len, flags));
    same(rt, &buf[12..got.max(12)], &query[12..len.clamp(12, 300)]);
}

#[test]
fn longest_labels_and_names(rt: HostRuntime) {
    refuses_labels(&rt, &[63, 0], 81, rcode::REFUSED);
    refuses_labels(&rt, &[64, 0], 12, rcode::FORMERR);
    refuses_labels(&rt, &[63, 63, 63, 61, 0], 271, rcode::REFUSED);
    refuses_labels(&rt, &[63, 63, 63, 62, 0], 12, rcode::FORMERR);
}

/// A reply with one record of so many bytes of RDATA, and room for the most.
fn reply_with_rdata(buf: &mut [u8], asked: &Question<'_>, len: usize) -> usize
    requires room { 1232 ≤ length buf.old }
    requires name { IsName asked.now.name.now }
    ensures { result ≤ 1232 }
{
    let rdata = [7; 1300];
    let mut reply = Reply::new(buf, Transport::Udp.limit(asked), asked);
    add_record(
        &mut reply,
        buf,
        Section::Answer,
        asked.name,
        16,
        &rdata[..len.min(1300)],
    );
    reply.finish(buf, rcode::NOERROR, true)
}

/// That reply to a query has so many bytes, these flags and so many answers.
fn has_rdata(rt: &impl Abort, query: &[u8], len: usize, want: (usize, u8, u8)) {
    let mut buf = [0xaa; 1232];
    match read_query(query) {
        Asked::Query(asked) => {
            let got = reply_with_rdata(&mut buf, &asked, len);
            assert_eq!(rt; (got, buf[2], buf[7]), want);
        }
        _ => assert!(rt; false),
    }
}

/// The query, with an OPT of this size.
fn query_of_size(size: u16) -> [u8; 40] {
    let [high, low] = size.to_be_bytes();
    let mut query = [0; 40];
    query[..29].copy_from_slice(&QUERY);
    query[11] = 1;
    query[31] = 41;
    query[32] = high;
    query[33] = low;
    query
}

/// The reply is whole where the record has so many bytes, and so long; with one byte more it is truncated.
fn is_limited(rt: &impl Abort, query: &[u8], most: usize, limit: usize, truncated: usize) {
    has_rdata(rt, query, most, (limit, 0x85, 1));
    has_rdata(rt, query, most.wrapping_add(1), (truncated, 0x87, 0));
}

#[test]
fn truncated_above_the_limit(rt: HostRuntime) {
    is_limited(&rt, &QUERY, 471, 512, 29);
    is_limited(&rt, &query_of_size(100), 460, 512, 40);
    is_limited(&rt, &query_of_size(600), 548, 600, 40);
    is_limited(&rt, &query_of_size(1232), 1180, 1232, 40);
    is_limited(&rt, &query_of_size(4096), 1180, 1232, 40);
}
