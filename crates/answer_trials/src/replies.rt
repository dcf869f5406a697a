//! Messages and replies over an index of names.

ghost use Rattle.std.specs.Prelude.{◌≤◌, find, length};
ghost use Rattle.std.specs.Option.{option_map};
ghost use Rattle.std.specs.Str.{bytes_eq};

use crate::comparing::same;
use bit_resolver::Answered;
use dns_message::{EDNS_SIZE, Transport};
use domain_text::absolute_name;
use import_expand::Names;
use kept_answers::Answers;
use rows::{EXCHANGES, Exchange, Row};
use std::alloc::Global;
use std::process::Abort;

mod rows;

/// The names that are served.
#[derive(Drop)]
struct Index {
    rows: &'static [Row],
}

impl Names for Index {
    ghost served = { λ s name. option_map (λ r. r.1.now) (find (λ r. bytes_eq r.0.now name) s.rows.now) };

    fn live(&self, name: &[u8]) -> Option<&[u8]> {
        let row = self.rows.iter().find(|row| row.0 == name)?;
        Some(row.1)
    }
}

fn digit(c: u8) -> Option<u8> {
    match c {
        b'0'..=b'9' => Some(c - b'0'),
        b'a'..=b'f' => Some(c - b'a' + 10),
        _ => None,
    }
}

/// Reads hexadecimal digits into a buffer of zeros. Gives how many bytes they make.
fn read_hex(text: &[u8], into: &mut [u8]) -> usize
    ensures { result ≤ length into.new }
{
    let mut digits: usize = 0;
    for c in text {
        let value = digit(*c).unwrap_or(0);
        match into.get_mut(digits / 2) {
            Some(byte) => *byte = byte.wrapping_mul(16).wrapping_add(value),
            None => {}
        }
        digits = digits.wrapping_add(1);
    }
    (digits / 2).min(into.len())
}

/// The reply to a message, and its bytes. None has 0.
fn reply_to(
    alloc: Global,
    answers: &mut Answers,
    served: &'static [Row],
    message: &[u8],
    buffer: &mut [u8; EDNS_SIZE as usize],
) -> usize
    ensures { result ≤ 1232 }
{
    let Some(host) = absolute_name(b"ns.example.") else {
        return 0;
    };
    let mut values = 0;
    match answers.answer(
        alloc,
        &Index { rows: served },
        &host,
        40,
        message,
        Transport::Udp,
        buffer,
        &mut values,
    ) {
        Answered::Dropped => 0,
        Answered::Text(size) => size,
    }
}

/// SERVFAIL to a query without EDNS that desires recursion: its bytes, but for the flags.
fn is_failure(query: &[u8], reply: &[u8]) -> bool {
    match (query.split_at_checked(4), reply.split_at_checked(4)) {
        (Some((_, asked)), Some((front, rest))) => front == [0x12, 0x34, 0x81, 2].as_slice()
            && rest == asked,
        _ => false,
    }
}

/// The reply to a query is this one, or, where that is allowed, SERVFAIL.
fn replies(rt: &impl Abort, alloc: Global, answers: &mut Answers, row: &Exchange, may_fail: bool) {
    let mut message = [0; 300];
    let mut want = [0; 512];
    let mut buffer = [0xaa; EDNS_SIZE as usize];
    let message_len = read_hex(row.query, &mut message);
    let want_len = read_hex(row.reply, &mut want);
    let len = reply_to(
        alloc,
        answers,
        row.served,
        &message[..message_len],
        &mut buffer,
    );
    if may_fail && is_failure(&message[..message_len], &buffer[..len]) {
        return;
    }
    same(rt, &buffer[..len], &want[..want_len]);
}

/// So it is where none is kept, and where the answer may be.
fn replies_again(rt: &impl Abort, alloc: Global, row: &Exchange, may_fail: bool) {
    match Answers::new(alloc) {
        Ok(mut answers) => {
            replies(rt, alloc, &mut answers, row, may_fail);
            replies(rt, alloc, &mut answers, row, may_fail);
        }
        Err(_) => assert!(rt; may_fail),
    }
}

/// Each query of the table is answered by its reply, twice, or, where that is allowed, by SERVFAIL.
fn each_replies(rt: &impl Abort, alloc: Global, may_fail: bool) {
    for row in &EXCHANGES {
        replies_again(rt, alloc, row, may_fail);
    }
}

// `checks/failing_trials_table` runs these two with allocations failing in turn: the first passes whichever it is, and the
// second where there is none.
#[test]
fn a_query_without_memory_fails(rt: HostRuntime) {
    each_replies(&rt, rt.alloc(), true);
}

#[test]
fn with_memory_each_query_is_answered(rt: HostRuntime) {
    each_replies(&rt, rt.alloc(), false);
}
