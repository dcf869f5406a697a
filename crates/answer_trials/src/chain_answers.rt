//! Replies from a chain: a base alone, and names above it.

ghost use Rattle.std.specs.Prelude.{◌≤◌};

use crate::comparing::same;
use bit_resolver::Answered;
use bridge_core::answer;
use chain_state::Chain;
use dns_message::{EDNS_SIZE, Transport};
use domain_text::{Name, absolute_name};
use kept_answers::Answers;
use nmc_base::{Base, Hash32, NoMemory, Profile};
use std::alloc::Global;
use std::process::Abort;

/// A query for an address of `x.bit.`
const QUERY: [u8; 23] = [
    0x12, 0x34, 1, 0, 0, 1, 0, 0, 0, 0, 0, 0, 1, b'x', 3, b'b', b'i', b't', 0, 0, 1, 0, 1,
];

/// That there is no such name: the SOA of `bit.` with the serial 40.
const NAME_ERROR: &[u8] =
    b"\x12\x34\x85\x03\x00\x01\x00\x00\x00\x01\x00\x00\x01x\x03bit\x00\x00\x01\x00\x01\x03bit\x00\x00\x06\x00\x01\x00\x00\x02\x58\x00\x37\x02ns\x07example\x00\x0ahostmaster\x02ns\x07example\x00\x00\x00\x00\x28\x00\x00\x02\x58\x00\x00\x02\x58\x00\x00\x1c\x20\x00\x00\x02\x58";

/// The chain of a base alone, at the height 40.
fn empty_chain(alloc: Global) -> Result<Chain, NoMemory> {
    let base = Base {
        profile: Profile::Regtest,
        height: 40,
        hash: Hash32([0; 32]),
    };
    Chain::at_base(alloc, base)
}

/// The reply to a message from a chain, and its bytes. None has 0.
fn reply_of(
    alloc: Global,
    answers: &mut Answers,
    chain: &Chain,
    host: &Name,
    message: &[u8],
    buffer: &mut [u8; EDNS_SIZE as usize],
) -> usize
    ensures { result ≤ 1232 }
{
    match answer(alloc, answers, chain, host, message, Transport::Udp, buffer) {
        Answered::Dropped => 0,
        Answered::Text(size) => size,
    }
}

/// The same from a chain of the base alone.
fn reply_to(
    alloc: Global,
    host: &Name,
    message: &[u8],
    buffer: &mut [u8; EDNS_SIZE as usize],
) -> usize
    ensures { result ≤ 1232 }
{
    let Ok(mut answers) = Answers::new(alloc) else {
        return 0;
    };
    match empty_chain(alloc) {
        Ok(chain) => reply_of(alloc, &mut answers, &chain, host, message, buffer),
        Err(_) => 0,
    }
}

fn replies(rt: &impl Abort, alloc: Global, message: &[u8], want: &[u8]) {
    let mut buffer = [0xaa; EDNS_SIZE as usize];
    match absolute_name(b"ns.example.") {
        Some(host) => {
            let len = reply_to(alloc, &host, message, &mut buffer);
            same(rt, &buffer[..len], want);
        }
        None => assert!(rt; false),
    }
}

#[test]
fn the_serial_is_the_height_of_the_tip(rt: HostRuntime) {
    replies(&rt, rt.alloc(), &QUERY, NAME_ERROR);
    replies(&rt, rt.alloc(), &QUERY[..11], b"");
}
