//! A name that a feed registers is asked for by two clients.

use crate::feed::FEED;
use crate::outside::{INIT, Outside, Trial, each_is_right, end_of};
use bridge_core::Status;
use byte_io::{Polled, Sent};
use memory_io::MemoryPort;
use nmc_base::NoMemory;
use std::alloc::Global;
use std::test::Fail;

/// A query for the address of `example.bit.` (RFC 1035, 4.1).
static QUERY: &[u8] =
    b"\x12\x34\x01\x00\x00\x01\x00\x00\x00\x00\x00\x00\x07example\x03bit\x00\x00\x01\x00\x01";

/// Its reply: the question, and the address 1.2.3.4.
static REPLY: &[u8] =
    b"\x12\x34\x85\x00\x00\x01\x00\x01\x00\x00\x00\x00\x07example\x03bit\x00\x00\x01\x00\x01\xc0\x0c\x00\x01\x00\x01\x00\x00\x02\x58\x00\x04\x01\x02\x03\x04";

/// A port that brings the whole feed in one piece.
fn port_with_feed(alloc: Global) -> Result<MemoryPort, NoMemory> {
    let mut port = MemoryPort::new(alloc, &[])?;
    port.add(Polled::Feed { len: FEED.len() }, &FEED)?;
    Ok(port)
}

/// A port that brings the query of client 7, whose reply can't be sent, and that of client 8.
fn port_with_queries(alloc: Global) -> Result<MemoryPort, NoMemory> {
    let mut port = MemoryPort::new(alloc, &[3])?;
    for client in [7, 8] {
        let len = QUERY.len();
        port.add(Polled::Query { client, len }, QUERY)?;
    }
    Ok(port)
}

fn is_fed(sent: Option<Sent<'_>>) -> bool {
    matches!(sent, Some(Sent::Feed { .. }))
}

fn is_reply_to(sent: Option<Sent<'_>>, number: u64) -> bool {
    match sent {
        Some(Sent::Reply { client, bytes }) => client == number && bytes == REPLY,
        _ => false,
    }
}

/// New files are fed, and each of the 13 frames gets a reply.
fn is_registered(alloc: Global, outside: &mut Outside) -> Result<bool, NoMemory> {
    outside.port = port_with_feed(alloc)?;
    let is_made = end_of(alloc, outside, INIT) == Status::Done;
    let is_served = end_of(alloc, outside, "serve 53 8336 1") == Status::Done;
    let is_last = is_fed(outside.port.sent(12)) && outside.port.sent(13).is_none();
    Ok(is_made && is_served && is_last)
}

/// The name is asked for.
fn is_answered(alloc: Global, outside: &mut Outside) -> Result<bool, NoMemory> {
    outside.port = port_with_queries(alloc)?;
    let is_served = end_of(alloc, outside, "serve 53 8336 2") == Status::Done;
    Ok(is_served && is_reply_to(outside.port.sent(0), 8) && outside.port.sent(1).is_none())
}

struct Registered;

impl Trial for Registered {
    fn is_right(alloc: Global, outside: &mut Outside, _row: &str) -> Result<bool, NoMemory> {
        Ok(is_registered(alloc, outside)? && is_answered(alloc, outside)?)
    }
}

#[test]
fn a_reply_that_is_not_sent_leaves_the_next_client_its_own(rt: HostRuntime) -> Result<(), Fail> {
    each_is_right::<Registered>(&rt, rt.alloc(), "the feed and the clients")?;
    Ok(())
}
