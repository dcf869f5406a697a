//! A port in memory brings its polls in order, keeps what is sent, and its listed calls fail.

ghost use Rattle.std.specs.Prelude.{◌≡◌, length, IfOk, OnOk};
ghost use Rattle.byte_io.specs.declared.port.TheConstants.{POLL_ROOM};
ghost use Rattle.byte_io.specs.Port.{IsBound};
ghost use Rattle.memory_io.specs.MemoryPort.{memory_seen};

use byte_io::{POLL_ROOM, Polled, Port, Sent};
use memory_io::MemoryPort;
use std::alloc::Global;
use std::process::Abort;
use std::test::Fail;

/// A buffer that a poll may be lent.
pub(crate) fn poll_buffer(alloc: Global) -> Result<Vec<u8>, Fail>
    ensures { IfOk result (λ buffer. length buffer.items ≡ POLL_ROOM) }
{
    Ok(vec![in alloc; 0u8; POLL_ROOM]?)
}

/// Adds a query of client 7, nothing, a piece of client 9's stream and its end, a piece of the feed and the feed's end.
fn add_polls(port: &mut MemoryPort) -> Result<(), Fail> {
    port.add(Polled::Query { client: 7, len: 2 }, &[10, 20])?;
    port.add(Polled::Nothing, &[])?;
    port.add(Polled::Stream { client: 9, len: 1 }, &[60])?;
    port.add(Polled::StreamEnd { client: 9 }, &[])?;
    port.add(Polled::Feed { len: 3 }, &[30, 40, 50])?;
    Ok(port.add(Polled::FeedEnd, &[])?)
}

/// A port with these polls to come, whose listed calls fail.
fn port_with_polls(alloc: Global, fail: &[u64]) -> Result<MemoryPort, Fail> {
    let mut port = MemoryPort::new(alloc, fail)?;
    add_polls(&mut port)?;
    Ok(port)
}

/// So many binds fail, and the next binds the port.
fn binds_after(rt: &impl Abort, port: &mut MemoryPort, failures: usize) -> Result<(), Fail>
    ensures { OnOk result (IsBound (memory_seen port.new)) }
{
    for _ in 0..failures {
        assert!(rt; port.bind(53, 54, 0).is_err());
    }
    Ok(port.bind(53, 54, 0)?)
}

/// The next poll answers this, with these bytes at the front of the buffer.
fn polls(rt: &impl Abort, port: &mut MemoryPort, buffer: &mut [u8], want: Polled, bytes: &[u8])
    requires bound { IsBound (memory_seen port.old) }
    requires room { length buffer.old ≡ POLL_ROOM }
    ensures bound { IsBound (memory_seen port.new) }
    ensures room { length buffer.new ≡ POLL_ROOM }
{
    let got = port.poll(buffer);
    assert_eq!(rt; got, want);
    assert!(rt; buffer.starts_with(bytes));
}

/// A reply to this client is sent, or fails.
fn replies(rt: &impl Abort, port: &mut MemoryPort, client: u64, bytes: &[u8], is_sent: bool)
    requires { IsBound (memory_seen port.old) }
    ensures { IsBound (memory_seen port.new) }
{
    assert!(rt; port.reply(client, bytes).is_ok() == is_sent);
}

/// A reply over this client's stream is sent.
fn replies_over_stream(rt: &impl Abort, port: &mut MemoryPort, client: u64, bytes: &[u8])
    requires { IsBound (memory_seen port.old) }
    ensures { IsBound (memory_seen port.new) }
{
    assert!(rt; port.stream_reply(client, bytes).is_ok());
}

/// A reply to the feed is sent.
fn replies_to_feed(rt: &impl Abort, port: &mut MemoryPort, bytes: &[u8])
    requires { IsBound (memory_seen port.old) }
    ensures { IsBound (memory_seen port.new) }
{
    assert!(rt; port.feed_reply(bytes).is_ok());
}

/// A call of a bound port, and what comes of it.
#[derive(Clone, Copy)]
enum Call {
    /// What it answers, and the bytes at the front of the buffer.
    Poll(Polled, &'static [u8]),
    /// The client, the bytes, and whether they are sent.
    Reply(u64, &'static [u8], bool),
    /// Bytes that are sent over this client's stream.
    StreamReply(u64, &'static [u8]),
    CloseStream(u64),
    /// Bytes that are sent to the feed.
    FeedReply(&'static [u8]),
    CloseFeed,
}

fn makes(rt: &impl Abort, port: &mut MemoryPort, buffer: &mut [u8], call: Call)
    requires bound { IsBound (memory_seen port.old) }
    requires room { length buffer.old ≡ POLL_ROOM }
    ensures bound { IsBound (memory_seen port.new) }
    ensures room { length buffer.new ≡ POLL_ROOM }
{
    match call {
        Call::Poll(want, bytes) => polls(rt, port, buffer, want, bytes),
        Call::Reply(client, bytes, is_sent) => replies(rt, port, client, bytes, is_sent),
        Call::StreamReply(client, bytes) => replies_over_stream(rt, port, client, bytes),
        Call::CloseStream(client) => port.close_stream(client),
        Call::FeedReply(bytes) => replies_to_feed(rt, port, bytes),
        Call::CloseFeed => port.close_feed(),
    }
}

fn makes_each(rt: &impl Abort, port: &mut MemoryPort, buffer: &mut [u8], calls: &[Call])
    requires bound { IsBound (memory_seen port.old) }
    requires room { length buffer.old ≡ POLL_ROOM }
    ensures bound { IsBound (memory_seen port.new) }
    ensures room { length buffer.new ≡ POLL_ROOM }
{
    for call in calls {
        makes(rt, port, buffer, *call);
    }
}

/// Binds the port after so many binds that fail, and makes the calls.
fn bound_makes(
    rt: &impl Abort,
    alloc: Global,
    port: &mut MemoryPort,
    failures: usize,
    calls: &[Call],
) -> Result<(), Fail> {
    let mut buffer = poll_buffer(alloc)?;
    binds_after(rt, port, failures)?;
    makes_each(rt, port, &mut buffer, calls);
    Ok(())
}

/// The send or closing of this number.
fn sent(rt: &impl Abort, port: &MemoryPort, number: usize, want: Option<Sent<'_>>) {
    assert_eq!(rt; port.sent(number), want);
}

/// The sends and closings from the first.
fn keeps(rt: &impl Abort, port: &MemoryPort, kept: &[Option<Sent<'static>>]) {
    for (number, want) in kept.iter().enumerate() {
        sent(rt, port, number, *want);
    }
}

/// A query of client 7, as a poll brings it.
const QUERY: Call = Call::Poll(Polled::Query { client: 7, len: 2 }, &[10, 20]);

static CALLS: [Call; 12] = [
    QUERY,
    Call::Poll(Polled::Nothing, &[]),
    Call::Reply(7, &[1, 2], true),
    Call::Poll(Polled::Stream { client: 9, len: 1 }, &[60]),
    Call::StreamReply(9, &[4, 5]),
    Call::Poll(Polled::StreamEnd { client: 9 }, &[]),
    Call::CloseStream(9),
    Call::Poll(Polled::Feed { len: 3 }, &[30, 40, 50]),
    Call::FeedReply(&[3]),
    Call::CloseFeed,
    Call::Poll(Polled::FeedEnd, &[]),
    Call::Poll(Polled::Nothing, &[]),
];

static SENT: [Option<Sent<'static>>; 6] = [
    Some(Sent::Reply {
        client: 7,
        bytes: &[1, 2],
    }),
    Some(Sent::Stream {
        client: 9,
        bytes: &[4, 5],
    }),
    Some(Sent::StreamClosed { client: 9 }),
    Some(Sent::Feed { bytes: &[3] }),
    Some(Sent::Closed),
    None,
];

#[test]
fn polls_come_in_order_and_sends_are_kept(rt: HostRuntime) -> Result<(), Fail> {
    let mut port = port_with_polls(rt.alloc(), &[])?;
    bound_makes(&rt, rt.alloc(), &mut port, 0, &CALLS)?;
    keeps(&rt, &port, &SENT);
    Ok(())
}

static CALLS_WITH_FAULTS: [Call; 4] = [
    Call::Poll(Polled::Failed, &[]),
    QUERY,
    Call::Reply(7, &[1], false),
    Call::Reply(8, &[2], true),
];

static SENT_WITH_FAULTS: [Option<Sent<'static>>; 2] = [
    Some(Sent::Reply {
        client: 8,
        bytes: &[2],
    }),
    None,
];

#[test]
fn each_listed_call_of_a_port_fails_and_takes_no_poll(rt: HostRuntime) -> Result<(), Fail> {
    let mut port = port_with_polls(rt.alloc(), &[1, 3, 5])?;
    bound_makes(&rt, rt.alloc(), &mut port, 1, &CALLS_WITH_FAULTS)?;
    keeps(&rt, &port, &SENT_WITH_FAULTS);
    Ok(())
}
