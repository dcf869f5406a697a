//! A port over a net in memory hands on what comes, sends what it is told to, and its net tells both.

ghost use Rattle.std.specs.Prelude.{◌≡◌, ◌<◌, length, OnOk};
ghost use Rattle.byte_io.specs.declared.port.TheConstants.{POLL_ROOM};
ghost use Rattle.byte_io.specs.Port.{IsBound};

use crate::memory_net::MemoryNet;
use crate::port::poll_buffer;
use crate::told::{Told, What};
use byte_io::{Failed, Polled, Port};
use std::io::{self, Write};
use std::net::{Ipv4Addr, SocketAddrV4, TcpStream};
use std::process::Abort;
use std::test::Fail;
use system_io::{Peer, People, PortOf};

const QUERY: &[u8] = &[10, 20, 30];

const REPLY: &[u8] = &[40, 50];

/// The number of the client at 198.51.100.7, port 4660.
const CLIENT: u64 = 0xc633_6407_1234;

fn address_of_client() -> SocketAddrV4 {
    SocketAddrV4::new(Ipv4Addr::new(198, 51, 100, 7), 4660)
}

/// This machine, at a number that it chooses.
fn any_here() -> SocketAddrV4 {
    SocketAddrV4::new(Ipv4Addr::new(127, 0, 0, 1), 0)
}

/// What comes, how a poll brings it, where the reply goes, and how the port notes that.
#[derive(Clone, Copy)]
struct Exchange {
    came: What,
    brought: Polled,
    went: What,
    replied: What,
}

/// The exchange with the client of that address.
fn of_a_datagram() -> Exchange {
    let client = CLIENT;
    Exchange {
        came: What::Came(address_of_client()),
        brought: Polled::Query { client, len: 3 },
        went: What::Gave(address_of_client()),
        replied: What::Replied(client, true),
    }
}

/// The exchange over the first connection.
fn of_a_piece() -> Exchange {
    let client = 1;
    Exchange {
        came: What::Received(Peer::Client(client)),
        brought: Polled::Stream { client, len: 3 },
        went: What::Sent(Peer::Client(client)),
        replied: What::StreamReplied(client, true),
    }
}

fn binds<P: Port>(port: &mut P) -> Result<(), Failed>
    ensures { OnOk result (IsBound (P.seen port.new)) }
{
    port.bind(0, 0, 0)
}

/// Replies to who asked. Whether it was sent.
fn replies<P: Port>(port: &mut P, polled: Polled) -> bool
    requires { IsBound (P.seen port.old) }
    ensures { IsBound (P.seen port.new) }
{
    match polled {
        Polled::Query { client, .. } => port.reply(client, REPLY).is_ok(),
        Polled::Stream { client, .. } => port.stream_reply(client, REPLY).is_ok(),
        _ => false,
    }
}

/// The next poll brings the query so, and the reply to it is sent.
fn answers<P: Port>(rt: &impl Abort, port: &mut P, buffer: &mut [u8], brought: Polled)
    requires bound { IsBound (P.seen port.old) }
    requires room { length buffer.old ≡ POLL_ROOM }
    ensures bound { IsBound (P.seen port.new) }
    ensures room { length buffer.new ≡ POLL_ROOM }
{
    let polled = port.poll(buffer);
    assert_eq!(rt; polled, brought);
    assert!(rt; buffer.starts_with(QUERY));
    assert!(rt; replies(port, polled));
}

/// The net tells that this happened at this place of the order, with these bytes at the front.
fn tells(rt: &impl Abort, told: &Told, place: usize, what: What, bytes: &[u8]) {
    match told.at(place) {
        Some((happened, with)) => assert!(rt; happened == what && with.starts_with(bytes)),
        None => panic!(rt; "nothing happened at {place}"),
    }
}

/// From this place on it tells of the query with the note of its poll, and of the reply with its note.
fn tells_of(rt: &impl Abort, told: &Told, place: usize, exchange: Exchange)
    requires { place < 100 }
{
    tells(rt, told, place, exchange.came, QUERY);
    tells(rt, told, place + 1, What::Polled(exchange.brought), QUERY);
    tells(rt, told, place + 2, exchange.went, REPLY);
    tells(rt, told, place + 3, exchange.replied, REPLY);
}

/// It tells of three addresses, of both exchanges, and of nothing else.
fn tells_all(rt: &impl Abort, told: &Told) {
    for place in 0..3 {
        tells(rt, told, place, What::Asked(any_here()), &[]);
    }
    tells_of(rt, told, 3, of_a_datagram());
    tells_of(rt, told, 7, of_a_piece());
    assert!(rt; told.is_whole() && told.at(11).is_none());
}

/// A net to which the query comes as a datagram and over a connection.
fn net_of(rt: &HostRuntime) -> Result<MemoryNet<'_>, Fail> {
    let mut net = MemoryNet::new(rt);
    net.add_datagram(address_of_client(), QUERY)?;
    net.add_piece(QUERY)?;
    Ok(net)
}

/// A connection of the system's to the listener of clients, over which a byte goes that wakes the port.
fn connected(rt: &HostRuntime, net: &MemoryNet<'_>) -> io::Result<TcpStream> {
    let Some(address) = net.listens() else {
        return Err(io::ErrorKind::NotFound.into());
    };
    let mut stream = TcpStream::connect(rt, address)?;
    stream.write_all(&[0])?;
    Ok(stream)
}

/// Both exchanges, and what the net tells of them. The runtime is a handle to stop by as well.
fn exchanges(
    rt: &HostRuntime,
    handle: &impl Abort,
    port: &mut PortOf<'_, MemoryNet<'_>>,
) -> Result<(), Fail> {
    let mut buffer = poll_buffer(rt.alloc())?;
    binds(port)?;
    let _stream = connected(rt, port.net())?;
    answers(handle, port, &mut buffer, of_a_datagram().brought);
    answers(handle, port, &mut buffer, of_a_piece().brought);
    tells_all(handle, port.net().told());
    Ok(())
}

#[test]
fn what_comes_is_handed_on_and_answered(rt: HostRuntime) -> Result<(), Fail> {
    let people = People::of(&rt);
    let mut port = PortOf::over(net_of(&rt)?, &rt, &people);
    exchanges(&rt, &rt, &mut port)
}
