//! All sockets of a run, and which of them is served next.

ghost use Rattle.std.specs.Prelude.{◌≡◌, ◌≤◌, length, drop, IsTrue, IfOk, OnOk};
ghost use Rattle.system_io.specs.Arrival.{IsWithin};
ghost use Rattle.system_io.specs.FeedReplies.{SendsReply};
ghost use Rattle.system_io.specs.Loopback.{loopback_bytes, port_addresses, Asks, AsksAll, AsksFirst};
ghost use Rattle.system_io.specs.Client.{address_bytes};
ghost use Rattle.system_io.specs.Net.{client_at, GivesWhole, HandsOnOk, SendsOn};
ghost use Rattle.system_io.specs.Notes.{ComesIn};
ghost use Rattle.byte_io.specs.declared.port.TheConstants.{POLL_ROOM};
ghost use Rattle.std.specs.Int.{w64, to_be_bytes};
ghost use Rattle.system_io.specs.Streams.{HasNone, GivesReply};
ghost use Rattle.system_io.specs.Waits.{AsksEach, LooksAtEach};

use crate::cause::Cause;
use crate::client::Client;
use crate::clock::{LOOK, MILLISECOND, SECOND, now};
use crate::datagrams::send_whole;
use crate::door::NOTHING_ASKED;
use crate::feed::Feed;
use crate::link::Peer;
use crate::loopback::bind_datagrams;
use crate::net::Net;
use crate::people::People;
use crate::streams::Streams;
use crate::turn::Turn;
use byte_io::Polled;
use dns_tcp::CLIENTS;
use libc::net::{POLLIN, SO_RCVBUF, SOL_SOCKET, poll, setsockopt};
use libc::types::pollfd;
use std::io::{self, ErrorKind};
use std::net::{SocketAddrV4, UdpSocket};
use std::os::fd::AsRawFd;
use std::time::Duration;

/// How long a poll waits where nothing comes: ten seconds.
const REST: u64 = 10 * SECOND;

/// So long a queue of datagrams is asked for, 4 MiB: while a block is synced some thousand queries may come.
const QUEUE: u32 = 4 << 20;

/// In which steps a connection that leaves at the end is waited for.
const LAST_MILLIS: i32 = 100;

/// After so many polls that one asker alone brought something of, it is waited for alone.
const STRETCH: u8 = 16;

/// A query of the longest name with an OPT takes so much of a connection: a longer piece may well have several.
const ONE_QUERY: usize = 284;

/// The places that a wait looks at whatever is connected: datagrams, two of the feed, and newcomers.
const FIRST_PLACES: usize = 4;

/// How many places a wait looks at at most: these, and the connections of clients.
const PLACES: usize = FIRST_PLACES + CLIENTS;

/// Who asks.
#[derive(Clone, Copy, PartialEq, Eq)]
enum Asker {
    Nobody,
    Datagrams,
    /// The client of a connection.
    Stream(u64),
}

/// Which sides have something that nobody took yet, beside the clients' connections.
#[derive(Clone, Copy)]
struct Ready {
    datagram: bool,
    feed: bool,
}

/// A UDP socket, the clients' connections and the feed's side.
///
/// While one asker alone asks and all others are at rest, a poll waits for it alone, so that a query takes one call of the system
/// and its reply another; the others are looked at once in so long a time. Otherwise a poll waits for all that may come. What a wait
/// has found is taken side by side, a datagram or a piece of each, before the next wait: so none of them waits for long. Behind a
/// piece with several queries datagrams are looked at once more: so a datagram waits for one such piece, and not for those of all. Behind
/// a piece of the feed, which has no bytes of two frames, they have a turn.
#[derive(Drop)]
pub(crate) struct Sockets<'a> {
    rt: &'a HostRuntime,
    udp: UdpSocket,
    streams: Streams<'a>,
    feed: Feed<'a>,
    ready: Ready,
    // whether the last piece of a client's connection may have had several queries
    was_long: bool,
    // whether the last piece was the feed's, and the turn that datagrams have behind one
    was_fed: bool,
    turn: Turn,
    // who asked last, and how many more times before, with nothing else in between
    asker: Asker,
    streak: u8,
    // when all sides are to be looked at again
    look_at: u64,
}

/// So many microseconds in milliseconds, or one more; at most as many as a poll waits.
fn millis(time: u64) -> i32 {
    i32::try_from(time.min(REST) / MILLISECOND + 1).unwrap_or(0)
}

/// Asks for a queue of so many bytes for datagrams that nobody took yet: the system gives as much of it as it gives anybody. Where it
/// gives none the queue is as long as it was.
fn widen_queue(udp: &UdpSocket) {
    let mut value = [0; 16];
    value[..4].copy_from_slice(&QUEUE.to_ne_bytes());
    // The option is one of four bytes, which stand at the front.
    let _ = unsafe { setsockopt(udp.as_raw_fd(), SOL_SOCKET, SO_RCVBUF, &value, 4) };
}

/// A socket for datagrams of this number. No call on it waits for long.
fn bind_udp<N: Net>(net: &mut N, number: u16) -> io::Result<UdpSocket>
    ensures { Asks (N.told net.old) (N.told net.new) (loopback_bytes number) }
{
    let udp = bind_datagrams(net, number)?;
    let wait = Duration::from_micros(LOOK);
    udp.set_read_timeout(Some(wait))?;
    udp.set_write_timeout(Some(wait))?;
    widen_queue(&udp);
    Ok(udp)
}

/// Tells people why a port wasn't bound, if it wasn't.
fn heard<T>(
    people: &People<'_>,
    number: u16,
    what: &'static str,
    bound: io::Result<T>,
) -> io::Result<T>
    ensures { result ≡ bound }
{
    if let Err(error) = &bound {
        people.tell(Cause::Unbound {
            number,
            what,
            error: *error,
        });
    }
    bound
}

/// A datagram of so many bytes from this address.
fn query_of(from: SocketAddrV4, len: usize) -> Polled
    ensures { result ≡ Polled.Query (client_at (address_bytes from)) len }
{
    let Client(client) = Client::at(from);
    Polled::Query { client, len }
}

/// Where a call on a socket would have to wait, nothing has come.
fn nothing_yet(error: io::Error) -> io::Result<Polled>
    ensures { IfOk result (λ polled. polled ≡ Polled.Nothing) }
{
    match error.kind() {
        ErrorKind::WouldBlock => Ok(Polled::Nothing),
        _ => Err(error),
    }
}

impl<'a> Sockets<'a> {
    pub(crate) fn bind<N: Net>(
        net: &mut N,
        rt: &'a HostRuntime,
        people: &'a People<'a>,
        udp: u16,
        feed: u16,
    ) -> io::Result<Sockets<'a>>
        ensures asked { AsksFirst (N.told net.old) (N.told net.new) (port_addresses udp feed) }
        ensures ok { OnOk result (AsksAll (N.told net.old) (N.told net.new) (port_addresses udp feed)) }
    {
        let datagrams = heard(people, udp, "UDP", bind_udp(net, udp))?;
        let bound = Streams::bind(net, rt, people, udp);
        let streams = heard(people, udp, "TCP, queries", bound)?;
        let bound = Feed::bind(net, rt, people, feed);
        let feed = heard(people, feed, "TCP, the feed", bound)?;
        Ok(Sockets {
            rt,
            udp: datagrams,
            streams,
            feed,
            ready: Ready {
                datagram: false,
                feed: false,
            },
            was_long: false,
            was_fed: false,
            turn: Turn::none(),
            asker: Asker::Nobody,
            streak: 0,
            look_at: 0,
        })
    }

    /// A datagram, a piece of a client's connection or of the feed, or an end; nothing where none comes for a long time.
    #[tactic(auto, using(crate::proofs::NetLemmas::Hears_nothing, crate::proofs::NetLemmas::Hears_then))]
    pub(crate) fn poll<N: Net>(&mut self, net: &mut N, buffer: &mut [u8]) -> io::Result<Polled>
        requires { length buffer.old ≡ POLL_ROOM }
        ensures told { HandsOnOk (N.told net.old) (N.told net.new) buffer.new result }
        ensures within { IfOk result (λ polled. IsWithin polled (length buffer.new)) }
        ensures room { length buffer.new ≡ length buffer.old }
    {
        self.begin_turn();
        for _ in 0..u64::MAX {
            self.look_for_datagram();
            match self.take(net, buffer)? {
                Polled::Nothing if self.is_ready() || self.wait() => {}
                polled => return Ok(polled),
            }
        }
        Ok(Polled::Nothing)
    }

    /// Whether there is something to be taken.
    fn is_ready(&self) -> bool {
        self.ready.feed || self.ready.datagram || self.streams.are_ready()
    }

    /// Gives datagrams a turn behind a piece of the feed.
    fn begin_turn(&mut self) {
        if self.was_fed {
            self.was_fed = false;
            self.turn = Turn::new(now(self.rt));
        }
    }

    /// Looks whether a datagram has come, where others would be taken before the next wait. The turn of datagrams ends where none has.
    fn look_for_datagram(&mut self) {
        let is_looked_for = self.turn.is_on() || self.was_long && self.streams.are_ready();
        if is_looked_for && !self.ready.datagram {
            self.ready.datagram = poll(&mut [self.datagrams()], 0) > 0;
        }
        self.was_long = false;
        if !self.ready.datagram {
            self.turn = Turn::none();
        }
    }

    /// Whether the feed is next: it has something, and it isn't the turn of datagrams.
    fn is_feeds(&self) -> bool
        ensures { IsTrue self.now.ready.feed → self.now.turn.until ≡ 0 → IsTrue result }
    {
        self.ready.feed && !(self.ready.datagram && self.turn.is_on())
    }

    /// Takes from one side that has something. Where none has and the others needn't be looked at yet, whoever asks alone is waited
    /// for.
    #[tactic(auto, using(crate::proofs::NetLemmas::Hears_nothing))]
    fn take<N: Net>(&mut self, net: &mut N, buffer: &mut [u8]) -> io::Result<Polled>
        requires { length buffer.old ≡ POLL_ROOM }
        ensures told { HandsOnOk (N.told net.old) (N.told net.new) buffer.new result }
        ensures within { IfOk result (λ polled. IsWithin polled (length buffer.new)) }
        ensures room { length buffer.new ≡ length buffer.old }
    {
        let now = now(self.rt);
        self.turn = self.turn.left(now);
        if self.is_feeds() {
            return self.poll_feed(net, buffer, now);
        }
        let polled = if self.ready.datagram {
            self.ready.datagram = false;
            self.receive(net, buffer)?
        } else if self.streams.are_ready() {
            self.streams.poll(net, buffer, now)
        } else if self.streak >= STRETCH && now < self.look_at {
            self.wait_for_asker(net, buffer, now)?
        } else {
            return Ok(Polled::Nothing);
        };
        self.note(polled);
        Ok(polled)
    }

    /// What the feed brings. Where it's nothing, whoever asks alone still does.
    fn poll_feed<N: Net>(&mut self, net: &mut N, buffer: &mut [u8], now: u64) -> io::Result<Polled>
        ensures told { HandsOnOk (N.told net.old) (N.told net.new) buffer.new result }
        ensures within { IfOk result (λ polled. IsWithin polled (length buffer.new)) }
        ensures room { length buffer.new ≡ length buffer.old }
    {
        self.ready.feed = false;
        let polled = self.feed.poll(net, buffer, now)?;
        if polled != Polled::Nothing {
            self.note(polled);
        }
        Ok(polled)
    }

    /// Waits for a moment for whoever asks alone.
    #[tactic(auto, using(crate::proofs::NetLemmas::Hears_nothing))]
    fn wait_for_asker<N: Net>(
        &mut self,
        net: &mut N,
        buffer: &mut [u8],
        now: u64,
    ) -> io::Result<Polled>
        requires { length buffer.old ≡ POLL_ROOM }
        ensures told { HandsOnOk (N.told net.old) (N.told net.new) buffer.new result }
        ensures within { IfOk result (λ polled. IsWithin polled (length buffer.new)) }
        ensures room { length buffer.new ≡ length buffer.old }
    {
        match self.asker {
            Asker::Datagrams => self.receive(net, buffer),
            Asker::Stream(client) => Ok(self.streams.wait_for(net, client, buffer, now)),
            Asker::Nobody => Ok(Polled::Nothing),
        }
    }

    /// Notes who asks, and how much at once.
    fn note(&mut self, polled: Polled) {
        let asker = match polled {
            Polled::Query { .. } => Asker::Datagrams,
            Polled::Stream { client, .. } => Asker::Stream(client),
            _ => Asker::Nobody,
        };
        self.streak = if asker == self.asker {
            self.streak.saturating_add(1)
        } else {
            0
        };
        self.asker = asker;
        self.was_long = matches!(polled, Polled::Stream { len, .. } if len > ONE_QUERY);
        self.was_fed = matches!(polled, Polled::Feed { .. });
    }

    /// What a wait for datagrams is to look at.
    fn datagrams(&self) -> pollfd {
        pollfd {
            fd: self.udp.as_raw_fd(),
            events: POLLIN,
            revents: 0,
        }
    }

    /// What a wait is to look at.
    fn asked(&self, now: u64) -> [pollfd; PLACES]
        ensures { AsksEach self.now.streams.streams.items (drop FIRST_PLACES result) }
    {
        let mut asked = [NOTHING_ASKED; PLACES];
        let [door, link] = self.feed.asked(now);
        asked[0] = self.datagrams();
        asked[1] = door;
        asked[2] = link;
        asked[3] = self.streams.asked(now);
        self.streams.ask(&mut asked[FIRST_PLACES..]);
        asked
    }

    /// Waits until one side has something, or the time is over. Whether one has.
    fn wait(&mut self) -> bool {
        let begun = now(self.rt);
        let feed_due = self.feed.due(begun);
        let due = feed_due.min(self.streams.due(begun));
        let time = if due <= begun {
            0
        } else {
            millis(due.saturating_sub(begun))
        };
        let mut places = self.asked(begun);
        // A wait for more places than the system lets the program have open fails.
        let count = FIRST_PLACES + self.streams.count();
        if poll(&mut places[..count], time) <= 0 {
            places = [NOTHING_ASKED; PLACES];
        }
        let ended = now(self.rt);
        self.look(&places, feed_due <= ended, ended);
        self.is_ready()
    }

    /// Notes what a wait has found.
    fn look(&mut self, places: &[pollfd; PLACES], is_feed_due: bool, now: u64)
        ensures { LooksAtEach self.old.streams.streams.items self.new.streams.streams.items (drop FIRST_PLACES places.now) now }
    {
        self.look_at = now.saturating_add(LOOK);
        self.ready = Ready {
            datagram: places[0].revents != 0,
            feed: is_feed_due || places[1].revents != 0 || places[2].revents != 0,
        };
        let is_called = places[3].revents != 0;
        self.streams.look(is_called, &places[FIRST_PLACES..], now);
    }

    /// A datagram, or nothing where none comes in time.
    #[tactic(auto, using(crate::proofs::NetLemmas::Query_hears, crate::proofs::NetLemmas::Nothing_hears))]
    fn receive<N: Net>(&self, net: &mut N, buffer: &mut [u8]) -> io::Result<Polled>
        requires { length buffer.old ≡ POLL_ROOM }
        ensures told { HandsOnOk (N.told net.old) (N.told net.new) buffer.new result }
        ensures within { IfOk result (λ polled. IsWithin polled (length buffer.new)) }
        ensures room { length buffer.new ≡ length buffer.old }
    {
        match self.receive_once(net, buffer) {
            Ok((len, from)) => Ok(query_of(from, len)),
            Err(error) => nothing_yet(error),
        }
    }

    /// Receives once, but for calls that a signal interrupted.
    #[tactic(auto, using(crate::proofs::NetLemmas::Adds_nothing, crate::proofs::NetLemmas::Comes_then, crate::proofs::NetLemmas::Comes_failed))]
    fn receive_once<N: Net>(
        &self,
        net: &mut N,
        buffer: &mut [u8],
    ) -> io::Result<(usize, SocketAddrV4)>
        ensures came { ComesIn (N.told net.old) (N.told net.new) buffer.new result }
        ensures room { length buffer.new ≡ length buffer.old }
    {
        for _ in 0..u64::MAX {
            match net.receive(&self.udp, buffer) {
                Err(error) if error.kind() == ErrorKind::Interrupted => {}
                answer => return answer,
            }
        }
        Err(ErrorKind::WouldBlock.into())
    }

    /// Sends a datagram.
    pub(crate) fn reply<N: Net>(
        &mut self,
        net: &mut N,
        client: Client,
        bytes: &[u8],
    ) -> io::Result<()>
        ensures same { self.new ≡ self.old }
        ensures given { GivesWhole (N.told net.old) (N.told net.new) (drop 2 (to_be_bytes w64 client.0)) bytes.now result }
    {
        send_whole(net, &self.udp, client, bytes)
    }

    /// Sends a reply over the connection of this client, or keeps it to be sent, or its connection is over.
    pub(crate) fn stream_reply<N: Net>(&mut self, net: &mut N, client: u64, bytes: &[u8])
        ensures sends { SendsOn (N.told net.old) (N.told net.new) (Peer.Client client) }
        ensures reply { GivesReply (N.told net.old) (N.told net.new) self.old.streams.streams.items self.new.streams.streams.items client bytes.now }
    {
        self.streams.reply(net, client, bytes);
    }

    /// Closes the connection of this client, if it is there.
    pub(crate) fn close_stream(&mut self, client: u64)
        ensures { HasNone self.new.streams.streams.items client }
    {
        self.streams.close(client);
    }

    /// Sends a reply to the feed, or keeps it to be sent, or nothing goes over its connection any more.
    pub(crate) fn feed_reply<N: Net>(&mut self, net: &mut N, bytes: &[u8]) -> io::Result<()>
        ensures sends { SendsOn (N.told net.old) (N.told net.new) Peer.Feed }
        ensures reply { SendsReply (N.told net.old) (N.told net.new) self.old.feed.place self.new.feed.place result bytes.now }
    {
        self.feed.send(net, bytes)
    }

    pub(crate) fn close_feed<N: Net>(&mut self, net: &mut N)
        ensures { SendsOn (N.told net.old) (N.told net.new) Peer.Feed }
    {
        self.feed.close(net, now(self.rt));
    }

    /// Closes the clients' connections, lets the feed's go, and waits until it has left.
    pub(crate) fn finish<N: Net>(&mut self, net: &mut N) {
        self.streams.close_all();
        self.feed.close(net, now(self.rt));
        for _ in 0..u64::MAX {
            if !self.feed.is_leaving() {
                break;
            }
            self.wait_for_leaving(net);
        }
    }

    /// Waits for the connection that leaves, and goes on with it.
    fn wait_for_leaving<N: Net>(&mut self, net: &mut N) {
        let [_, link] = self.feed.asked(now(self.rt));
        let _ = poll(&mut [link], LAST_MILLIS);
        self.feed.let_leave(net, now(self.rt));
    }
}
