//! A client's connection.

ghost use Rattle.std.specs.Prelude.{◌≡◌, ◌+◌, ◌<◌, ◌≤◌, ◌↔◌, ◌++◌, length, IsTrue, IfOk, MatchBool};
ghost use Rattle.system_io.specs.Arrival.{IsWithin, IsOnlyOf, IsOfRead};
ghost use Rattle.system_io.specs.Net.{HandsOn, Moves, Reads, SendsOn};
ghost use Rattle.system_io.specs.Replies.{IsKept};
ghost use Rattle.system_io.specs.declared.link.Peer.TheVariants.{Client};

use crate::clock::{LOOK, MILLISECOND, SECOND};
use crate::link::{Link, Peer};
use crate::net::Net;
use crate::reading::read_link;
use crate::unsent::Unsent;
use byte_io::Polled;
use libc::net::{POLLIN, POLLOUT};
use libc::types::pollfd;
use std::alloc::Global;
use std::io::{self, ErrorKind};
use std::net::TcpStream;
use std::os::fd::AsRawFd;
use std::time::Duration;

/// So much is read of a connection at once: some twenty short queries, whose replies are to fit in what may be unsent.
const PIECE: usize = 512;

/// How much of its replies a client may leave to be sent, four of the longest: one that leaves more doesn't read them.
pub(crate) const MOST_UNSENT: usize = 262_144;

/// A connection that has sent nothing and taken nothing for so long ends (RFC 7766, 6.2.3).
const SILENCE: u64 = 10 * SECOND;

/// What is to be done with a connection.
#[derive(Clone, Copy, PartialEq, Eq)]
enum State {
    /// Nothing, until it is heard.
    AtRest,
    /// It has something, or room for its replies.
    Ready,
    /// It has ended, and no poll said so yet.
    Over,
}

/// The connection of a client, and those of its replies that it is still to take.
///
/// Only once all replies to a piece were taken is the next one read. So what is unsent comes of one piece, and no more of it
/// is kept than the bound.
#[derive(Drop)]
pub(crate) struct Stream {
    pub(crate) client: u64,
    link: Link,
    unsent: Unsent,
    // when it was taken, or something came of it or was taken by it
    heard: u64,
    state: State,
    // whether calls on the socket wait, for a moment
    waits: bool,
    ghost bounded: { length unsent ≤ 262144 },
    ghost its: { link.peer ≡ Client client },
}

/// What a read brought. A reset is an end like another.
fn polled_of(client: u64, read: io::Result<usize>, room: usize) -> Polled
    requires { IfOk read (λ n. n ≤ room) }
    ensures within { IsWithin result room }
    ensures its { IsOnlyOf client result }
    ensures read { IsOfRead read result }
{
    match read {
        Ok(0) => Polled::StreamEnd { client },
        Ok(len) => Polled::Stream { client, len },
        Err(error) if error.kind() == ErrorKind::WouldBlock => Polled::Nothing,
        Err(_) => Polled::StreamEnd { client },
    }
}

impl Stream {
    ghost use Rattle.system_io.specs.Waits.{IsAskedOf, Looked, IsIdle};

    /// Calls on the socket don't wait, and each reply is sent at once.
    pub(crate) fn new(alloc: Global, client: u64, socket: TcpStream, now: u64) -> io::Result<Stream>
        ensures { IfOk result (λ stream. stream.client ≡ client) }
    {
        socket.set_nonblocking(true)?;
        socket.set_nodelay(true)?;
        Ok(Stream {
            client,
            link: Link {
                peer: Peer::Client(client),
                socket,
            },
            unsent: Unsent::new(alloc),
            heard: now,
            state: State::AtRest,
            waits: false,
        })
    }

    /// Whether a poll has nothing to do with it.
    pub(crate) fn is_at_rest(&self) -> bool
        ensures { IsTrue result ↔ (self.now.state ≡ State.AtRest) }
    {
        self.state == State::AtRest
    }

    /// Whether nothing of it waits: what came was read and answered, but for a part of a message or nothing, and all replies were taken.
    pub(crate) fn is_idle(&self) -> bool
        ensures { IsTrue result ↔ IsIdle self.now }
    {
        self.is_at_rest() && !self.is_behind()
    }

    /// When it was taken, or something came of it or was taken by it.
    pub(crate) fn heard(&self) -> u64
        ensures { result ≡ self.now.heard }
    {
        self.heard
    }

    /// Whether the client is to take replies before it is read again.
    fn is_behind(&self) -> bool
        ensures { IsTrue result ↔ (0 < length self.now.unsent) }
    {
        !self.unsent.is_empty()
    }

    /// When it ends, if nothing comes.
    pub(crate) fn due(&self) -> u64
        ensures { result ≤ self.now.heard + 10000000 }
    {
        self.heard.saturating_add(SILENCE)
    }

    /// What a wait is to look at: room for its replies, or bytes of the client.
    pub(crate) fn asked(&self) -> pollfd
        ensures { IsAskedOf self.now result }
    {
        pollfd {
            fd: self.link.socket.as_raw_fd(),
            events: if self.is_behind() { POLLOUT } else { POLLIN },
            revents: 0,
        }
    }

    /// Notes what a wait has found in its place.
    pub(crate) fn look(&mut self, place: &pollfd, now: u64)
        ensures { Looked self.old self.new place.now now }
    {
        if self.state == State::Over {
            return;
        }
        if place.revents != 0 {
            self.state = State::Ready;
        } else if now >= self.due() {
            self.state = State::Over;
        }
    }

    /// Lets the next read wait for a moment, where a read is next. Whether it does.
    pub(crate) fn let_wait(&mut self) -> bool
        ensures { self.new.client ≡ self.old.client }
    {
        if self.state != State::AtRest || self.is_behind() {
            return false;
        }
        self.waits = self.waits || self.set_waiting().is_ok();
        self.waits
    }

    /// A send has to take what it can within a moment, too.
    fn set_waiting(&self) -> io::Result<()> {
        let socket = &self.link.socket;
        socket.set_read_timeout(Some(Duration::from_micros(LOOK)))?;
        socket.set_write_timeout(Some(Duration::from_micros(MILLISECOND)))?;
        socket.set_nonblocking(false)
    }

    /// Reads the next piece. Nothing is read at the end.
    fn read<N: Net>(&mut self, net: &mut N, buffer: &mut [u8], now: u64) -> io::Result<usize>
        ensures client { self.new.client ≡ self.old.client }
        ensures count { IfOk result (λ n. n ≤ length buffer.new) }
        ensures bytes { Reads (N.told net.old) (N.told net.new) self.old.link.peer buffer.new result }
        ensures room { length buffer.new ≡ length buffer.old }
    {
        let most = buffer.len().min(PIECE);
        let count = read_link(net, &mut self.link, &mut buffer[..most])?;
        self.heard = now;
        Ok(count)
    }

    /// Sends on what is unsent, without a wait from when on something is left. Whether some of it was taken.
    fn send_on<N: Net>(&mut self, net: &mut N) -> bool
        ensures client { self.new.client ≡ self.old.client }
        ensures moved { Moves (N.told net.old) (N.told net.new) self.old.link.peer self.old.unsent self.new.unsent }
    {
        let before = self.unsent.len();
        if self.unsent.send_on(net, &mut self.link).is_err() {
            self.state = State::Over;
        }
        if self.waits && self.is_behind() {
            self.waits = self.link.socket.set_nonblocking(true).is_err();
        }
        self.unsent.len() < before
    }

    /// Keeps a reply to be sent. Whether there was room for it.
    fn keep(&mut self, bytes: &[u8]) -> bool
        ensures client { self.new.client ≡ self.old.client }
        ensures kept { MatchBool result (self.new.unsent ≡ self.old.unsent ++ bytes.now) (self.new.unsent ≡ self.old.unsent) }
    {
        let room = MOST_UNSENT - self.unsent.len();
        bytes.len() <= room && self.unsent.extend(bytes).is_ok()
    }

    /// Sends a reply, or keeps what of it isn't taken at once. Where neither can be done the connection is over: no reply is
    /// left out in between.
    #[tactic(auto, using(crate::proofs::NetLemmas::Moves_nothing, crate::proofs::NetLemmas::Sends_nothing, crate::proofs::NetLemmas::Sends_moves))]
    pub(crate) fn reply<N: Net>(&mut self, net: &mut N, bytes: &[u8])
        ensures client { self.new.client ≡ self.old.client }
        ensures over { self.old.state ≡ State.Over → self.new ≡ self.old }
        ensures kept { IsKept (N.told net.old) (N.told net.new) self.old.link.peer self.old.unsent self.new.unsent self.new.state bytes.now }
        ensures sends { SendsOn (N.told net.old) (N.told net.new) self.old.link.peer }
    {
        if self.state == State::Over {
            return;
        }
        let was_behind = self.is_behind();
        if !self.keep(bytes) {
            self.state = State::Over;
        } else if !was_behind {
            self.send_on(net);
        }
    }

    /// The next piece, or the end, where one is there; or it sends on.
    #[tactic(auto, using(crate::proofs::NetLemmas::Hears_nothing, crate::proofs::NetLemmas::Hears_moves))]
    pub(crate) fn poll<N: Net>(&mut self, net: &mut N, buffer: &mut [u8], now: u64) -> Polled
        ensures client { self.new.client ≡ self.old.client }
        ensures its { IsOnlyOf self.old.client result }
        ensures told { HandsOn (N.told net.old) (N.told net.new) buffer.new result }
        ensures over { self.old.state ≡ State.Over → result ≡ Polled.StreamEnd self.old.client }
        ensures within { IsWithin result (length buffer.new) }
        ensures room { length buffer.new ≡ length buffer.old }
    {
        let client = self.client;
        if self.state == State::Over {
            return Polled::StreamEnd { client };
        }
        self.state = State::AtRest;
        if self.is_behind() {
            if self.send_on(net) {
                self.heard = now;
            }
            return Polled::Nothing;
        }
        let read = self.read(net, buffer, now);
        polled_of(client, read, buffer.len())
    }
}
