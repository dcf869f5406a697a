//! The connections of all clients.

ghost use Rattle.std.specs.Prelude.{◌≡◌, ◌⊎◌, ◌+◌, ◌<◌, ◌≤◌, length, remove, None, Some, IsTrue, IsFalse, IfSome, slice_get};
ghost use Rattle.system_io.specs.declared.stream.Stream.{Stream};
ghost use Rattle.system_io.specs.Arrival.{IsWithin};
ghost use Rattle.system_io.specs.Loopback.{loopback_bytes, Asks};
ghost use Rattle.system_io.specs.Net.{HandsOn, SendsOn};
ghost use Rattle.system_io.specs.Streams.{
  clients_of,
  IsOf,
  HasNone,
  KeepsOthers,
  AreUpTo,
  AreApart,
  GivesAnew,
  GivesReply,
  LetsGo,
};
ghost use Rattle.system_io.specs.Waits.{
  AsksEach,
  LooksAtEach,
  NoneIdle,
  FindsIdle,
  AreAllBusy,
  MakesWay,
};
ghost use Rattle.dns_tcp.specs.declared.streams.TheConstants.{CLIENTS};

use crate::cause::Cause;
use crate::clock::{NEVER, SECOND};
use crate::door::NOTHING_ASKED;
use crate::link::Peer;
use crate::loopback::bind_listener;
use crate::net::Net;
use crate::notices::Notices;
use crate::people::People;
use crate::stream::Stream;
use byte_io::Polled;
use dns_tcp::CLIENTS;
use libc::net::POLLIN;
use libc::types::pollfd;
use std::alloc::Global;
use std::io::{self, ErrorKind};
use std::net::{TcpListener, TcpStream};
use std::os::fd::AsRawFd;

/// How long nobody is taken behind a connection that couldn't be.
const REST: u64 = SECOND;

/// The listener for connections of clients, and these connections: as many at most as are served at a time. Where all places are held
/// and one more comes, the one that was silent longest gives way, of those that wait for nothing (RFC 7766, 6.2.3): their queries were
/// answered, and their replies taken. Where none of them does it waits in the listener's queue.
///
/// Each has at most what may be unsent, and one of the longest replies more that a send has begun with, in a buffer that may have
/// grown to twice that: less than 11 MB in all.
#[derive(Drop)]
pub(crate) struct Streams<'a> {
    alloc: Global,
    notices: Notices<'a>,
    listener: TcpListener,
    streams: Vec<Stream>,
    // the client whose connection was taken last: each has a number that none had before
    last: u64,
    // whether a wait has found a newcomer
    is_called: bool,
    // nobody is taken before
    rests_until: u64,
    ghost up_to: { AreUpTo (clients_of streams.items) last },
    ghost apart: { AreApart (clients_of streams.items) },
    ghost few: { length (clients_of streams.items) ≤ CLIENTS },
}

/// What a wait is to look at for each connection, in its place.
fn ask_each(streams: &[Stream], places: &mut [pollfd])
    ensures { AsksEach streams.now places.new }
{
    for at in 0..streams.len().min(places.len()) {
        places[at] = streams[at].asked();
    }
}

/// Notes what a wait has found of each connection, in its place.
fn look_at_each(streams: &mut Vec<Stream>, places: &[pollfd], now: u64)
    ensures clients { clients_of streams.new.items ≡ clients_of streams.old.items }
    ensures looks { LooksAtEach streams.old.items streams.new.items places.now now }
{
    for at in 0..streams.len().min(places.len()) {
        streams[at].look(&places[at], now);
    }
}

/// Of the one that was found before this place and the one in it: who is idle, and was silent for longer.
fn silent_longer(streams: &[Stream], found: Option<usize>, at: usize) -> Option<usize>
    requires within { at < length streams.now }
    requires found { FindsIdle streams.now at found }
    ensures { FindsIdle streams.now (at + 1) result }
{
    if !streams[at].is_idle() {
        return found;
    }
    let Some(before) = found else {
        return Some(at);
    };
    if streams[before].heard() <= streams[at].heard() {
        found
    } else {
        Some(at)
    }
}

/// Where the connection stands that was silent longest, of those that are idle.
fn silent_longest(streams: &[Stream]) -> Option<usize>
    ensures { FindsIdle streams.now (length streams.now) result }
{
    let mut found = None;
    for at in 0..streams.len() {
        found = silent_longer(streams, found, at);
    }
    found
}

impl<'a> Streams<'a> {
    pub(crate) fn bind<N: Net>(
        net: &mut N,
        rt: &HostRuntime,
        people: &'a People<'a>,
        number: u16,
    ) -> io::Result<Streams<'a>>
        ensures { Asks (N.told net.old) (N.told net.new) (loopback_bytes number) }
    {
        let listener = bind_listener(net, number)?;
        Ok(Streams {
            alloc: rt.alloc(),
            notices: Notices::new(people),
            listener,
            streams: Vec::new(rt.alloc()),
            last: 0,
            is_called: false,
            rests_until: 0,
        })
    }

    /// How many connections there are.
    pub(crate) fn count(&self) -> usize
        ensures value { result ≡ length self.now.streams.items }
        ensures few { result ≤ CLIENTS }
    {
        self.streams.len()
    }

    /// Whether a newcomer gets a place: one that is free, or somebody's.
    fn has_way(&self) -> bool
        ensures { IsTrue result ⊎ AreAllBusy self.now.streams.items }
    {
        self.streams.len() < CLIENTS || silent_longest(&self.streams).is_some()
    }

    /// What a wait is to look at for newcomers.
    pub(crate) fn asked(&self, now: u64) -> pollfd
        ensures { (result.events ≡ POLLIN) ⊎ ((now < self.now.rests_until) ⊎ AreAllBusy self.now.streams.items) }
    {
        if now < self.rests_until || !self.has_way() {
            return NOTHING_ASKED;
        }
        pollfd {
            fd: self.listener.as_raw_fd(),
            events: POLLIN,
            revents: 0,
        }
    }

    /// What it is to look at for the connections, each in its place.
    pub(crate) fn ask(&self, places: &mut [pollfd])
        ensures { AsksEach self.now.streams.items places.new }
    {
        ask_each(&self.streams, places);
    }

    /// When there is something to do, whatever comes.
    pub(crate) fn due(&self, now: u64) -> u64 {
        let mut due = if now < self.rests_until {
            self.rests_until
        } else {
            NEVER
        };
        for stream in &self.streams {
            due = due.min(stream.due());
        }
        due
    }

    /// Notes what a wait has found: whether there is a newcomer, and what there is of each connection.
    pub(crate) fn look(&mut self, is_called: bool, places: &[pollfd], now: u64)
        ensures anew { GivesAnew self.old.last self.new.last (clients_of self.old.streams.items) (clients_of self.new.streams.items) }
        ensures looks { LooksAtEach self.old.streams.items self.new.streams.items places.now now }
    {
        self.is_called = is_called;
        look_at_each(&mut self.streams, places, now);
    }

    /// Whether a poll has something to do.
    pub(crate) fn are_ready(&self) -> bool {
        self.is_called || self.streams.iter().any(|stream| !stream.is_at_rest())
    }

    /// Where the connection of this client stands, if it is there.
    fn place_of(&self, client: u64) -> Option<usize>
        ensures within { IfSome result (λ at. at < length self.now.streams.items) }
        ensures its { IfSome result (λ at. IsOf self.now.streams.items client at) }
        ensures none { result ≡ None → HasNone self.now.streams.items client }
    {
        self.streams
            .iter()
            .position(|stream| stream.client == client)
    }

    /// Sends a reply to this client, or keeps it to be sent. Where its connection isn't there any more nothing is sent.
    pub(crate) fn reply<N: Net>(&mut self, net: &mut N, client: u64, bytes: &[u8])
        ensures others { KeepsOthers self.old.streams.items self.new.streams.items client }
        ensures reply { GivesReply (N.told net.old) (N.told net.new) self.old.streams.items self.new.streams.items client bytes.now }
        ensures sends { SendsOn (N.told net.old) (N.told net.new) (Peer.Client client) }
        ensures anew { GivesAnew self.old.last self.new.last (clients_of self.old.streams.items) (clients_of self.new.streams.items) }
    {
        if let Some(at) = self.place_of(client) {
            self.streams[at].reply(net, bytes);
        }
    }

    /// Closes the connection of this client, if it is there.
    pub(crate) fn close(&mut self, client: u64)
        ensures gone { HasNone self.new.streams.items client }
        ensures anew { GivesAnew self.old.last self.new.last (clients_of self.old.streams.items) (clients_of self.new.streams.items) }
    {
        if let Some(at) = self.place_of(client) {
            self.let_go(at);
        }
    }

    /// Closes the connection in this place.
    fn let_go(&mut self, at: usize)
        requires { at < length self.old.streams.items }
        ensures gone { (stream : Stream) → slice_get self.old.streams.items at ≡ Some stream → HasNone self.new.streams.items stream.client }
        ensures others { self.new.streams.items ≡ remove self.old.streams.items at }
        ensures anew { GivesAnew self.old.last self.new.last (clients_of self.old.streams.items) (clients_of self.new.streams.items) }
    {
        self.streams.remove(at);
    }

    /// Closes all connections.
    pub(crate) fn close_all(&mut self) {
        self.streams.clear();
    }

    /// Takes a newcomer among the connections. One that has left already isn't taken.
    fn take_in(&mut self, socket: TcpStream, now: u64)
        requires { length self.old.streams.items < CLIENTS }
        ensures { GivesAnew self.old.last self.new.last (clients_of self.old.streams.items) (clients_of self.new.streams.items) }
    {
        let Some(client) = self.last.checked_add(1) else {
            return;
        };
        if let Ok(stream) = Stream::new(self.alloc, client, socket, now) {
            if self.streams.push(stream).is_ok() {
                self.last = client;
            }
        }
    }

    /// Takes the connection that waits first, if one does.
    fn accept(&mut self, now: u64)
        requires { length self.old.streams.items < CLIENTS }
        ensures { GivesAnew self.old.last self.new.last (clients_of self.old.streams.items) (clients_of self.new.streams.items) }
    {
        self.is_called = false;
        match self.listener.accept() {
            Ok((socket, _)) => self.take_in(socket, now),
            Err(error) => match error.kind() {
                ErrorKind::WouldBlock | ErrorKind::ConnectionAborted => {}
                _ => {
                    self.rests_until = now.saturating_add(REST);
                    let cause = Cause::Failed {
                        thing: "queries over TCP",
                        call: "accept",
                        error,
                    };
                    self.notices.tell(now, cause);
                }
            },
        }
    }

    /// What there is of the connection in this place. One that has ended gives its place back.
    fn poll_at<N: Net>(&mut self, net: &mut N, at: usize, buffer: &mut [u8], now: u64) -> Polled
        requires { at < length self.old.streams.items }
        ensures told { HandsOn (N.told net.old) (N.told net.new) buffer.new result }
        ensures within { IsWithin result (length buffer.new) }
        ensures room { length buffer.new ≡ length buffer.old }
        ensures ends { LetsGo self.new.streams.items result }
        ensures anew { GivesAnew self.old.last self.new.last (clients_of self.old.streams.items) (clients_of self.new.streams.items) }
    {
        let polled = self.streams[at].poll(net, buffer, now);
        if let Polled::StreamEnd { .. } = polled {
            self.let_go(at);
        }
        polled
    }

    /// Takes the newcomer that waits. Where all places are held the connection that was silent longest gives way first, of those that
    /// are idle; where none is, nobody is taken.
    fn receive(&mut self, now: u64) -> Polled
        ensures way { MakesWay self.old.streams.items self.new.streams.items result }
        ensures ends { LetsGo self.new.streams.items result }
        ensures anew { GivesAnew self.old.last self.new.last (clients_of self.old.streams.items) (clients_of self.new.streams.items) }
    {
        if self.streams.len() < CLIENTS {
            self.accept(now);
            return Polled::Nothing;
        }
        let Some(at) = silent_longest(&self.streams) else {
            self.is_called = false;
            return Polled::Nothing;
        };
        let client = self.streams[at].client;
        self.let_go(at);
        Polled::StreamEnd { client }
    }

    /// Takes a newcomer, or what there is of one connection that something was found of.
    #[tactic(auto, using(crate::proofs::NetLemmas::Hears_nothing, crate::proofs::StreamsLemmas::Hears_way))]
    pub(crate) fn poll<N: Net>(&mut self, net: &mut N, buffer: &mut [u8], now: u64) -> Polled
        ensures told { HandsOn (N.told net.old) (N.told net.new) buffer.new result }
        ensures way { IsTrue self.old.is_called → MakesWay self.old.streams.items self.new.streams.items result }
        ensures within { IsWithin result (length buffer.new) }
        ensures room { length buffer.new ≡ length buffer.old }
        ensures ends { LetsGo self.new.streams.items result }
        ensures anew { GivesAnew self.old.last self.new.last (clients_of self.old.streams.items) (clients_of self.new.streams.items) }
    {
        if self.is_called {
            return self.receive(now);
        }
        match self.streams.iter().position(|stream| !stream.is_at_rest()) {
            Some(at) => self.poll_at(net, at, buffer, now),
            None => Polled::Nothing,
        }
    }

    /// Waits for a moment for this client's next piece.
    #[tactic(auto, using(crate::proofs::NetLemmas::Hears_nothing))]
    pub(crate) fn wait_for<N: Net>(
        &mut self,
        net: &mut N,
        client: u64,
        buffer: &mut [u8],
        now: u64,
    ) -> Polled
        ensures told { HandsOn (N.told net.old) (N.told net.new) buffer.new result }
        ensures within { IsWithin result (length buffer.new) }
        ensures room { length buffer.new ≡ length buffer.old }
        ensures ends { LetsGo self.new.streams.items result }
        ensures anew { GivesAnew self.old.last self.new.last (clients_of self.old.streams.items) (clients_of self.new.streams.items) }
    {
        match self.place_of(client) {
            Some(at) if self.streams[at].let_wait() => self.poll_at(net, at, buffer, now),
            _ => Polled::Nothing,
        }
    }
}
