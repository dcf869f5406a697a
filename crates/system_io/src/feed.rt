//! The one place of the feed, and who holds it.

ghost use Rattle.std.specs.Prelude.{◌≡◌, ◌≤◌, ◌⊎◌, length, IfOk};
ghost use Rattle.system_io.specs.Arrival.{IsOfFeed, IsWithin};
ghost use Rattle.system_io.specs.Loopback.{loopback_bytes, Asks};
ghost use Rattle.system_io.specs.FeedReplies.{IsShut, SendsReply};
ghost use Rattle.system_io.specs.Net.{Fetches, HandsOnOk, SendsOn};

use crate::clock::SECOND;
use crate::door::{Door, NOTHING_ASKED};
use crate::feed_link::FeedLink;
use crate::link::Peer;
use crate::net::Net;
use crate::people::People;
use byte_io::Polled;
use libc::types::pollfd;
use std::alloc::Global;
use std::io::{self, ErrorKind};
use std::mem;

/// How long a connection that is let go has for taking its last replies.
const LEAVE: u64 = 5 * SECOND;

/// How long one has that was silent, and has none to take.
const LEAVE_IN_SILENCE: u64 = SECOND / 2;

/// The one place of a feed.
#[derive(Drop)]
enum Place {
    Free,
    Open(FeedLink),
    /// Its connection has ended, and no poll said so yet. Where a reply couldn't be kept, those before it are still to be sent.
    Ended(Option<FeedLink>),
    /// Its connection was let go, and takes its last replies, until then.
    Leaving(FeedLink, u64),
}

/// The feed's side of a port: one connection at a time. One more may wait for the place, and others in the listener's queue.
#[derive(Drop)]
pub(crate) struct Feed<'a> {
    alloc: Global,
    door: Door<'a>,
    place: Place,
    waiting: Option<FeedLink>,
}

impl<'a> Feed<'a> {
    pub(crate) fn bind<N: Net>(
        net: &mut N,
        rt: &'a HostRuntime,
        people: &'a People<'a>,
        number: u16,
    ) -> io::Result<Feed<'a>>
        ensures { Asks (N.told net.old) (N.told net.new) (loopback_bytes number) }
    {
        Ok(Feed {
            alloc: rt.alloc(),
            door: Door::bind(net, rt, people, number)?,
            place: Place::Free,
            waiting: None,
        })
    }

    /// What a wait for the feed is to look at: connections, and that which has the place.
    pub(crate) fn asked(&self, now: u64) -> [pollfd; 2] {
        let door = match &self.waiting {
            Some(_) => NOTHING_ASKED,
            None => self.door.asked(now),
        };
        let link = match &self.place {
            Place::Open(link) => link.asked(),
            Place::Leaving(link, _) => link.asked_at_last(),
            Place::Free | Place::Ended(_) => NOTHING_ASKED,
        };
        [door, link]
    }

    /// When there is something to do, whatever comes.
    pub(crate) fn due(&self, now: u64) -> u64 {
        match (&self.place, &self.waiting) {
            (Place::Ended(_), _) | (Place::Free, Some(_)) => now,
            (Place::Leaving(_, until), Some(_)) => *until,
            (Place::Leaving(_, until), None) => self.door.due(now).min(*until),
            (Place::Open(link), Some(_)) => link.yields_at(),
            (Place::Open(_) | Place::Free, None) => self.door.due(now),
        }
    }

    /// Whether a connection that was let go takes its last replies.
    pub(crate) fn is_leaving(&self) -> bool {
        matches!(self.place, Place::Leaving(_, _))
    }

    /// Goes on with letting a connection go.
    pub(crate) fn let_leave<N: Net>(&mut self, net: &mut N, now: u64)
        ensures { SendsOn (N.told net.old) (N.told net.new) Peer.Feed }
    {
        if self.has_left(net, now) {
            self.put(Place::Free);
        }
    }

    // What held the place before is let go of here alone: that is dear to prove.
    fn put(&mut self, place: Place)
        ensures { self.new.place ≡ place }
    {
        self.place = place;
    }

    /// Goes on with it, and says whether it has left, or its time is over.
    #[tactic(auto, using(crate::proofs::NetLemmas::Sends_nothing))]
    fn has_left<N: Net>(&mut self, net: &mut N, now: u64) -> bool
        ensures { SendsOn (N.told net.old) (N.told net.new) Peer.Feed }
    {
        match &mut self.place {
            Place::Leaving(link, until) => {
                let has_left = link.leave(net);
                has_left || now >= *until
            }
            _ => false,
        }
    }

    /// Lets the connection go, if there is one.
    pub(crate) fn close<N: Net>(&mut self, net: &mut N, now: u64)
        ensures { SendsOn (N.told net.old) (N.told net.new) Peer.Feed }
    {
        self.close_until(net, now, now.saturating_add(LEAVE));
    }

    /// Lets the connection go, if there is one. Its last replies are sent until then.
    fn close_until<N: Net>(&mut self, net: &mut N, now: u64, until: u64)
        ensures { SendsOn (N.told net.old) (N.told net.new) Peer.Feed }
    {
        let place = match mem::replace(&mut self.place, Place::Free) {
            Place::Open(link) | Place::Ended(Some(link)) => Place::Leaving(link, until),
            Place::Ended(None) => Place::Free,
            other => other,
        };
        self.put(place);
        self.let_leave(net, now);
    }

    /// Gives the place, where it is free, to the connection that waits, and lets the next one wait.
    fn receive(&mut self, now: u64) -> io::Result<()> {
        if self.waiting.is_none() {
            self.waiting = self.next(now)?;
        }
        if matches!(self.place, Place::Free) {
            self.seat();
        }
        Ok(())
    }

    /// The next connection that the door lets in.
    fn next(&mut self, now: u64) -> io::Result<Option<FeedLink>> {
        match self.door.next(now)? {
            None => Ok(None),
            Some(guest) => Ok(Some(FeedLink::new(self.alloc, guest, now)?)),
        }
    }

    /// Gives the place to the connection that waits, if one does.
    fn seat(&mut self) {
        if let Some(link) = self.waiting.take() {
            self.put(Place::Open(link));
        }
    }

    /// Reads the next piece of the connection that has the place. At 0 it has ended.
    #[tactic(auto, using(crate::proofs::NetLemmas::Fetches_failed, crate::proofs::NetLemmas::Hears_nothing))]
    fn read<N: Net>(&mut self, net: &mut N, buffer: &mut [u8], now: u64) -> io::Result<usize>
        ensures told { Fetches (N.told net.old) (N.told net.new) buffer.new result }
        ensures count { IfOk result (λ n. n ≤ length buffer.new) }
        ensures room { length buffer.new ≡ length buffer.old }
    {
        match &mut self.place {
            Place::Open(link) => link.read(net, buffer, now),
            Place::Ended(_) => Ok(0),
            Place::Free | Place::Leaving(_, _) => Err(ErrorKind::WouldBlock.into()),
        }
    }

    /// Frees the place of a connection whose end was read, or whose last replies are still to be sent.
    #[tactic(auto, using(crate::proofs::NetLemmas::Sends_nothing))]
    fn end<N: Net>(&mut self, net: &mut N, now: u64) -> Polled
        ensures end { result ≡ Polled.FeedEnd }
        ensures sends { SendsOn (N.told net.old) (N.told net.new) Peer.Feed }
    {
        if let Place::Ended(Some(_)) = &self.place {
            self.close(net, now);
            return Polled::FeedEnd;
        }
        self.put(Place::Free);
        Polled::FeedEnd
    }

    /// What comes of a read that failed: nothing, where there is nothing to be read yet and the connection keeps its place.
    #[tactic(auto, using(crate::proofs::NetLemmas::Sends_nothing))]
    fn end_unless_waiting<N: Net>(&mut self, net: &mut N, now: u64, error: io::Error) -> Polled
        ensures end { (result ≡ Polled.FeedEnd) ⊎ (result ≡ Polled.Nothing) }
        ensures sends { SendsOn (N.told net.old) (N.told net.new) Peer.Feed }
    {
        if error.kind() != ErrorKind::WouldBlock {
            self.put(Place::Free);
            return Polled::FeedEnd;
        }
        if self.make_room(net, now) {
            Polled::FeedEnd
        } else {
            Polled::Nothing
        }
    }

    /// Lets a silent connection give the place to the one that waits, if there are such. Whether it does.
    #[tactic(auto, using(crate::proofs::NetLemmas::Sends_nothing))]
    fn make_room<N: Net>(&mut self, net: &mut N, now: u64) -> bool
        ensures { SendsOn (N.told net.old) (N.told net.new) Peer.Feed }
    {
        let leave = match &self.place {
            Place::Open(link) if self.waiting.is_some() && now >= link.yields_at() => {
                if link.is_behind() {
                    LEAVE
                } else {
                    LEAVE_IN_SILENCE
                }
            }
            _ => return false,
        };
        self.close_until(net, now, now.saturating_add(leave));
        true
    }

    /// What a read brought.
    #[tactic(auto, using(crate::proofs::NetLemmas::Sends_nothing))]
    fn polled_of<N: Net>(&mut self, net: &mut N, now: u64, read: io::Result<usize>) -> Polled
        ensures read { IsOfFeed read result }
        ensures sends { SendsOn (N.told net.old) (N.told net.new) Peer.Feed }
    {
        match read {
            Ok(0) => self.end(net, now),
            Ok(len) => Polled::Feed { len },
            Err(error) => self.end_unless_waiting(net, now, error),
        }
    }

    /// The next piece of the feed, or its end, where one is there.
    #[tactic(auto, using(crate::proofs::NetLemmas::Hears_sends, crate::proofs::NetLemmas::Feed_hears, crate::proofs::NetLemmas::Feed_within))]
    pub(crate) fn poll<N: Net>(
        &mut self,
        net: &mut N,
        buffer: &mut [u8],
        now: u64,
    ) -> io::Result<Polled>
        ensures told { HandsOnOk (N.told net.old) (N.told net.new) buffer.new result }
        ensures within { IfOk result (λ polled. IsWithin polled (length buffer.new)) }
        ensures room { length buffer.new ≡ length buffer.old }
    {
        self.let_leave(net, now);
        self.receive(now)?;
        let read = self.read(net, buffer, now);
        Ok(self.polled_of(net, now, read))
    }

    /// Sends a reply, or keeps it to be sent. Where neither can be done, the connection has ended: no reply is left out in
    /// between.
    #[tactic(auto, using(crate::proofs::NetLemmas::Sends_nothing))]
    pub(crate) fn send<N: Net>(&mut self, net: &mut N, bytes: &[u8]) -> io::Result<()>
        ensures reply { SendsReply (N.told net.old) (N.told net.new) self.old.place self.new.place result bytes.now }
        ensures sends { SendsOn (N.told net.old) (N.told net.new) Peer.Feed }
    {
        let answer = match &mut self.place {
            Place::Open(link) => link.send(net, bytes),
            _ => return Err(ErrorKind::NotConnected.into()),
        };
        if let Err(error) = &answer {
            self.fail(error.kind() == ErrorKind::OutOfMemory);
        }
        answer
    }

    /// Ends the connection. Where a reply couldn't be kept for want of memory, those before it are still to be sent.
    fn fail(&mut self, wants_memory: bool)
        ensures { IsShut self.new.place }
    {
        match mem::replace(&mut self.place, Place::Ended(None)) {
            Place::Open(link) if wants_memory => self.put(Place::Ended(Some(link))),
            other => drop(other),
        }
    }
}
