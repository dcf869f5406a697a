//! The connection of the feed.

ghost use Rattle.std.specs.Prelude.{◌≡◌, ◌≤◌, ◌↔◌, ◌<◌, ◌++◌, [], take, length, IsTrue, IfOk, OnOk};
ghost use Rattle.system_io.specs.FrameEnd.{GoesOn, Stands};
ghost use Rattle.system_io.specs.Net.{Adds, Fetches, Moves, Reads, SendsOn};
ghost use Rattle.system_io.specs.declared.link.Peer.TheVariants.{Feed};

use crate::clock::SECOND;
use crate::frame_end::FrameEnd;
use crate::link::{Link, Peer};
use crate::net::Net;
use crate::newcomer::Guest;
use crate::reading::read_link;
use crate::unsent::Unsent;
use libc::net::{POLLIN, POLLOUT};
use libc::types::pollfd;
use std::alloc::Global;
use std::io::{self, ErrorKind};
use std::net::Shutdown;
use std::os::fd::AsRawFd;

/// How many reads a connection that leaves gets at once: what the peer sent and nobody read any more is let go so.
const LAST_READS: u8 = 16;

/// A connection that has sent nothing for so long gives its place to one that waits.
const SILENCE: u64 = 10 * SECOND;

/// The connection of a feed, and those of its replies that it is still to take.
#[derive(Drop)]
pub(crate) struct FeedLink {
    link: Link,
    unsent: Unsent,
    frame: FrameEnd,
    // when it was taken, or something came of it
    heard: u64,
    // whether the peer was told that no more comes, and told that itself
    is_shut: bool,
    has_ended: bool,
    ghost feeds: { link.peer ≡ Feed },
}

impl FeedLink {
    /// Calls on the stream don't wait. None but one that the door let in is a feed's.
    pub(crate) fn new(alloc: Global, guest: Guest, now: u64) -> io::Result<FeedLink>
        ensures { IfOk result (λ link. Stands link.frame []) }
    {
        let socket = guest.into_stream();
        socket.set_nodelay(true)?;
        Ok(FeedLink {
            link: Link {
                peer: Peer::Feed,
                socket,
            },
            unsent: Unsent::new(alloc),
            frame: FrameEnd::new(),
            heard: now,
            is_shut: false,
            has_ended: false,
        })
    }

    /// What a wait is to look at: room for its replies, or bytes of the feed.
    pub(crate) fn asked(&self) -> pollfd {
        pollfd {
            fd: self.link.socket.as_raw_fd(),
            events: if self.is_behind() { POLLOUT } else { POLLIN },
            revents: 0,
        }
    }

    /// What a wait is to look at while it leaves.
    pub(crate) fn asked_at_last(&self) -> pollfd {
        let reads = if self.has_ended { 0 } else { POLLIN };
        let writes = if self.is_behind() { POLLOUT } else { 0 };
        pollfd {
            fd: self.link.socket.as_raw_fd(),
            events: reads | writes,
            revents: 0,
        }
    }

    /// Whether the peer is to take replies before it is read again.
    pub(crate) fn is_behind(&self) -> bool
        ensures { IsTrue result ↔ (0 < length self.now.unsent) }
    {
        !self.unsent.is_empty()
    }

    /// From when on it gives its place to one that waits.
    pub(crate) fn yields_at(&self) -> u64 {
        self.heard.saturating_add(SILENCE)
    }

    /// Reads the next piece, but only once the replies to the one before were taken: so the replies that wait are those to
    /// one piece at most. No piece has bytes of two frames. Nothing is read at the end of the feed.
    #[tactic(auto, using(crate::proofs::NetLemmas::Fetches_moved, crate::proofs::NetLemmas::Fetches_behind))]
    pub(crate) fn read<N: Net>(
        &mut self,
        net: &mut N,
        buffer: &mut [u8],
        now: u64,
    ) -> io::Result<usize>
        ensures told { Fetches (N.told net.old) (N.told net.new) buffer.new result }
        ensures count { IfOk result (λ n. n ≤ length buffer.new) }
        ensures room { length buffer.new ≡ length buffer.old }
        ensures frame { IfOk result (λ n. GoesOn self.old.frame (take n buffer.new) self.new.frame) }
    {
        self.unsent.send_on(net, &mut self.link)?;
        if self.is_behind() {
            return Err(ErrorKind::WouldBlock.into());
        }
        self.read_piece(net, buffer, now)
    }

    /// Reads the next piece, and no byte of the frame behind the one that has begun.
    fn read_piece<N: Net>(&mut self, net: &mut N, buffer: &mut [u8], now: u64) -> io::Result<usize>
        ensures count { IfOk result (λ n. n ≤ length buffer.new) }
        ensures room { length buffer.new ≡ length buffer.old }
        ensures bytes { Reads (N.told net.old) (N.told net.new) self.old.link.peer buffer.new result }
        ensures frame { IfOk result (λ n. GoesOn self.old.frame (take n buffer.new) self.new.frame) }
    {
        let most = buffer.len().min(self.frame.left());
        let count = read_link(net, &mut self.link, &mut buffer[..most])?;
        self.frame = self.frame.after(&buffer[..count]);
        self.heard = now;
        Ok(count)
    }

    /// Sends a reply, or keeps what of it isn't taken at once.
    #[tactic(auto, using(crate::proofs::NetLemmas::Sends_nothing, crate::proofs::NetLemmas::Sends_feed))]
    pub(crate) fn send<N: Net>(&mut self, net: &mut N, bytes: &[u8]) -> io::Result<()>
        ensures moved { OnOk result (Moves (N.told net.old) (N.told net.new) self.old.link.peer (self.old.unsent ++ bytes.now) self.new.unsent) }
        ensures sends { SendsOn (N.told net.old) (N.told net.new) Peer.Feed }
    {
        if self.unsent.extend(bytes).is_err() {
            return Err(ErrorKind::OutOfMemory.into());
        }
        self.unsent.send_on(net, &mut self.link)
    }

    /// Sends on what is unsent, and then says that no more comes.
    #[tactic(auto, using(crate::proofs::NetLemmas::Sends_feed))]
    fn send_last<N: Net>(&mut self, net: &mut N) -> io::Result<()>
        ensures { SendsOn (N.told net.old) (N.told net.new) Peer.Feed }
    {
        self.unsent.send_on(net, &mut self.link)?;
        if !self.is_shut && !self.is_behind() {
            self.link.socket.shutdown(Shutdown::Write)?;
            self.is_shut = true;
        }
        Ok(())
    }

    /// Lets go of what the peer sends.
    #[tactic(auto, using(crate::proofs::NetLemmas::Adds_nothing, crate::proofs::NetLemmas::Adds_none))]
    fn drain<N: Net>(&mut self, net: &mut N) -> io::Result<()>
        ensures { Adds (N.told net.old) (N.told net.new) [] }
    {
        let mut unread = [0; 16_384];
        for _ in 0..LAST_READS {
            if !self.drain_once(net, &mut unread)? {
                break;
            }
        }
        Ok(())
    }

    /// Lets go of so much of it as one read takes, and says whether more may be there.
    fn drain_once<N: Net>(&mut self, net: &mut N, unread: &mut [u8]) -> io::Result<bool>
        ensures { Adds (N.told net.old) (N.told net.new) [] }
    {
        match net.discard(&mut self.link, unread) {
            Ok(0) => {
                self.has_ended = true;
                Ok(false)
            }
            Ok(_) => Ok(true),
            Err(error) if error.kind() == ErrorKind::WouldBlock => Ok(false),
            Err(error) if error.kind() == ErrorKind::Interrupted => Ok(true),
            Err(error) => Err(error),
        }
    }

    /// Goes on with leaving, and says whether it has left: its replies were sent, and the peer has taken note of their end. What
    /// the peer sends is let go meanwhile: where a connection is closed before all of that is read, the system cuts off the
    /// replies on their way. Whoever sends much before it reads takes its replies then, too.
    #[tactic(auto, using(crate::proofs::NetLemmas::Sends_none))]
    pub(crate) fn leave<N: Net>(&mut self, net: &mut N) -> bool
        ensures { SendsOn (N.told net.old) (N.told net.new) Peer.Feed }
    {
        if self.send_last(net).is_err() || self.drain(net).is_err() {
            return true;
        }
        self.is_shut && self.has_ended
    }
}
