//! Sockets as a port.

use crate::cause::Cause;
use crate::client::Client;
use crate::net::Net;
use crate::people::People;
use crate::sockets::Sockets;
use crate::system::System;
use crate::tally::Tally;
use byte_io::{Failed, Polled, Port, Sent};

/// The sockets, and the numbers that they are bound to.
#[derive(Drop)]
struct Bound<'a> {
    udp: u16,
    feed: u16,
    sockets: Sockets<'a>,
}

/// A UDP socket, a listener for clients' connections on the same number and one for the feed, on the loopback address, as a port.
/// It counts the calls that failed, tells people where it listens or why it can't, and tells contracts of what came and went what its
/// net tells.
///
/// Anybody on the machine may connect as a client. One that has sent nothing and taken no reply for ten seconds is closed, and so
/// is one that leaves too much of its replies; nothing of a client's connection is ever a failed call.
///
/// The feed takes connections of the program's own user and of root alone. One that has sent nothing for ten seconds gives its
/// place to one that waits.
#[derive(Drop)]
pub struct PortOf<'a, N> {
    net: N,
    rt: &'a HostRuntime,
    people: &'a People<'a>,
    bound: Option<Bound<'a>>,
    tally: Tally,
}

/// The system's sockets as a port.
pub type SocketPort<'a> = PortOf<'a, System<'a>>;

impl<'a> PortOf<'a, System<'a>> {
    /// No socket is opened yet.
    pub fn new(rt: &'a HostRuntime, people: &'a People<'a>) -> Self {
        PortOf::over(System::of(rt), rt, people)
    }

    /// Closes the clients' connections, and lets the feed's go: its peer gets the replies that it is still to take, within five seconds. Whether the port
    /// was bound at all.
    pub fn finish(&mut self) -> bool {
        match &mut self.bound {
            Some(bound) => {
                bound.sockets.finish(&mut self.net);
                true
            }
            None => false,
        }
    }
}

impl<'a, N: Net> PortOf<'a, N> {
    ghost use Rattle.std.specs.Prelude.{◌≡◌, None, length};
    ghost use Rattle.byte_io.specs.Port.{IsBound};
    ghost use Rattle.byte_io.specs.declared.port.TheConstants.{POLL_ROOM};
    ghost use Rattle.fault_counts.specs.Counts.{counted};
    ghost use Rattle.system_io.specs.Net.{Hears, handed};
    ghost use Rattle.system_io.specs.SocketPort.{IsBrought, numbers_of, port_seen};

    /// Over the sockets of this net, of which none is opened yet.
    pub fn over(net: N, rt: &'a HostRuntime, people: &'a People<'a>) -> Self
        ensures net { result.net ≡ net }
        ensures bound { numbers_of result.bound ≡ None }
    {
        PortOf {
            net,
            rt,
            people,
            bound: None,
            tally: Tally::new(),
        }
    }

    /// The net that it is over.
    pub fn net(&self) -> &N
        ensures { result.now ≡ self.now.net }
    {
        &self.net
    }

    /// What the sockets bring.
    #[tactic(auto, using(crate::proofs::PortLemmas::Brought_done, crate::proofs::PortLemmas::Handed_done, crate::proofs::PortLemmas::Handed_fault))]
    fn bring(&mut self, buf: &mut [u8]) -> Polled
        requires bound { IsBound (port_seen N.told self.old) }
        requires room { length buf.old ≡ POLL_ROOM }
        ensures told { Hears (N.told self.old.net) (N.told self.new.net) (handed result buf.new) }
        ensures brought { IsBrought (counted self.old.tally.faults) (counted self.new.tally.faults) (length buf.new) result }
        ensures bound { numbers_of self.new.bound ≡ numbers_of self.old.bound }
        ensures room { length buf.new ≡ length buf.old }
    {
        let answer = match &mut self.bound {
            Some(bound) => bound.sockets.poll(&mut self.net, buf),
            None => unreachable!(),
        };
        match answer {
            Ok(polled) => {
                self.tally.note_done();
                polled
            }
            Err(_) => {
                self.tally.note_failed();
                Polled::Failed
            }
        }
    }
}

impl<'a, N: Net> Port for PortOf<'a, N> {
    ghost use Rattle.std.specs.Prelude.{◌≡◌, [], ◌∷◌, length};
    ghost use Rattle.byte_io.specs.Port.{IsBound, Binds, Polls, Sends, Notes, replied, stream_replied, stream_closed, fed_back, closed};
    ghost use Rattle.byte_io.specs.declared.port.TheConstants.{POLL_ROOM};
    ghost use Rattle.system_io.specs.SocketPort.{port_seen, PollsNet, RepliesOverNet, RepliesToStream, RepliesToFeed};

    ghost seen = { port_seen N.told };

    fn bind(&mut self, udp: u16, feed: u16, tip: u32) -> Result<(), Failed> {
        let answer = Sockets::bind(&mut self.net, self.rt, self.people, udp, feed);
        let sockets = self.tally.count(answer, Failed)?;
        self.people.tell(Cause::Listening { udp, feed, tip });
        self.bound = Some(Bound { udp, feed, sockets });
        Ok(())
    }

    #[tactic(auto, using(crate::proofs::PortLemmas::Polls_noted, crate::proofs::PortLemmas::Noted))]
    fn poll(&mut self, buf: &mut [u8]) -> Polled
        requires bound { IsBound (port_seen N.told self.old) }
        requires room { length buf.old ≡ POLL_ROOM }
        ensures polls { Polls (port_seen N.told self.old) (port_seen N.told self.new) buf.new result }
        ensures room { length buf.new ≡ POLL_ROOM }
        ensures told { PollsNet (N.told self.old.net) (N.told self.new.net) buf.new result }
    {
        let polled = self.bring(buf);
        self.net.note_poll(polled, buf);
        polled
    }

    fn reply(&mut self, client: u64, bytes: &[u8]) -> Result<(), Failed>
        requires { IsBound (port_seen N.told self.old) }
        ensures sends { Sends (port_seen N.told self.old) (port_seen N.told self.new) (replied client bytes.now) result }
        ensures told { RepliesOverNet (N.told self.old.net) (N.told self.new.net) client bytes.now result }
    {
        let answer = match &mut self.bound {
            Some(bound) => bound.sockets.reply(&mut self.net, Client(client), bytes),
            None => unreachable!(),
        };
        let answer = self.tally.count(answer, Failed);
        self.net
            .note_send(Sent::Reply { client, bytes }, answer.is_ok());
        answer
    }

    fn stream_reply(&mut self, client: u64, bytes: &[u8]) -> Result<(), Failed>
        requires { IsBound (port_seen N.told self.old) }
        ensures sends { Sends (port_seen N.told self.old) (port_seen N.told self.new) (stream_replied client bytes.now) result }
        ensures told { RepliesToStream (N.told self.old.net) (N.told self.new.net) self.old.bound self.new.bound client bytes.now result }
    {
        match &mut self.bound {
            Some(bound) => bound.sockets.stream_reply(&mut self.net, client, bytes),
            None => unreachable!(),
        }
        self.net.note_send(Sent::Stream { client, bytes }, true);
        Ok(())
    }

    #[tactic(auto, using(crate::proofs::PortLemmas::Noted_alone))]
    fn close_stream(&mut self, client: u64) {
        match &mut self.bound {
            Some(bound) => bound.sockets.close_stream(client),
            None => unreachable!(),
        }
        self.net.note_send(Sent::StreamClosed { client }, true);
    }

    fn feed_reply(&mut self, bytes: &[u8]) -> Result<(), Failed>
        requires { IsBound (port_seen N.told self.old) }
        ensures sends { Sends (port_seen N.told self.old) (port_seen N.told self.new) (fed_back bytes.now) result }
        ensures told { RepliesToFeed (N.told self.old.net) (N.told self.new.net) self.old.bound self.new.bound bytes.now result }
    {
        let answer = match &mut self.bound {
            Some(bound) => bound.sockets.feed_reply(&mut self.net, bytes),
            None => unreachable!(),
        };
        let answer = self.tally.count(answer, Failed);
        self.net.note_send(Sent::Feed { bytes }, answer.is_ok());
        answer
    }

    fn close_feed(&mut self) {
        match &mut self.bound {
            Some(bound) => bound.sockets.close_feed(&mut self.net),
            None => unreachable!(),
        }
        self.net.note_send(Sent::Closed, true);
    }
}
