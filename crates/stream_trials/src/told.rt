//! What a net in memory keeps of what happened.

ghost use Rattle.std.specs.Prelude.{◌≡◌, [], ◌∷◌, OnOk};

use byte_io::Polled;
use std::alloc::{AllocError, Global};
use std::net::SocketAddrV4;
use system_io::Peer;

/// A thing that happened, but for its bytes.
#[derive(Clone, Copy, PartialEq, Eq)]
pub enum What {
    /// A socket was asked for at this address.
    Asked(SocketAddrV4),
    /// A datagram came from there.
    Came(SocketAddrV4),
    /// One went there, whole.
    Gave(SocketAddrV4),
    /// Bytes came over this connection.
    Received(Peer),
    /// Bytes went over it.
    Sent(Peer),
    /// The port noted a poll.
    Polled(Polled),
    /// It noted a reply to this client, and whether it was sent.
    Replied(u64, bool),
    /// The same over a connection.
    StreamReplied(u64, bool),
    /// It noted that it let go of this client's connection.
    StreamClosed(u64),
    /// It noted a reply to the feed.
    FedBack(bool),
    /// It noted that it let go of the feed's connection.
    Closed,
}

/// A thing that happened, with its bytes.
#[derive(Drop)]
struct KeptEvent {
    what: What,
    bytes: Vec<u8>,
}

/// All that happened, in order, as long as memory was found for it.
#[derive(Drop)]
pub struct Told {
    alloc: Global,
    events: Vec<KeptEvent>,
    is_whole: bool,
}

impl Told {
    ghost use Rattle.stream_trials.specs.Told.{happened, told_of};
    ghost use Rattle.system_io.specs.Net.{Adds};

    pub fn nothing(alloc: Global) -> Told
        ensures { told_of result ≡ Some [] }
    {
        Told {
            alloc,
            events: Vec::new(alloc),
            is_whole: true,
        }
    }

    fn keep(&mut self, what: What, bytes: &[u8]) -> Result<(), AllocError>
        ensures { OnOk result (Adds (told_of self.old) (told_of self.new) (happened what bytes.now ∷ [])) }
    {
        let bytes = Vec::from_slice(self.alloc, bytes)?;
        Ok(self.events.push(KeptEvent { what, bytes })?)
    }

    /// This happened too. Where no memory is found for it, nothing is told any more.
    pub fn add(&mut self, what: What, bytes: &[u8])
        ensures { Adds (told_of self.old) (told_of self.new) (happened what bytes.now ∷ []) }
    {
        if self.keep(what, bytes).is_err() {
            self.is_whole = false;
        }
    }

    /// What happened at this place of the order, with its bytes.
    pub fn at(&self, place: usize) -> Option<(What, &[u8])> {
        let event = self.events.get(place)?;
        Some((event.what, &event.bytes))
    }

    /// Whether all that happened is told.
    pub fn is_whole(&self) -> bool {
        self.is_whole
    }
}
