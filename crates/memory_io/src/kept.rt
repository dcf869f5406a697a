//! What a port in memory keeps of polls and calls.

// What a port in memory keeps: the polls to come, and a note of each call.
ghost use Rattle.std.specs.Prelude.{◌≡◌, length, IfOk};
ghost use Rattle.std.specs.Option.{option_map};
ghost use Rattle.byte_io.specs.declared.port.TheConstants.{POLL_ROOM};
ghost use Rattle.memory_io.specs.Kept.{brought, seen_poll, seen_note, sent_note, if_outgoing, Fits, Shows};

use crate::poll_bytes::PollBytes;
use byte_io::{Polled, Sent};
use nmc_base::NoMemory;
use std::alloc::Global;

/// What a poll brings, with its bytes.
#[derive(Drop)]
pub(crate) enum KeptPoll {
    Query { client: u64, bytes: PollBytes },
    Stream { client: u64, bytes: PollBytes },
    StreamEnd { client: u64 },
    Feed { bytes: PollBytes },
    FeedEnd,
    Nothing,
}

/// Whom bytes are sent to.
#[derive(Clone, Copy)]
pub(crate) enum Recipient {
    Client(u64),
    Stream(u64),
    Feed,
}

/// A call, and what came of it.
#[derive(Drop)]
pub(crate) enum KeptNote {
    Polled(KeptPoll),
    FailedPoll,
    Send {
        to: Recipient,
        bytes: Vec<u8>,
        is_sent: bool,
    },
    StreamClosed(u64),
    Closed,
}

impl KeptPoll {
    pub(crate) fn copy_of(alloc: Global, polled: Polled, bytes: &[u8]) -> Result<KeptPoll, NoMemory>
        requires { Fits polled bytes.now }
        ensures { IfOk result (λ poll. seen_poll poll ≡ brought polled bytes.now) }
    {
        Ok(match polled {
            Polled::Query { client, .. } => KeptPoll::Query {
                client,
                bytes: PollBytes::copy_of(alloc, bytes)?,
            },
            Polled::Stream { client, .. } => KeptPoll::Stream {
                client,
                bytes: PollBytes::copy_of(alloc, bytes)?,
            },
            Polled::StreamEnd { client } => KeptPoll::StreamEnd { client },
            Polled::Feed { .. } => KeptPoll::Feed {
                bytes: PollBytes::copy_of(alloc, bytes)?,
            },
            Polled::FeedEnd => KeptPoll::FeedEnd,
            Polled::Nothing => KeptPoll::Nothing,
            Polled::Failed => unreachable!(),
        })
    }

    /// Puts its bytes at the front of the buffer.
    pub(crate) fn put(&self, buffer: &mut [u8]) -> Polled
        requires { length buffer.old ≡ POLL_ROOM }
        ensures shows { Shows result buffer.new (seen_poll self.now) }
        ensures room { length buffer.new ≡ POLL_ROOM }
    {
        match self {
            KeptPoll::Query { client, bytes } => Polled::Query {
                client: *client,
                len: bytes.put(buffer),
            },
            KeptPoll::Stream { client, bytes } => Polled::Stream {
                client: *client,
                len: bytes.put(buffer),
            },
            KeptPoll::StreamEnd { client } => Polled::StreamEnd { client: *client },
            KeptPoll::Feed { bytes } => Polled::Feed {
                len: bytes.put(buffer),
            },
            KeptPoll::FeedEnd => Polled::FeedEnd,
            KeptPoll::Nothing => Polled::Nothing,
        }
    }
}

impl KeptNote {
    /// The send or the closing that it is, unless it failed.
    pub(crate) fn sent(&self) -> Option<Sent<'_>>
        ensures { option_map sent_note result ≡ if_outgoing (seen_note self.now) }
    {
        match self {
            KeptNote::Send {
                to,
                bytes,
                is_sent: true,
            } => Some(match to {
                Recipient::Client(client) => Sent::Reply {
                    client: *client,
                    bytes,
                },
                Recipient::Stream(client) => Sent::Stream {
                    client: *client,
                    bytes,
                },
                Recipient::Feed => Sent::Feed { bytes },
            }),
            KeptNote::StreamClosed(client) => Some(Sent::StreamClosed { client: *client }),
            KeptNote::Closed => Some(Sent::Closed),
            _ => None,
        }
    }
}
