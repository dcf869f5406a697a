//! What a bridge is asked to do, read from a whole frame.

ghost use Rattle.std.specs.Prelude.{◌≡◌};
ghost use Rattle.feed_frames.specs.Front as feed;
ghost use Rattle.chain_commands.specs.Event.{event_frame, last_kind};
ghost use Rattle.frame_loop.specs.Turns.{IsAskable};
ghost use Rattle.bridge_core.specs.Views.{event_of, IsReadable};

use dns_message::Transport;
use feed_frames::Frame;
use frame_loop::{QUERY, STREAM_QUERY};
use index_commands::ChainCommand;
use nmc_base::Hash32;

/// What a bridge is asked to do: one whole frame, or a message over a stream.
#[derive(Clone, Copy, Debug)]
pub enum Event<'a> {
    /// A command on the chain.
    Do(ChainCommand<'a>),
    /// A message of DNS that is to be answered by the transport that it came by.
    Ask(Transport, &'a [u8]),
    /// The index is to be saved.
    Save,
}

/// The kind of a connect's frame.
const CONNECT: u8 = 1;

/// The kind of a save's frame, which is empty.
const SAVE: u8 = 4;

/// The event of a whole frame, of a kind that every run reads, or of a message over a stream.
pub fn read_event(frame: Frame<'_>) -> Event<'_>
    requires { IsAskable last_kind (feed.frame_of frame) }
    ensures same { event_frame (event_of result) ≡ feed.frame_of frame.entry }
    ensures within { IsReadable result }
{
    if frame.kind == CONNECT {
        return Event::Do(ChainCommand::Connect(frame.payload));
    }
    if frame.kind == QUERY {
        return Event::Ask(Transport::Udp, frame.payload);
    }
    if frame.kind == STREAM_QUERY {
        return Event::Ask(Transport::Tcp, frame.payload);
    }
    if frame.kind == SAVE {
        return Event::Save;
    }
    match frame.payload.as_array() {
        Some(hash) => Event::Do(ChainCommand::Disconnect(Hash32(*hash))),
        None => unreachable!(),
    }
}
