//! Sends the reply to a frame where it has to go.

ghost use Rattle.std.specs.Prelude.{◌≡◌, ◌∷◌, []};
ghost use Rattle.byte_io.specs.Port.{IsBound, Notes, closed};
ghost use Rattle.feed_frames.specs.Feed.{fresh_feed};
ghost use Rattle.port_loop.specs.Sends.{to_client, to_stream, sends_to, SendsOne};

use crate::message_text::MessageText;
use byte_io::Port;
use feed_frames::Frames;
use frame_loop::{Outlet, ReplyBuf, Undelivered};
use nmc_base::NoMemory;
use std::alloc::Global;

/// The code of a query that gets no reply.
pub const DROPPED: u8 = 8;

/// Where the reply to a frame goes.
#[derive(Clone, Copy)]
pub(crate) enum Destination {
    /// To the client that sent the datagram.
    Client(u64),
    /// To the client, over its stream.
    Stream(u64),
    /// To the feed.
    Feed,
}

/// The reply that is sent next, and room for it behind its length.
#[derive(Drop)]
pub(crate) struct Outbox {
    pub(crate) reply: ReplyBuf,
    text: MessageText,
}

impl Outbox {
    pub(crate) fn new(alloc: Global) -> Result<Outbox, NoMemory> {
        Ok(Outbox {
            reply: ReplyBuf::new(alloc)?,
            text: MessageText::new(alloc)?,
        })
    }
}

/// Sends the payload of a reply to a client, unless it is the reply to a query that gets none.
fn send_to_client<P: Port>(port: &mut P, client: u64, reply: &ReplyBuf)
    requires { IsBound (P.seen port.old) }
    ensures { SendsOne (P.seen port.old) (P.seen port.new) (to_client client reply.now) }
{
    if reply.code() == DROPPED {
        return;
    }
    let _ = port.reply(client, reply.payload());
}

/// Sends the payload of a reply behind its length over a client's stream, unless it is the reply to a query that gets none.
fn send_to_stream<P: Port>(port: &mut P, client: u64, outbox: &mut Outbox)
    requires { IsBound (P.seen port.old) }
    ensures { SendsOne (P.seen port.old) (P.seen port.new) (to_stream client outbox.old.reply) }
{
    let Outbox { reply, text } = outbox;
    if reply.code() == DROPPED {
        return;
    }
    text.set(reply.payload());
    let _ = port.stream_reply(client, text.bytes());
}

/// Sends a reply. A send that fails is dealt with.
pub(crate) fn send<P: Port>(port: &mut P, destination: Destination, outbox: &mut Outbox)
    requires { IsBound (P.seen port.old) }
    ensures { SendsOne (P.seen port.old) (P.seen port.new) (sends_to destination outbox.old.reply) }
{
    match destination {
        Destination::Client(client) => send_to_client(port, client, &outbox.reply),
        Destination::Stream(client) => send_to_stream(port, client, outbox),
        Destination::Feed => {
            let _ = port.feed_reply(outbox.reply.text());
        }
    }
}

/// Replies as text, to the feed of a port. A send that fails is dealt with.
pub(crate) struct ToFeed;

impl<P: Port> Outlet<P> for ToFeed {
    ghost use Rattle.byte_io.specs.Port.{PortSeen, IsBound};
    ghost use Rattle.port_loop.specs.Sends.{SendsToFeed, bound_behind};

    ghost Seen = { PortSeen };

    ghost seen = { P.seen };

    ghost takes = { IsBound };

    ghost gives = { SendsToFeed };

    ghost refuses = { λ old reply new. ⊥ };

    ghost gives_last = { SendsToFeed };

    ghost still_takes = { bound_behind };

    fn give(to: &mut P, reply: &ReplyBuf) -> Result<(), Undelivered> {
        let _ = to.feed_reply(reply.text());
        Ok(())
    }

    fn give_last(to: &mut P, reply: &ReplyBuf) {
        let _ = to.feed_reply(reply.text());
    }
}

/// Forgets what the feed has brought: no part of a frame is left.
pub(crate) fn forget_feed(frames: &mut Frames)
    ensures { frames.new ≡ fresh_feed frames.old.kinds }
{
    frames.reset();
}

/// Closes the feed, and forgets what it has brought.
pub(crate) fn drop_feed<P: Port>(frames: &mut Frames, port: &mut P)
    requires { IsBound (P.seen port.old) }
    ensures closed { Notes (P.seen port.old) (P.seen port.new) (closed ∷ []) }
    ensures forgotten { frames.new ≡ fresh_feed frames.old.kinds }
{
    port.close_feed();
    forget_feed(frames);
}
