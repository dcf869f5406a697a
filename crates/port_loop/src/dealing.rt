//! Answers what a poll brought.

ghost use Rattle.std.specs.Prelude.{◌≡◌, ◌<◌, ◌+◌, ◌^◌};
ghost use Rattle.byte_io.specs.Port.{IsBound};
ghost use Rattle.byte_io.specs.declared.port.TheConstants.{POLL_ROOM};
ghost use Rattle.feed_frames.specs.Frames.{IsPartialFrame};
ghost use Rattle.frame_loop.specs.Answering.{desk, fed_to};
ghost use Rattle.port_loop.specs.Polls.{AreParts};
ghost use Rattle.port_loop.specs.Attending.{AnswersPiece, AnswersPoll, station};

use crate::answering::answer;
use crate::polling::{PollRoom, feed_front};
use crate::sending::{Destination, Outbox, ToFeed, drop_feed, forget_feed};
use crate::streaming::answer_stream;
use byte_io::{Polled, Port};
use dns_tcp::Streams;
use feed_frames::{Frame, Frames};
use frame_loop::{Answerer, Halted, Over, QUERY, ReplyBuf, answer_all};
use nmc_base::{NoMemory, Steps};
use std::alloc::Global;
use std::sync::ledger::Ledger;

/// All the memory of the loop but for what the answers need: it is taken before the first poll.
#[derive(Drop)]
pub struct PollBuffers {
    pub(crate) frames: Frames,
    pub(crate) room: PollRoom,
    pub(crate) streams: Streams,
    pub(crate) outbox: Outbox,
}

impl PollBuffers {
    /// Room for the longest frame and a piece behind it, for what a poll brings, for the streams of clients, and for a reply, also
    /// behind its length.
    pub fn new(alloc: Global) -> Result<PollBuffers, NoMemory> {
        Ok(PollBuffers {
            frames: Frames::new(alloc, 0)?,
            room: PollRoom::new(alloc)?,
            streams: Streams::new(alloc)?,
            outbox: Outbox::new(alloc)?,
        })
    }
}

/// Answers all whole frames of the feed, and closes it where a bad one follows. At Err the last reply has ended the run.
fn answer_piece<W, T: Answerer<W>, P: Port, L: Ledger>(
    alloc: Global,
    answerer: &mut T,
    world: &mut W,
    frames: &mut Frames,
    reply: &mut ReplyBuf,
    port: &mut P,
    steps: &mut Steps<L>,
) -> Result<(), Over>
    requires reads { frames.old.kinds ≡ T.KINDS }
    requires bound { IsBound (P.seen port.old) }
    requires ready { T.ready (answerer.old, world.old) }
    ensures { AnswersPiece T.KINDS T.ready T.reached T.broken (desk (P.seen port.old) frames.old (answerer.old, world.old)) (desk (P.seen port.new) frames.new (answerer.new, world.new)) result }
{
    match answer_all::<W, T, P, ToFeed, L>(alloc, answerer, world, frames, reply, port, steps) {
        Halted::Partial => Ok(()),
        Halted::Bad(_) => {
            drop_feed(frames, port);
            Ok(())
        }
        Halted::Ended => Err(Over),
        Halted::Undelivered => unreachable!(),
    }
}

/// Makes one poll, and deals with it. At Err the last reply has ended the run.
pub(crate) fn answer_poll<W, T: Answerer<W>, P: Port, L: Ledger>(
    alloc: Global,
    answerer: &mut T,
    world: &mut W,
    buffers: &mut PollBuffers,
    port: &mut P,
    steps: &mut Steps<L>,
) -> Result<(), Over>
    requires bound { IsBound (P.seen port.old) }
    requires ready { T.ready (answerer.old, world.old) }
    requires reads { buffers.old.frames.kinds ≡ T.KINDS }
    requires answered { IsPartialFrame T.KINDS buffers.old.frames.left }
    requires parts { AreParts buffers.old.streams }
    requires short { fed_to buffers.old.frames + POLL_ROOM < 2 ^ 63 }
    ensures { AnswersPoll T.KINDS T.ready T.reached T.broken (station (P.seen port.old) buffers.old.frames buffers.old.streams (answerer.old, world.old)) (station (P.seen port.new) buffers.new.frames buffers.new.streams (answerer.new, world.new)) result }
{
    let PollBuffers {
        frames,
        room,
        streams,
        outbox,
    } = buffers;
    match room.poll(port) {
        Polled::Query { client, len } => {
            let frame = Frame {
                kind: QUERY,
                payload: room.front(len),
            };
            let destination = Destination::Client(client);
            answer(
                alloc,
                answerer,
                world,
                frame,
                destination,
                outbox,
                port,
                steps,
            )
        }
        Polled::Stream { client, len } => {
            let piece = room.front(len);
            answer_stream(
                alloc, answerer, world, client, piece, streams, outbox, port, steps,
            )
        }
        Polled::StreamEnd { client } => {
            streams.end(client);
            Ok(())
        }
        Polled::Feed { len } => {
            feed_front(frames, room, len);
            let reply = &mut outbox.reply;
            answer_piece(alloc, answerer, world, frames, reply, port, steps)
        }
        Polled::FeedEnd => {
            forget_feed(frames);
            Ok(())
        }
        Polled::Nothing => Ok(()),
        Polled::Failed => Ok(()),
    }
}
