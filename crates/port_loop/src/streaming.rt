//! Answers the messages of a client's stream.

ghost use Rattle.std.specs.Prelude.{◌≤◌, length, IsTrue};
ghost use Rattle.byte_io.specs.Port.{IsBound};
ghost use Rattle.byte_io.specs.declared.port.TheConstants.{POLL_ROOM};
ghost use Rattle.dns_tcp.specs.Streams.{is_held, left_or_nothing};
ghost use Rattle.port_loop.specs.Polls.{AreParts};
ghost use Rattle.port_loop.specs.Streaming.{AnswersNextMessage, AnswersAllOf, AnswersStream, counter};

use crate::answering::answer;
use crate::sending::{Destination, Outbox};
use byte_io::Port;
use dns_tcp::Streams;
use feed_frames::Frame;
use frame_loop::{Answerer, Over, STREAM_QUERY};
use nmc_base::Steps;
use std::alloc::Global;
use std::sync::ledger::Ledger;

/// Answers the next message of a client's stream. `None` says that no whole one is there. At Err its reply has ended
/// the run.
fn answer_message<W, T: Answerer<W>, P: Port, L: Ledger>(
    alloc: Global,
    answerer: &mut T,
    world: &mut W,
    client: u64,
    streams: &mut Streams,
    outbox: &mut Outbox,
    port: &mut P,
    steps: &mut Steps<L>,
) -> Option<Result<(), Over>>
    requires bound { IsBound (P.seen port.old) }
    requires ready { T.ready (answerer.old, world.old) }
    ensures { AnswersNextMessage T.ready T.reached T.broken client (counter (P.seen port.old) streams.old (answerer.old, world.old)) (counter (P.seen port.new) streams.new (answerer.new, world.new)) result }
{
    let frame = Frame {
        kind: STREAM_QUERY,
        payload: streams.next(client)?,
    };
    let destination = Destination::Stream(client);
    Some(answer(
        alloc,
        answerer,
        world,
        frame,
        destination,
        outbox,
        port,
        steps,
    ))
}

/// Answers all whole messages of a client's stream, each before the next. At Err the last reply has ended the run.
fn answer_messages<W, T: Answerer<W>, P: Port, L: Ledger>(
    alloc: Global,
    answerer: &mut T,
    world: &mut W,
    client: u64,
    streams: &mut Streams,
    outbox: &mut Outbox,
    port: &mut P,
    steps: &mut Steps<L>,
) -> Result<(), Over>
    requires held { IsTrue (is_held client streams.old) }
    requires bound { IsBound (P.seen port.old) }
    requires ready { T.ready (answerer.old, world.old) }
    ensures { AnswersAllOf T.ready T.reached T.broken client (left_or_nothing client streams.old) (counter (P.seen port.old) streams.old (answerer.old, world.old)) (counter (P.seen port.new) streams.new (answerer.new, world.new)) result }
{
    while let Some(answered) = answer_message(
        alloc, answerer, world, client, streams, outbox, port, steps,
    ) {
        match answered {
            Ok(()) => {}
            Err(Over) => return Err(Over),
        }
    }
    Ok(())
}

/// Takes a piece of a client's stream, and answers all messages that it completes. Where no more clients can be held,
/// the piece is dropped and the client let go. At Err the last reply has ended the run.
pub(crate) fn answer_stream<W, T: Answerer<W>, P: Port, L: Ledger>(
    alloc: Global,
    answerer: &mut T,
    world: &mut W,
    client: u64,
    piece: &[u8],
    streams: &mut Streams,
    outbox: &mut Outbox,
    port: &mut P,
    steps: &mut Steps<L>,
) -> Result<(), Over>
    requires bound { IsBound (P.seen port.old) }
    requires ready { T.ready (answerer.old, world.old) }
    requires answered { AreParts streams.old }
    requires piece { length piece.now ≤ POLL_ROOM }
    ensures { AnswersStream T.ready T.reached T.broken client piece.now (counter (P.seen port.old) streams.old (answerer.old, world.old)) (counter (P.seen port.new) streams.new (answerer.new, world.new)) result }
{
    if !streams.feed(client, piece) {
        port.close_stream(client);
        return Ok(());
    }
    answer_messages(alloc, answerer, world, client, streams, outbox, port, steps)
}
