//! Reads frames from a source and answers each on a sink, to the end.

ghost use Rattle.std.specs.Prelude.{◌<◌, ◌^◌};
ghost use Rattle.frame_loop.specs.Transcript.{Follows, streams};

use crate::answerer::Answerer;
use crate::answering::{Halted, answer_all};
use crate::filling::{Buffers, fill};
use crate::outlet::ToSink;
use byte_io::{Sink, Source};
use feed_frames::PIECE;
use nmc_base::Steps;
use std::alloc::Global;
use std::sync::ledger::Ledger;

/// How a run over a stream ended.
#[derive(Clone, Copy, PartialEq, Eq, Debug)]
pub enum Ending {
    /// The source was read to its end, and every byte belongs to a whole frame.
    Done,
    /// What begins no frame starts at this byte of the source.
    BadFrame { offset: u64 },
    /// The source ended inside the frame that starts at this byte.
    CutFrame { offset: u64 },
    /// The last read failed.
    SourceFault,
    /// The last write failed, or took nothing of a piece that isn't empty.
    SinkFault,
    /// What answers has ended the run. Its last reply was given to the sink, as much as it took.
    Ended,
    /// As many bytes as the limit were read.
    InputLimit,
}

/// Reads frames and answers each, up to the end, a fault or the limit.
///
/// The source is read in pieces of at most 65,536 bytes, each only where every whole frame before it was answered.
/// It takes no memory of its own: the buffers have all of it.
pub fn follow<W, T: Answerer<W>, S: Source, K: Sink, L: Ledger>(
    alloc: Global,
    answerer: &mut T,
    world: &mut W,
    buffers: &mut Buffers,
    source: &mut S,
    sink: &mut K,
    limit: u64,
    steps: &mut Steps<L>,
) -> Ending
    requires limit { limit < 2 ^ 63 }
    requires ready { T.ready (answerer.old, world.old) }
    ensures { Follows T.KINDS T.reached T.broken (streams (S.seen source.old) (K.seen sink.old)) (streams (S.seen source.new) (K.seen sink.new)) limit (answerer.old, world.old) result (answerer.new, world.new) }
{
    let mut read: u64 = 0;
    buffers.frames.restart(T::KINDS);
    'pieces: loop {
        match answer_all::<W, T, K, ToSink, L>(
            alloc,
            answerer,
            world,
            &mut buffers.frames,
            &mut buffers.reply,
            sink,
            steps,
        ) {
            Halted::Partial => {}
            Halted::Bad(offset) => return Ending::BadFrame { offset },
            Halted::Undelivered => return Ending::SinkFault,
            Halted::Ended => return Ending::Ended,
        }
        if read >= limit {
            return Ending::InputLimit;
        }
        let most = (limit - read).min(PIECE as u64) as usize;
        match fill(&mut buffers.frames, &mut buffers.piece, source, most) {
            Err(_) => return Ending::SourceFault,
            Ok(count) => {
                if count == 0 {
                    return match buffers.frames.cut_at() {
                        None => Ending::Done,
                        Some(offset) => Ending::CutFrame { offset },
                    };
                }
                read += count as u64;
            }
        }
    }
}
