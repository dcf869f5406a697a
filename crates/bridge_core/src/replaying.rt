//! A replay: files are opened, and frames of a source are answered on a sink.

ghost use Rattle.std.specs.Prelude.{◌≡◌, ◌<◌, ◌≤◌, ◌^◌};
ghost use Rattle.frame_loop.specs.Transcript.{streams};
ghost use Rattle.bridge_core.specs.Determined.{outside};
ghost use Rattle.bridge_core.specs.Replaying.{Replays};
ghost use Rattle.bridge_core.specs.Streaming.{status_of_ending};

use crate::bridge::{Bridge, Turned};
use crate::opening::{let_go, unopened};
use crate::status::Status;
use byte_io::{Sink, Source};
use disk_model::Disk;
use frame_loop::{Buffers, Ending, follow};
use nmc_base::{NoMemory, Steps};
use std::alloc::Global;
use std::marker::Brand;
use std::sync::ledger::{Blank, Ledger};

/// The status of a run over a stream that ended so.
pub fn status_of(ending: Ending) -> Status
    ensures { result ≡ status_of_ending ending }
{
    match ending {
        Ending::Done => Status::Done,
        Ending::BadFrame { offset } => Status::BadFrame { offset },
        Ending::CutFrame { offset } => Status::CutFrame { offset },
        Ending::SourceFault => Status::SourceFault,
        Ending::SinkFault => Status::SinkFault,
        Ending::InputLimit => Status::InputLimit,
        Ending::Ended => Status::DiskFault,
    }
}

/// Opens the files, and then reads and answers frames by means of these buffers.
fn replay_by<S: Source, K: Sink, D: Disk, L: Ledger>(
    alloc: Global,
    buffers: &mut Buffers,
    source: &mut S,
    sink: &mut K,
    disk: &mut D,
    limit: u64,
    steps: &mut Steps<L>,
) -> Status
    requires { limit ≤ 2 ^ 40 }
    ensures { Replays D.tells D.seen disk.new (outside (streams (S.seen source.old) (K.seen sink.old)) (D.seen disk.old))
        (outside (streams (S.seen source.new) (K.seen sink.new)) (D.seen disk.new)) limit result }
{
    match Bridge::open(alloc, disk) {
        Ok(bridge) => {
            let mut turned = Turned::On(bridge);
            let ending = follow(
                alloc,
                &mut turned,
                disk,
                buffers,
                source,
                sink,
                limit,
                steps,
            );
            let_go(turned);
            status_of(ending)
        }
        Err(fault) => unopened(fault),
    }
}

/// A replay whose steps are counted in the ledger of the blank.
fn replay_counted<S: Source, K: Sink, D: Disk, L: Ledger>(
    alloc: Global,
    source: &mut S,
    sink: &mut K,
    disk: &mut D,
    limit: u64,
    blank: Blank,
) -> Status
    requires limit { limit ≤ 2 ^ 40 }
    requires name { blank.name ≡ L.name }
    requires parts { blank.parts ≡ L.parts }
    requires some { 0 < blank.parts }
    ensures { Replays D.tells D.seen disk.new (outside (streams (S.seen source.old) (K.seen sink.old)) (D.seen disk.old))
        (outside (streams (S.seen source.new) (K.seen sink.new)) (D.seen disk.new)) limit result }
{
    let mut steps = Steps::<L>::new(blank);
    let mut buffers = match Buffers::new(alloc) {
        Ok(buffers) => buffers,
        Err(NoMemory) => return Status::NoMemory,
    };
    replay_by(alloc, &mut buffers, source, sink, disk, limit, &mut steps)
}

/// Opens the files of the disk, and then reads frames from the source, at most `limit` bytes, and answers each on the sink.
///
/// The source is read in pieces of at most 65,536 bytes, each only where every whole frame before it was answered. Want
/// of memory ends it before anything is read; in a command or a save it is the reply's code FE. A fault of the disk in one is
/// its reply's code FD, and ends the replay. A crash at any moment leaves files that stand for what was accepted and saved so far,
/// or for that with what was being kept.
pub fn replay<S: Source, K: Sink, D: Disk>(
    alloc: Global,
    source: &mut S,
    sink: &mut K,
    disk: &mut D,
    limit: u64,
) -> Status
    requires { limit ≤ 2 ^ 40 }
    ensures { Replays D.tells D.seen disk.new (outside (streams (S.seen source.old) (K.seen sink.old)) (D.seen disk.old))
        (outside (streams (S.seen source.new) (K.seen sink.new)) (D.seen disk.new)) limit result }
{
    replay_counted::<S, K, D, Brand>(alloc, source, sink, disk, limit, Blank::new(1))
}
