//! Does what the words of the command line say.

ghost use Rattle.std.specs.Prelude.{◌≡◌, ◌↔◌, ◌^◌, List, ℕ, IsTrue};
ghost use Rattle.nmc_base.specs.declared.chain_ends.Base.{Base};
ghost use Rattle.frame_loop.specs.Transcript.{streams};
ghost use Rattle.bridge_core.specs.Determined.{outside};
ghost use Rattle.bridge_core.specs.Replaying.{Replays};
ghost use Rattle.name_lister.specs.Listing.{Lists};
ghost use Rattle.bridge_commands.specs.Words.{Asks, AsksForFiles, AsksToList, AsksToServe, AsksToTest, Spares};
ghost use Rattle.bridge_commands.specs.Making.{Inits, InitsFrom};
ghost use Rattle.bridge_commands.specs.Dumping.{Dumps, dump_seen};
ghost use Rattle.bridge_commands.specs.SelfTest.{SelfTests};
ghost use Rattle.bridge_commands.specs.Serving.{Serves, serve_seen};

use crate::dumping::dump;
use crate::making::{init, init_from};
use crate::self_test::self_test;
use crate::serving::serve;
use crate::words::{Command, Plan, Start, Trial, read_words};
use bridge_core::{Status, replay};
use byte_io::{Port, Sink, Source};
use disk_model::Disk;
use name_lister::list;
use nmc_base::Words;
use std::alloc::Global;

/// The most bytes that one run over a stream reads: 2^40.
const LIMIT: u64 = 1 << 40;

/// Does what the words say: `replay` or `dump` alone; `list` with how many rows a page has; `init` or `init-from` with a profile, a height, a hash and a host; `serve`
/// with the numbers of two ports and of the polls; or `selftest` with how many blocks and a seed.
///
/// Other words end with `Status::Words`, and then nothing is read, written or asked of the disk or the port. `init` makes the
/// files of a base, which has no command yet, and `init-from` those of a base with the start list of a snapshot on the source. `selftest` asks nothing of the disk: its files are in memory. Each command asks nothing
/// of what it has no use for.
pub fn run<S: Source, K: Sink, D: Disk, P: Port>(
    alloc: Global,
    words: &Words,
    source: &mut S,
    sink: &mut K,
    disk: &mut D,
    port: &mut P,
) -> Status
    ensures words { (result ≡ Status.Words) ↔ ((asked : Command) → ¬ (Asks words.now.items asked)) }
    ensures untouched { result ≡ Status.Words
        → (source.new ≡ source.old) × (sink.new ≡ sink.old) × (disk.new ≡ disk.old) × (port.new ≡ port.old) }
    ensures spared { (asked : Command) → Asks words.now.items asked
        → Spares asked (source.new ≡ source.old) (sink.new ≡ sink.old) (port.new ≡ port.old) }
    ensures replay { Asks words.now.items Command.Replay
        → Replays D.tells D.seen disk.new (outside (streams (S.seen source.old) (K.seen sink.old)) (D.seen disk.old))
        (outside (streams (S.seen source.new) (K.seen sink.new)) (D.seen disk.new)) (2 ^ 40) result }
    ensures list { (size : ℕ) → AsksToList words.now.items size
        → Lists size D.tells D.seen disk.new (outside (streams (S.seen source.old) (K.seen sink.old)) (D.seen disk.old))
        (outside (streams (S.seen source.new) (K.seen sink.new)) (D.seen disk.new)) (2 ^ 40) result }
    ensures init { (base : Base) (name : List ℕ) (asked : AsksForFiles words.now.items Start.Empty base name)
        → Inits D.tells base asked.host (D.seen disk.old) (D.seen disk.new) result }
    ensures init_from { (base : Base) (name : List ℕ) (asked : AsksForFiles words.now.items Start.Snapshot base name)
        → InitsFrom D.tells base asked.host (2 ^ 32) (D.seen disk.old) (D.seen disk.new) (S.seen source.old) (S.seen source.new) result }
    // Where the files were made before, the source isn't read.
    ensures unread { (base : Base) (name : List ℕ) → AsksForFiles words.now.items Start.Snapshot base name
        → IsTrue D.tells → result ≡ Status.Initialised → source.new ≡ source.old }
    ensures dump { Asks words.now.items Command.Dump
        → Dumps D.tells (dump_seen (K.seen sink.old) (D.seen disk.old)) (dump_seen (K.seen sink.new) (D.seen disk.new)) result }
    ensures serve { (plan : Plan) → AsksToServe words.now.items plan
        → Serves D.tells D.seen disk.new (serve_seen (P.seen port.old) (D.seen disk.old))
        (serve_seen (P.seen port.new) (D.seen disk.new)) plan result }
    ensures selftest { (trial : Trial) → AsksToTest words.now.items trial → SelfTests trial (K.seen sink.old) (K.seen sink.new) result × (disk.new ≡ disk.old) }
{
    match read_words(words) {
        Ok(Command::Replay) => replay(alloc, source, sink, disk, LIMIT),
        Ok(Command::Listing(size)) => list(alloc, source, sink, disk, LIMIT, size),
        Ok(Command::Init(Start::Empty, base, host)) => init(disk, &base, &host),
        Ok(Command::Init(Start::Snapshot, base, host)) => {
            init_from(alloc, source, disk, &base, &host)
        }
        Ok(Command::Dump) => dump(alloc, sink, disk),
        Ok(Command::Serve(plan)) => serve(alloc, disk, port, plan),
        Ok(Command::SelfTest(trial)) => self_test(alloc, sink, trial),
        Err(_) => Status::Words,
    }
}
