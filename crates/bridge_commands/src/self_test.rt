//! A run of a generated chain over files in memory.

ghost use Rattle.std.specs.Prelude.{◌≡◌, ◌+◌, ◌<◌, ◌≤◌, ◌^◌, ◌∷◌, [], true, IsTrue, IfOk, OnOk};
ghost use Rattle.nmc_base.specs.Heights.{highest};
ghost use Rattle.memory_disk.specs.MemoryLog.{fresh_log, memory_seen};
ghost use Rattle.generated_chain.specs.Blocks.{run_base, run_host};
ghost use Rattle.generated_chain.specs.Events.{round_at};
ghost use Rattle.chain_commands.specs.RunState.{RunState};
ghost use Rattle.name_store.specs.Stored.{IsOn, StandsFor};
ghost use Rattle.bridge_core.specs.Reached.{Beginning};
ghost use Rattle.bridge_core.specs.declared.status.Status.TheVariants.{Done};
ghost use Rattle.bridge_commands.specs.Making.{Inits};
ghost use Rattle.bridge_commands.specs.Playing.{PlaysRound, status_of_stop};
ghost use Rattle.bridge_commands.specs.SelfTest.{BeginsAt, Comes, PlaysTo, SelfTests, Sums};

use crate::course::Course;
use crate::dumping::status_of;
use crate::fields::read_host;
use crate::making::init;
use crate::playing::{Stop, play_round};
use crate::summary::{Summary, write_summary};
use crate::words::Trial;
use bridge_core::{Bridge, Status, Turned, let_go};
use byte_io::Sink;
use disk_model::Disk;
use frame_loop::ReplyBuf;
use generated_chain::Run;
use memory_disk::MemoryDisk;
use name_report::NameCounts;
use nmc_base::{NoMemory, Steps};
use std::alloc::Global;
use std::marker::Brand;
use std::sync::ledger::{Blank, Ledger};

/// Makes the files of the run's base.
fn make_files(disk: &mut MemoryDisk) -> Status
    ensures { Inits true run_base run_host (memory_seen disk.old) (memory_seen disk.new) result }
{
    match read_host(Run::host()) {
        Some(host) => init(disk, &Run::base(), &host),
        None => unreachable!(),
    }
}

/// Plays the next round.
fn play_next<D: Disk, L: Ledger>(
    course: Course,
    alloc: Global,
    disk: &mut D,
    run: &mut Run,
    reply: &mut ReplyBuf,
    steps: &mut Steps<L>,
) -> Result<Course, Stop>
    requires low { run.old.rounds < highest }
    requires on_disk { IsTrue D.tells → IsOn course.bridge.store (D.seen disk.old).moments.now }
    requires answers { course.answers + 2 < 2 ^ 32 }
    requires saves { course.saves + 1 < 2 ^ 32 }
    ensures round { PlaysRound D.tells D.seen course disk.old (round_at run.old.seed run.old.rounds) disk.new result }
    ensures next { OnOk result (run.new ≡ record { seed = run.old.seed; rounds = run.old.rounds + 1 }) }
{
    match run.next(alloc) {
        Ok(round) => play_round(course, alloc, disk, &round, reply, steps),
        Err(NoMemory) => {
            let_go(Turned::On(course.bridge));
            Err(Stop::NoMemory)
        }
    }
}

/// The status with which a run stops in this block.
fn stopped(stop: Stop, block: u32) -> Status
    ensures { result ≡ status_of_stop block stop }
{
    match stop {
        Stop::Refused => Status::TestFailed { block },
        Stop::NoMemory => Status::NoMemory,
    }
}

/// Plays all rounds.
fn play_all<D: Disk, L: Ledger>(
    course: Course,
    alloc: Global,
    disk: &mut D,
    trial: Trial,
    reply: &mut ReplyBuf,
    steps: &mut Steps<L>,
) -> Result<Course, Status>
    requires few { trial.blocks ≤ 10000 }
    requires on_disk { IsTrue D.tells → IsOn course.bridge.store (D.seen disk.old).moments.now }
    requires answers { course.answers ≡ 0 }
    requires saves { course.saves ≡ 0 }
    ensures { (start : Beginning D) → BeginsAt D.tells D.seen start course.bridge disk.old → PlaysTo D.tells D.seen start trial disk.new result }
{
    let mut course = course;
    let mut run = Run::new(trial.seed);
    for rounds in 0..trial.blocks {
        course = match play_next(course, alloc, disk, &mut run, reply, steps) {
            Ok(next) => next,
            Err(stop) => return Err(stopped(stop, rounds + 1)),
        };
    }
    Ok(course)
}

/// The summary of a run behind its last block.
fn sum_up(course: &Course, alloc: Global, trial: Trial) -> Result<Summary, NoMemory>
    ensures { IfOk result (λ s. (run : RunState) → StandsFor course.now.bridge.store run → Sums trial course.now run s) }
{
    let bridge = &course.bridge;
    let NameCounts { names, served } = bridge.count_names(alloc)?;
    let cache = bridge.cache();
    Ok(Summary {
        blocks: trial.blocks,
        tip: bridge.tip().hash,
        names,
        served,
        answers: course.answers,
        hits: cache.hits(),
        missed: cache.missed(),
        saves: course.saves,
    })
}

/// Opens the files, and plays the trial on them.
fn play_on<L: Ledger>(
    alloc: Global,
    disk: &mut MemoryDisk,
    trial: Trial,
    reply: &mut ReplyBuf,
    steps: &mut Steps<L>,
) -> Result<Summary, Status>
    requires few { trial.blocks ≤ 10000 }
    requires made { Inits true run_base run_host (memory_seen (fresh_log ([] ∷ ([] ∷ ([] ∷ []))) [])) (memory_seen disk.old) Done }
    ensures { Comes trial result }
{
    let bridge = match Bridge::open(alloc, disk) {
        Ok(bridge) => bridge,
        Err(_) => return Err(Status::NoMemory),
    };
    let course = Course {
        bridge,
        answers: 0,
        saves: 0,
    };
    let course = play_all(course, alloc, disk, trial, reply, steps)?;
    let summary = sum_up(&course, alloc, trial);
    let_go(Turned::On(course.bridge));
    Ok(summary?)
}

/// A trial whose steps are counted in the ledger of the blank.
fn play_counted<L: Ledger>(alloc: Global, trial: Trial, blank: Blank) -> Result<Summary, Status>
    requires name { blank.name ≡ L.name }
    requires parts { blank.parts ≡ L.parts }
    requires some { 0 < blank.parts }
    requires few { trial.blocks ≤ 10000 }
    ensures { Comes trial result }
{
    let mut steps = Steps::<L>::new(blank);
    let mut reply = ReplyBuf::new(alloc)?;
    let mut disk = MemoryDisk::new(alloc, &[])?;
    match make_files(&mut disk) {
        Status::Done => play_on(alloc, &mut disk, trial, &mut reply, &mut steps),
        _ => Err(Status::NoMemory),
    }
}

/// Plays the events of a generated chain on a bridge over files in memory, and gives its summary to the sink.
///
/// An event that is refused ends it, and so does want of memory: that of its own disk too, and in the answer to a message.
pub(crate) fn self_test<K: Sink>(alloc: Global, sink: &mut K, trial: Trial) -> Status
    requires { trial.blocks ≤ 10000 }
    ensures { SelfTests trial (K.seen sink.old) (K.seen sink.new) result }
{
    match play_counted::<Brand>(alloc, trial, Blank::new(1)) {
        Ok(summary) => status_of(write_summary(alloc, &summary, sink)),
        Err(status) => status,
    }
}
