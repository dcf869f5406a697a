//! The index over a chain of blocks: want of memory at each step, and many names and blocks.

ghost use Rattle.std.specs.Prelude.{◌≡◌, ◌<◌};

use nmc_base::Steps;
use std::alloc::Global;
use std::marker::Brand;
use std::process::Abort;
use std::sync::ledger::{Blank, Ledger};

mod held;
mod made_snapshot;
mod many_names;
mod rows;
mod stop;
mod trial;

use stop::Stop;
use trial::{Lacking, run};

/// The height of the trial's tip, or why it stopped.
fn trial_of<L: Ledger>(
    rt: &impl Abort,
    alloc: Global,
    blank: Blank,
    lacking: Lacking,
) -> Result<u32, Stop>
    requires name { blank.name ≡ L.name }
    requires parts { blank.parts ≡ L.parts }
    requires some { 0 < blank.parts }
{
    let mut steps = Steps::<L>::new(blank);
    run(rt, alloc, rows::TRIAL, lacking, &mut steps)
}

fn is_44(rt: &impl Abort, height: Result<u32, Stop>) {
    let is_so = height == Ok(44);
    assert!(rt; is_so, "{height:?}");
}

// `checks/failing_trials_table` runs these two with allocations failing in turn: the first passes whichever it is,
// and the second where there is none.
#[test]
fn a_chain_without_memory_is_as_it_was(rt: HostRuntime) {
    let height = trial_of::<Brand>(&rt, rt.alloc(), Blank::new(1), Lacking::Again);
    is_44(&rt, height);
}

#[test]
fn with_memory_each_block_is_answered(rt: HostRuntime) {
    let height = trial_of::<Brand>(&rt, rt.alloc(), Blank::new(1), Lacking::Stops);
    is_44(&rt, height);
}
