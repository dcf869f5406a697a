//! A chain of many blocks that starts from a snapshot of a million names.

ghost use Rattle.std.specs.Prelude.{◌≡◌, ◌<◌};

use super::held::{Held, let_go};
use super::made_snapshot::{BASE, read};
use super::stop::Stop;
use block_maker::Maker;
use chain_state::Chain;
use name_snapshot::SnapshotFault;
use nmc_base::{HIGHEST_HEIGHT, Steps};
use std::alloc::Global;
use std::marker::Brand;
use std::sync::ledger::{Blank, Ledger};

/// How many blocks are connected.
const BLOCKS: u32 = 20_000;

/// The height of the tip, and whether the first name and the last have their value.
type Told = (u32, bool, bool);

/// The chain of the snapshot alone.
fn started(alloc: Global) -> Result<Held, Stop> {
    match read(alloc) {
        Ok(parts) => Ok(Held::of(Chain::from_parts(BASE, parts))),
        Err(SnapshotFault::NoMemory) => Err(Stop::NoMemory),
        Err(SnapshotFault::Bad { .. }) => Err(Stop::Wrong("a snapshot")),
    }
}

/// Connects a block without names.
fn connect_next<L: Ledger>(
    alloc: Global,
    held: &mut Held,
    steps: &mut Steps<L>,
) -> Result<(), Stop> {
    let tip = held.tip()?;
    if tip.height >= HIGHEST_HEIGHT {
        return Err(Stop::Wrong("a low tip"));
    }
    let Ok(block) = Maker::new().block(alloc, tip, None) else {
        return Err(Stop::NoMemory);
    };
    match held.connect(alloc, block.as_slice(), steps)? {
        (0, _) => Ok(()),
        _ => Err(Stop::Wrong("a block")),
    }
}

/// Connects the blocks.
fn connect_all<L: Ledger>(
    alloc: Global,
    held: &mut Held,
    steps: &mut Steps<L>,
) -> Result<(), Stop> {
    for _ in 0..BLOCKS {
        connect_next(alloc, held, steps)?;
    }
    Ok(())
}

fn told<L: Ledger>(alloc: Global, held: &mut Held, steps: &mut Steps<L>) -> Result<Told, Stop> {
    connect_all(alloc, held, steps)?;
    let height = held.height()?;
    Ok((
        height,
        held.serves(b"d/000000", b"{}")?,
        held.serves(b"d/999999", b"{}")?,
    ))
}

/// What is told of the chain behind all blocks.
fn told_of<L: Ledger>(alloc: Global, blank: Blank) -> Result<Told, Stop>
    requires name { blank.name ≡ L.name }
    requires parts { blank.parts ≡ L.parts }
    requires some { 0 < blank.parts }
{
    let mut steps = Steps::<L>::new(blank);
    let mut held = started(alloc)?;
    let told = told(alloc, &mut held, &mut steps);
    let_go(held);
    told
}

#[test]
fn a_chain_goes_on_from_a_million_names(rt: HostRuntime) {
    let told = told_of::<Brand>(rt.alloc(), Blank::new(1));
    let is_so = told == Ok((520_000, true, true));
    assert!(rt; is_so, "{told:?}");
}
