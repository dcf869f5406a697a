//! The queue of coins that expire.

ghost use Rattle.std.specs.Prelude.{◌≡◌, ◌<◌};

use crate::outputs::output;
use expiry_queue::Queue;
use nmc_base::{NoMemory, Steps};
use std::alloc::Global;
use std::marker::Brand;
use std::process::Abort;
use std::sync::ledger::{Blank, Ledger};
use std::test::Fail;

fn place_all<L: Ledger>(queue: &mut Queue, steps: &mut Steps<L>) -> Result<(), NoMemory> {
    queue.place(13, output(2, 0), steps)?;
    queue.place(14, output(3, 0), steps)?;
    queue.place(13, output(1, 0), steps)?;
    queue.place(13, output(2, 0), steps)
}

/// A row keeps its places in the order in which they were made.
fn are_in_order<L: Ledger>(rt: &impl Abort, queue: &Queue, steps: &mut Steps<L>) {
    assert!(rt; queue.row_item(13, 0, steps) == Some(output(2, 0)));
    assert!(rt; queue.row_item(13, 1, steps) == Some(output(1, 0)));
    assert!(rt; queue.row_item(13, 2, steps).is_none());
    assert!(rt; queue.row_item(14, 0, steps) == Some(output(3, 0)));
}

fn rows_in_order<L: Ledger>(rt: &impl Abort, alloc: Global, blank: Blank) -> Result<(), NoMemory>
    requires name { blank.name ≡ L.name }
    requires parts { blank.parts ≡ L.parts }
    requires some { 0 < blank.parts }
{
    let mut steps = Steps::<L>::new(blank);
    let mut queue = Queue::new(alloc)?;
    let placed = place_all(&mut queue, &mut steps);
    are_in_order(rt, &queue, &mut steps);
    placed
}

#[test]
fn outpoints_by_height(rt: HostRuntime) -> Result<(), Fail> {
    rows_in_order::<Brand>(&rt, rt.alloc(), Blank::new(1))?;
    Ok(())
}
