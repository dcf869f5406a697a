//! The command that serves: polls of a port, each dealt with before the next.

ghost use Rattle.std.specs.Prelude.{◌≡◌, ◌<◌};
ghost use Rattle.bridge_commands.specs.Serving.{Serves, serve_seen, status_of_ending};

use crate::words::Plan;
use bridge_core::{Bridge, Status, Turned, let_go, unopened};
use byte_io::Port;
use disk_model::Disk;
use nmc_base::{NoMemory, Steps};
use port_loop::{Ending, PollBuffers, attend};
use std::alloc::Global;
use std::marker::Brand;
use std::sync::ledger::{Blank, Ledger};

/// The status of a run of polls that ended so.
fn status_of(ending: Ending) -> Status
    ensures { result ≡ status_of_ending ending }
{
    match ending {
        Ending::Done => Status::Done,
        Ending::Ended => Status::DiskFault,
    }
}

/// Opens the files, binds the port, and then deals with its polls by means of these buffers.
fn serve_by<D: Disk, P: Port, L: Ledger>(
    alloc: Global,
    buffers: &mut PollBuffers,
    disk: &mut D,
    port: &mut P,
    plan: Plan,
    steps: &mut Steps<L>,
) -> Status
    ensures { Serves D.tells D.seen disk.new (serve_seen (P.seen port.old) (D.seen disk.old)) (serve_seen (P.seen port.new) (D.seen disk.new)) plan result }
{
    let bridge = match Bridge::open(alloc, disk) {
        Ok(bridge) => bridge,
        Err(fault) => return unopened(fault),
    };
    let tip = bridge.height();
    let mut turned = Turned::On(bridge);
    match port.bind(plan.udp, plan.feed, tip) {
        Ok(()) => {
            let ending = attend(alloc, &mut turned, disk, buffers, port, plan.turns, steps);
            let_go(turned);
            status_of(ending)
        }
        Err(_) => {
            let_go(turned);
            Status::PortFault
        }
    }
}

/// Polls whose steps are counted in the ledger of the blank.
fn serve_counted<D: Disk, P: Port, L: Ledger>(
    alloc: Global,
    disk: &mut D,
    port: &mut P,
    plan: Plan,
    blank: Blank,
) -> Status
    requires name { blank.name ≡ L.name }
    requires parts { blank.parts ≡ L.parts }
    requires some { 0 < blank.parts }
    ensures { Serves D.tells D.seen disk.new (serve_seen (P.seen port.old) (D.seen disk.old)) (serve_seen (P.seen port.new) (D.seen disk.new)) plan result }
{
    let mut steps = Steps::<L>::new(blank);
    let mut buffers = match PollBuffers::new(alloc) {
        Ok(buffers) => buffers,
        Err(NoMemory) => return Status::NoMemory,
    };
    serve_by(alloc, &mut buffers, disk, port, plan, &mut steps)
}

/// Opens the files of the disk, binds the port, and then makes polls, each dealt with before the next.
///
/// A datagram is answered to its client, and each frame of the feed to the feed. A poll or a send that fails is dealt with.
/// Want of memory ends it before the port is bound; in a command or a save it is the reply's code FE. A fault of the disk in one
/// is its reply's code FD, and ends the run. A crash at any moment leaves files that stand for what was accepted and saved so far,
/// or for that with what was being kept.
pub(crate) fn serve<D: Disk, P: Port>(
    alloc: Global,
    disk: &mut D,
    port: &mut P,
    plan: Plan,
) -> Status
    ensures { Serves D.tells D.seen disk.new (serve_seen (P.seen port.old) (D.seen disk.old)) (serve_seen (P.seen port.new) (D.seen disk.new)) plan result }
{
    serve_counted::<D, P, Brand>(alloc, disk, port, plan, Blank::new(1))
}
