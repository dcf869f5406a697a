//! The command that reports the names of a chain.

ghost use Rattle.std.specs.Prelude.{◌≡◌};
ghost use Rattle.bridge_commands.specs.Dumping.{Dumps, dump_seen, status_of_report};

use bridge_core::{Bridge, Status, Turned, let_go, unopened};
use byte_io::Sink;
use disk_model::Disk;
use name_report::ReportFault;
use std::alloc::Global;

/// The status of a report that ended so.
pub(crate) fn status_of(written: Result<(), ReportFault>) -> Status
    ensures { result ≡ status_of_report written }
{
    match written {
        Ok(()) => Status::Done,
        Err(ReportFault::SinkFault) => Status::SinkFault,
        Err(ReportFault::NoMemory) => Status::NoMemory,
    }
}

/// Opens the files, and writes the report of the names of their chain. It writes nothing to the files and cuts nothing.
pub(crate) fn dump<K: Sink, D: Disk>(alloc: Global, sink: &mut K, disk: &mut D) -> Status
    ensures { Dumps D.tells (dump_seen (K.seen sink.old) (D.seen disk.old)) (dump_seen (K.seen sink.new) (D.seen disk.new)) result }
{
    match Bridge::open(alloc, disk) {
        Ok(bridge) => {
            let written = bridge.report(alloc, sink);
            let_go(Turned::On(bridge));
            status_of(written)
        }
        Err(fault) => unopened(fault),
    }
}
