//! Reading a snapshot from a source.
ghost use Rattle.std.specs.Prelude.{◌≤◌};
ghost use Rattle.nmc_base.specs.Heights.{highest};
ghost use Rattle.name_snapshot.specs.SourceAnswers.{ReadsSnapshot};

use crate::feed_fault::FeedFault;
use crate::feeding::Snapshot;
use crate::source_feeding::feed_source;
use byte_io::Source;
use name_tables::Parts;
use nmc_base::Base;
use std::alloc::Global;

/// Reads a snapshot on the base from the source, to its end.
///
/// The source is read in pieces of at most 65,536 bytes. A fault is told by the piece that shows it, and nothing more is read. A source
/// of as many bytes as the limit, with no fault before, answers `InputLimit`, even if they are a snapshot. Memory is taken for what was
/// read, and none for a number that the bytes tell.
pub fn read_snapshot<S: Source>(
    alloc: Global,
    source: &mut S,
    base: &Base,
    limit: u64,
) -> Result<Parts, FeedFault>
    requires low { base.now.height ≤ highest }
    ensures { ReadsSnapshot base.now limit (S.seen source.old) (S.seen source.new) result }
{
    let mut snapshot = Snapshot::new(alloc, base)?;
    match feed_source(&mut snapshot, source, limit) {
        Ok(()) => Ok(snapshot.finish()?),
        Err(fault) => {
            snapshot.let_go();
            Err(fault)
        }
    }
}
