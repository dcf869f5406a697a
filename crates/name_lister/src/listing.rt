//! A listing run: files are opened, and frames of a source are answered on a sink.

ghost use Rattle.std.specs.Prelude.{◌≡◌, ◌<◌, ◌≤◌, ◌^◌};
ghost use Rattle.frame_loop.specs.Transcript.{streams};
ghost use Rattle.bridge_core.specs.Determined.{outside};
ghost use Rattle.listing_sessions.specs.declared.page.TheConstants.{LARGEST_PAGE};
ghost use Rattle.name_lister.specs.Listing.{Lists};

use crate::answering::Running;
use crate::leavings::Leavings;
use crate::letting_go::{let_all_go, let_leavings_go};
use crate::lister::Lister;
use bridge_core::{Status, status_of, unopened};
use byte_io::{Sink, Source};
use disk_model::Disk;
use frame_loop::{Buffers, follow};
use nmc_base::{NoMemory, Steps};
use std::alloc::Global;
use std::marker::Brand;
use std::sync::ledger::{Blank, Ledger};

/// Opens the files, and then reads and answers frames by means of these buffers.
fn list_by<S: Source, K: Sink, D: Disk, L: Ledger, M: Ledger>(
    alloc: Global,
    buffers: &mut Buffers,
    source: &mut S,
    sink: &mut K,
    disk: &mut D,
    limit: u64,
    page: u32,
    leavings: Leavings,
    steps: &mut Steps<L>,
    mirror_steps: Steps<M>,
) -> Status
    requires limit { limit ≤ 2 ^ 40 }
    requires page { page ≤ LARGEST_PAGE }
    ensures { Lists page D.tells D.seen disk.new (outside (streams (S.seen source.old) (K.seen sink.old)) (D.seen disk.old))
        (outside (streams (S.seen source.new) (K.seen sink.new)) (D.seen disk.new)) limit result }
{
    let mut mirror_steps = mirror_steps;
    match Lister::open(alloc, disk, page, &mut mirror_steps) {
        Ok(lister) => {
            let mut running = Running::new(lister, leavings, mirror_steps);
            let ending = follow(
                alloc,
                &mut running,
                disk,
                buffers,
                source,
                sink,
                limit,
                steps,
            );
            let_all_go(running);
            status_of(ending)
        }
        Err(fault) => {
            let_leavings_go(leavings);
            unopened(fault)
        }
    }
}

/// What a run needs room for before it opens the files.
fn room(alloc: Global) -> Result<(Buffers, Leavings), NoMemory> {
    let buffers = Buffers::new(alloc)?;
    let leavings = Leavings::new(alloc)?;
    Ok((buffers, leavings))
}

/// A listing run whose steps are counted in the ledgers of the blanks, those for the mirror in the second.
fn list_counted<S: Source, K: Sink, D: Disk, L: Ledger, M: Ledger>(
    alloc: Global,
    source: &mut S,
    sink: &mut K,
    disk: &mut D,
    limit: u64,
    page: u32,
    blank: Blank,
    mirror_blank: Blank,
) -> Status
    requires limit { limit ≤ 2 ^ 40 }
    requires page { page ≤ LARGEST_PAGE }
    requires name { blank.name ≡ L.name }
    requires parts { blank.parts ≡ L.parts }
    requires some { 0 < blank.parts }
    requires mirror_name { mirror_blank.name ≡ M.name }
    requires mirror_parts { mirror_blank.parts ≡ M.parts }
    requires mirror_some { 0 < mirror_blank.parts }
    ensures { Lists page D.tells D.seen disk.new (outside (streams (S.seen source.old) (K.seen sink.old)) (D.seen disk.old))
        (outside (streams (S.seen source.new) (K.seen sink.new)) (D.seen disk.new)) limit result }
{
    let mut steps = Steps::<L>::new(blank);
    let mirror_steps = Steps::<M>::new(mirror_blank);
    let (buffers, leavings) = match room(alloc) {
        Ok(room) => room,
        Err(NoMemory) => return Status::NoMemory,
    };
    let mut buffers = buffers;
    list_by(
        alloc,
        &mut buffers,
        source,
        sink,
        disk,
        limit,
        page,
        leavings,
        &mut steps,
        mirror_steps,
    )
}

/// Opens the files of the disk, and then reads frames from the source, at most `limit` bytes, and answers each on the sink: those of a
/// replay as a replay does, and those of listing sessions, whose pages have so many rows.
///
/// Want of memory ends it before anything is read: also where the mirror of the index finds none.
pub fn list<S: Source, K: Sink, D: Disk>(
    alloc: Global,
    source: &mut S,
    sink: &mut K,
    disk: &mut D,
    limit: u64,
    page: u32,
) -> Status
    requires limit { limit ≤ 2 ^ 40 }
    requires page { page ≤ LARGEST_PAGE }
    ensures { Lists page D.tells D.seen disk.new (outside (streams (S.seen source.old) (K.seen sink.old)) (D.seen disk.old))
        (outside (streams (S.seen source.new) (K.seen sink.new)) (D.seen disk.new)) limit result }
{
    list_counted::<S, K, D, Brand, Brand>(
        alloc,
        source,
        sink,
        disk,
        limit,
        page,
        Blank::new(1),
        Blank::new(1),
    )
}
