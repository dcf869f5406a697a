//! Following all commands of an area, from its first gate on.
ghost use Rattle.std.specs.Prelude.{◌≡◌, ◌<◌, ◌≤◌, length, IsTrue, IfOk};
ghost use Rattle.disk_model.specs.FileState.{IsSettled};
ghost use Rattle.disk_model.specs.Moments.{EachMoment};
ghost use Rattle.disk_model.specs.Changes.{Unchanged};
ghost use Rattle.disk_model.specs.DiskSeen.{EndsWith, bytes_in, file_in};
ghost use Rattle.gate_journal.specs.Stand.{IsReadable};
ghost use Rattle.index_commands.specs.Reading.{FollowsArea, FollowsCommands, IsInArea};

use crate::reading::{Reading, read_all};
use chain_state::Chain;
use disk_model::Disk;
use gate_journal::{Journal, JournalFault};
use nmc_base::{Bytes, Steps};
use std::alloc::Global;
use std::marker::Brand;
use std::sync::ledger::{Blank, Ledger};

/// What stands behind the commands of an area.
#[derive(Drop)]
pub struct Followed {
    /// The index to which they lead.
    pub index: Chain,

    /// The length of the area in bytes, up to and including the closed gate behind the last command.
    pub length: u64,
}

/// The index behind all commands of the area in this file, from the first index on, and where its journal stands. The steps are counted
/// in the ledger of the blank.
fn follow_area<D: Disk, L: Ledger>(
    alloc: Global,
    disk: &mut D,
    file: u8,
    first: Chain,
    journal: Journal,
    blank: Blank,
) -> Result<Reading, JournalFault>
    requires area { IsInArea journal.limit file journal }
    requires readable { IsTrue D.tells → IsReadable journal (file_in (D.seen disk.old) file) }
    requires name { blank.name ≡ L.name }
    requires parts { blank.parts ≡ L.parts }
    requires some { 0 < blank.parts }
    ensures follows { FollowsArea D.tells journal.limit first journal (bytes_in (D.seen disk.old) file) result }
    ensures in_area { IfOk result (λ reading. IsInArea journal.limit file reading.journal) }
    ensures time { IsTrue D.tells → EachMoment (Unchanged (D.seen disk.old).moments.now) (D.seen disk.old).moments (D.seen disk.new).moments }
    ensures reads { (D.seen disk.new).changes ≡ (D.seen disk.old).changes }
    ensures ends { EndsWith JournalFault.DiskFault (D.seen disk.old) (D.seen disk.new) result }
{
    let reading = Reading {
        journal,
        chain: first,
        held: Bytes::new(alloc),
    };
    let mut steps = Steps::<L>::new(blank);
    read_all(reading, alloc, disk, file, &mut steps)
}

/// What stands behind the last command of a reading.
fn end_of(reading: Reading) -> Followed
    ensures { result ≡ record { index = reading.chain; length = reading.journal.length } }
{
    let Reading { journal, chain, .. } = reading;
    Followed {
        index: chain,
        length: journal.length(),
    }
}

/// Follows all commands of the area in this file, from the index on that stands before the first of them. Their first gate stands at this
/// place inside the file, which was synced and not written since. The area has no more bytes than `longest`.
///
/// `Damaged` comes exactly where at a command's turn an open gate is followed by no record that fits the file and the area, or by that of
/// no command that the index takes; the place is that of the gate. It asks for no write and no cut. Memory is taken for the index and for
/// one record at a time.
pub fn follow_commands<D: Disk>(
    alloc: Global,
    disk: &mut D,
    file: u8,
    gate: u64,
    first: Chain,
    longest: u64,
) -> Result<Followed, JournalFault>
    requires file { file < 3 }
    requires front { 8 ≤ gate }
    requires low { gate < longest }
    requires settled { IsTrue D.tells → IsSettled (file_in (D.seen disk.old) file) }
    requires inside { IsTrue D.tells → gate < length (bytes_in (D.seen disk.old) file) }
    ensures { FollowsCommands D.tells longest first file gate (D.seen disk.old) (D.seen disk.new) result }
{
    match Journal::open(disk, file, gate, longest) {
        Ok(journal) => {
            match follow_area::<D, Brand>(alloc, disk, file, first, journal, Blank::new(1)) {
                Ok(reading) => Ok(end_of(reading)),
                Err(fault) => Err(fault),
            }
        }
        Err(fault) => {
            first.let_go();
            Err(fault)
        }
    }
}
