//! Reading the commands of an area, one after the other.
ghost use Rattle.std.specs.Prelude.{◌≡◌, IsTrue, IfOk};
ghost use Rattle.disk_model.specs.Moments.{EachMoment};
ghost use Rattle.disk_model.specs.Changes.{Unchanged};
ghost use Rattle.disk_model.specs.DiskSeen.{EndsWith, file_in, bytes_in};
ghost use Rattle.gate_journal.specs.Stand.{IsReadable};
ghost use Rattle.index_commands.specs.Reading.{StepsOn, ReadsAll, IsInArea, MovesOn, reading_of};

use crate::following::{Unfollowed, follow};
use chain_state::Chain;
use disk_model::Disk;
use gate_journal::{Journal, JournalFault};
use nmc_base::{Bytes, Steps};
use std::alloc::Global;
use std::sync::ledger::Ledger;

/// What was read so far: where the journal stands, the index behind the commands, and room for one record.
#[derive(Drop)]
pub struct Reading {
    pub journal: Journal,
    pub chain: Chain,
    pub held: Bytes,
}

/// What came of reading one record.
#[derive(Drop)]
pub enum Stepped {
    /// A command was followed.
    More(Reading),

    /// There is none left.
    All(Reading),
}

/// Follows the next command of the area in this file.
fn step<D: Disk, L: Ledger>(
    reading: Reading,
    alloc: Global,
    disk: &mut D,
    file: u8,
    steps: &mut Steps<L>,
) -> Result<Stepped, JournalFault>
    requires area { IsInArea reading.journal.limit file reading.journal }
    requires readable { IsTrue D.tells → IsReadable reading.journal (file_in (D.seen disk.old) file) }
    ensures steps_on { StepsOn D.tells reading.journal.limit reading (bytes_in (D.seen disk.old) file) result }
    ensures moves { IfOk result (MovesOn reading.journal.limit file reading.journal) }
    ensures readable { IsTrue D.tells → IfOk result (λ stepped. IsReadable (reading_of stepped).journal (file_in (D.seen disk.new) file)) }
    ensures time { IsTrue D.tells → EachMoment (Unchanged (D.seen disk.old).moments.now) (D.seen disk.old).moments (D.seen disk.new).moments }
    ensures reads { (D.seen disk.new).changes ≡ (D.seen disk.old).changes }
    ensures ends { EndsWith JournalFault.DiskFault (D.seen disk.old) (D.seen disk.new) result }
{
    let Reading {
        mut journal,
        chain,
        mut held,
    } = reading;
    let at = journal.length() - 1;
    match journal.next_record(disk, &mut held) {
        Ok(more) => {
            if !more {
                return Ok(Stepped::All(Reading {
                    journal,
                    chain,
                    held,
                }));
            }
            match follow(alloc, chain, held.as_slice(), steps) {
                Ok(chain) => Ok(Stepped::More(Reading {
                    journal,
                    chain,
                    held,
                })),
                Err(Unfollowed::Refused) => Err(JournalFault::Damaged { at }),
                Err(Unfollowed::NoMemory) => Err(JournalFault::NoMemory),
            }
        }
        Err(fault) => {
            chain.let_go();
            Err(fault)
        }
    }
}

/// Follows all commands of the area in this file, up to its closed gate.
pub fn read_all<D: Disk, L: Ledger>(
    reading: Reading,
    alloc: Global,
    disk: &mut D,
    file: u8,
    steps: &mut Steps<L>,
) -> Result<Reading, JournalFault>
    requires area { IsInArea reading.journal.limit file reading.journal }
    requires readable { IsTrue D.tells → IsReadable reading.journal (file_in (D.seen disk.old) file) }
    ensures follows { ReadsAll D.tells reading.journal.limit reading (bytes_in (D.seen disk.old) file) result }
    ensures in_area { IfOk result (λ all. IsInArea reading.journal.limit file all.journal) }
    ensures time { IsTrue D.tells → EachMoment (Unchanged (D.seen disk.old).moments.now) (D.seen disk.old).moments (D.seen disk.new).moments }
    ensures reads { (D.seen disk.new).changes ≡ (D.seen disk.old).changes }
    ensures ends { EndsWith JournalFault.DiskFault (D.seen disk.old) (D.seen disk.new) result }
{
    let mut reading = reading;
    'records: loop {
        match step(reading, alloc, disk, file, steps) {
            Ok(Stepped::More(next)) => reading = next,
            Ok(Stepped::All(all)) => return Ok(all),
            Err(fault) => return Err(fault),
        }
    }
}
