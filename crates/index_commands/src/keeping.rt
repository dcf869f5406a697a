//! Keeping a command: its record is appended to the area.
ghost use Rattle.std.specs.Prelude.{ℕ, ◌+◌, ◌<◌, ◌≤◌, ◌∷◌, List, length, IsTrue};
ghost use Rattle.nmc_base.specs.declared.limits.TheConstants.{LONGEST_BLOCK};
ghost use Rattle.disk_model.specs.FileState.{IsSettled};
ghost use Rattle.disk_model.specs.DiskSeen.{file_in, bytes_in};
ghost use Rattle.chain_commands.specs.RunState.{record_length};
ghost use Rattle.index_commands.specs.Keeping.{HoldsRecords, Keeps};
ghost use Rattle.index_commands.specs.Records.{record_of};
ghost use Rattle.index_commands.specs.Views.{command_of, IsWithinLimits};

use crate::command::ChainCommand;
use disk_model::{Disk, Failed};
use gate_journal::{AppendFault, Journal};

/// Appends a record of this head and body to the area of this length in bytes, in this file, and says the new length, which is no more
/// than `longest`.
fn keep_record<D: Disk>(
    disk: &mut D,
    file: u8,
    area: u64,
    head: u8,
    body: &[u8],
    longest: u64,
) -> Result<u64, Failed>
    requires file { file < 3 }
    requires short { length body.now ≤ LONGEST_BLOCK }
    requires room { area + 6 + length body.now ≤ longest }
    requires settled { IsTrue D.tells → IsSettled (file_in (D.seen disk.old) file) }
    requires records { IsTrue D.tells → (image : List ℕ) × (records : List (List ℕ)) × HoldsRecords area image records (bytes_in (D.seen disk.old) file) }
    requires gate { 1 ≤ area }
    ensures { Keeps D.tells file area (head ∷ body.now) (D.seen disk.old) (D.seen disk.new) result }
{
    let mut journal = Journal::at_gate(file, area, longest);
    match journal.append(disk, &[head], body) {
        Ok(()) => Ok(journal.length()),
        Err(AppendFault::DiskFault) => Err(Failed),
        Err(AppendFault::Full) => unreachable!(),
    }
}

/// Keeps a command: appends its record to the area of this length in bytes, in this file, and says the new length, which is no more than
/// `longest`.
///
/// A crash meanwhile leaves the records of the area, with that one or without.
pub fn keep<D: Disk>(
    disk: &mut D,
    file: u8,
    area: u64,
    command: ChainCommand<'_>,
    longest: u64,
) -> Result<u64, Failed>
    requires file { file < 3 }
    requires within { IsWithinLimits command }
    requires room { area + record_length (command_of command) ≤ longest }
    requires settled { IsTrue D.tells → IsSettled (file_in (D.seen disk.old) file) }
    requires records { IsTrue D.tells → (image : List ℕ) × (records : List (List ℕ)) × HoldsRecords area image records (bytes_in (D.seen disk.old) file) }
    requires gate { 1 ≤ area }
    ensures { Keeps D.tells file area (record_of (command_of command.entry)) (D.seen disk.old) (D.seen disk.new) result }
{
    keep_record(disk, file, area, command.head(), command.body(), longest)
}
