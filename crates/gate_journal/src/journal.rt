//! A journal in a file: makes it, appends to it, opens it and reads its records.

ghost use Rattle.std.specs.Prelude.{◌≡◌, ◌+◌, ◌^◌, ◌<◌, ◌≤◌, true, length, IsTrue, IsErrOf};
ghost use Rattle.disk_model.specs.FileState.{IsSettled};
ghost use Rattle.disk_model.specs.DiskSeen.{file_in, bytes_in};
ghost use Rattle.gate_journal.specs.Stand.{IsAtGate, IsReadable};
ghost use Rattle.gate_journal.specs.Calls.{Creates, Appends, Opens, ReadsNext};

use crate::faults::{AppendFault, JournalFault};
use crate::gate::{CLOSED, open_behind};
use crate::reading::record_size;
use crate::staged::write_behind;
use disk_model::{Disk, Failed};
use nmc_base::Bytes;
use std::marker::Model;

/// A journal in a file of a disk, standing at one of its gates.
///
/// Its length is the number of bytes of the file up to and including that gate. After a fault of the disk
/// or a want of memory, give it up and open the file again.
#[derive(Drop)]
pub struct Journal {
    file: u8,
    length: u64,
    limit: u64,
    reached: bool,
}

impl Model for Journal {
    ghost use Rattle.std.specs.Prelude.{◌<◌};
    ghost use Rattle.gate_journal.specs.Stand.{Stand};

    ghost Value = { Stand };

    ghost view = { λ j. record { file = j.file; length = j.length; limit = j.limit; reached = j.reached } };

    ghost invariant = { λ j. (j.file < 3) × (0 < j.length) };
}

impl Journal {
    /// The journal of this length whose closed gate, its last byte, counts as reached. The disk is not
    /// asked.
    pub fn at_gate(file: u8, length: u64, limit: u64) -> Journal
        requires file { file < 3 }
        requires gate { 1 ≤ length }
        requires within { length ≤ limit }
        ensures { result ≡ record { file = file; length = length; limit = limit; reached = true } }
    {
        Journal {
            file,
            length,
            limit,
            reached: true,
        }
    }

    /// The number of bytes of the file up to and including the gate that the journal has come to.
    pub fn length(&self) -> u64
        ensures { result ≡ self.now.length }
    {
        self.length
    }

    /// Begins a journal: writes a closed gate at this place and syncs the file. That gate is reached.
    ///
    /// The error is a fault of the disk. The gate's byte may hold anything then.
    pub fn create<D: Disk>(disk: &mut D, file: u8, at: u64, limit: u64) -> Result<Journal, Failed>
        requires file { file < 3 }
        requires within { at < limit }
        requires inside { IsTrue D.tells → at ≤ length (bytes_in (D.seen disk.old) file) }
        ensures { Creates D.tells file at limit (D.seen disk.old) (D.seen disk.new) result }
    {
        disk.write_at(file, at, &[CLOSED])?;
        disk.sync(file)?;
        Ok(Journal::at_gate(file, at + 1, limit))
    }

    /// Appends a record of this head and body. A crash at any moment of the call leaves the records from
    /// before it, with the new one or without; after Ok each crash leaves the new one too.
    ///
    /// `Full` comes exactly where the record and a gate behind it would pass the limit; then the disk was not
    /// asked. A body of at most 4 KiB takes two writes, a longer one four; no memory is taken.
    pub fn append<D: Disk>(
        &mut self,
        disk: &mut D,
        head: &[u8],
        body: &[u8],
    ) -> Result<(), AppendFault>
        requires reached { IsTrue self.old.reached }
        requires at_gate { IsTrue D.tells → IsAtGate self.old (file_in (D.seen disk.old) self.old.file) }
        requires short { length head.now ≤ 8 }
        requires fits { length head.now + length body.now < 2 ^ 32 }
        ensures appends { Appends D.tells self.old self.new head.now body.now (D.seen disk.old) (D.seen disk.new) result }
        ensures untouched { IsErrOf result AppendFault.Full → disk.new ≡ disk.old }
    {
        let added = 5 + head.len() as u64 + body.len() as u64;
        if self.length > self.limit || self.limit - self.length < added {
            return Err(AppendFault::Full);
        }
        write_behind(disk, self.file, self.length, head, body)?;
        open_behind(disk, self.file, self.length - 1)?;
        self.length += added;
        Ok(())
    }

    /// Opens the journal whose first gate stands at this place. The file was synced and not written since.
    ///
    /// The gate is not looked at yet: read the records up to the first closed gate. `Damaged` comes exactly
    /// where that first gate does not lie inside the file. No memory is taken.
    pub fn open<D: Disk>(
        disk: &mut D,
        file: u8,
        at: u64,
        limit: u64,
    ) -> Result<Journal, JournalFault>
        requires file { file < 3 }
        requires settled { IsTrue D.tells → IsSettled (file_in (D.seen disk.old) file) }
        ensures { Opens D.tells file at limit (D.seen disk.old) (D.seen disk.new) result }
    {
        if disk.len(file)? <= at {
            return Err(JournalFault::Damaged { at });
        }
        Ok(Journal {
            file,
            length: at + 1,
            limit,
            reached: false,
        })
    }

    /// Reads the next record, head and body joined, into the list. False at a closed gate, which is then
    /// reached. A record that does not fit the file or the limit is damage at its gate, and costs no memory:
    /// `NoMemory` comes only for one that fits.
    /// After an error the journal stands where it stood; what the list holds then is not said.
    pub fn next_record<D: Disk>(
        &mut self,
        disk: &mut D,
        into: &mut Bytes,
    ) -> Result<bool, JournalFault>
        requires readable { IsTrue D.tells → IsReadable self.old (file_in (D.seen disk.old) self.old.file) }
        ensures { ReadsNext D.tells self.old self.new into.new (D.seen disk.old) (D.seen disk.new) result }
    {
        let gate = self.length - 1;
        let Some(size) = record_size(disk, self.file, gate, self.limit)? else {
            self.reached = true;
            return Ok(false);
        };
        into.zeros(size as usize)?;
        let count = disk.read(self.file, gate + 5, into.as_mut_slice())?;
        if (count as u64) < size {
            return Err(JournalFault::Damaged { at: gate });
        }
        self.length += 5 + size;
        self.reached = false;
        Ok(true)
    }
}
