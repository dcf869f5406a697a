//! The disk in memory.

ghost use Rattle.std.specs.Prelude.{◌≡◌, ◌⊎◌, ◌<◌, ◌≤◌, ◌∷◌, ◌&&◌, true, false, [], ℕ, nat_lt, length, map, slice_index_or, OnErr, IfOk};
ghost use Rattle.fault_counts.specs.Counts.{after_refusal, faults_of};
ghost use Rattle.fault_counts.specs.Faults.{NeverFell, Rose};
ghost use Rattle.disk_model.specs.Moments.{IsImage};
ghost use Rattle.disk_model.specs.Reads.{seen, IsRead};
ghost use Rattle.disk_model.specs.DiskSeen.{bytes_in, Ends, Measures, ReadsAt, WritesAt, CutsTo, Syncs};
ghost use Rattle.memory_disk.specs.Calls.{call_on, after_call, looked, written, write_failed, cut_to, cut_failed, synced};
ghost use Rattle.memory_disk.specs.Kept.{failed_effect, touched_in, EndsInRange};
ghost use Rattle.memory_disk.specs.Stored.{IsStored};
ghost use Rattle.memory_disk.specs.MemoryLog.{fresh_log, moments_of, memory_seen, files_at, synced_at, KeepsCall, KeptInList, KeptTogether};
ghost use Rattle.memory_disk.specs.Chosen.{IsChosen};

use crate::choice::Choice;
use crate::kept::{FailedEffect, KeptCall, KeptEffect};
use crate::notes::{begin, keep, keep_failed};
use crate::put::put_copied;
use crate::replay::crash_image;
use crate::touched::TouchedFile;
use disk_model::{Disk, Failed};
use fault_counts::FaultCounts;
use nmc_base::NoMemory;
use std::alloc::Global;
use std::marker::Model;

/// A disk in memory. It keeps every call, so that it can say what a crash after any of them may leave.
///
/// The calls stand in a list. Once a call found no memory for its place there, the list is full for good:
/// every later call fails for want of memory, and the disk keeps what these calls touched together, which
/// takes no memory. So each call that failed has touched what it named, also where no memory was left.
#[derive(Drop)]
pub struct MemoryDisk {
    alloc: Global,
    first: [Vec<u8>; 3],
    files: [Vec<u8>; 3],
    calls: Vec<KeptCall>,
    is_full: bool,
    touched: [TouchedFile; 3],
    counts: FaultCounts,
    changes: u64,
}

impl Model for MemoryDisk {
    ghost use Rattle.std.specs.Prelude.{map, if◌then◌else◌, Some, None};
    ghost use Rattle.memory_disk.specs.MemoryLog.{DiskLog};
    ghost use Rattle.memory_disk.specs.Kept.{calls_of, touched_in};
    ghost use Rattle.memory_disk.specs.Stored.{IsStored};

    ghost Value = { DiskLog };

    ghost view = { λ d. record {
      first = map (λ v. v.items) d.first;
      calls = calls_of d.calls.items;
      together = if d.is_full then Some (touched_in d.touched) else None;
      counts = d.counts;
      changes = d.changes;
    } };

    ghost invariant = { λ d. IsStored (map (λ v. v.items) d.files) (map (λ v. v.items) d.first) (calls_of d.calls.items) d.is_full (touched_in d.touched) };
}

impl MemoryDisk {
    /// Three empty files, all of them settled, and the numbers of the calls that are to fail, counted
    /// from 1.
    pub fn new(alloc: Global, fail: &[u64]) -> Result<MemoryDisk, NoMemory>
        ensures { IfOk result (λ disk. disk ≡ fresh_log ([] ∷ ([] ∷ ([] ∷ []))) fail.now) }
    {
        let counts = FaultCounts::new(alloc, fail)?;
        Ok(MemoryDisk {
            alloc,
            first: [Vec::new(alloc), Vec::new(alloc), Vec::new(alloc)],
            files: [Vec::new(alloc), Vec::new(alloc), Vec::new(alloc)],
            calls: Vec::new(alloc),
            is_full: false,
            touched: [
                TouchedFile::of_nothing(alloc),
                TouchedFile::of_nothing(alloc),
                TouchedFile::of_nothing(alloc),
            ],
            counts,
            changes: 0,
        })
    }

    /// A disk as a crash after so many of its calls may leave it; a number above those in the list means
    /// all of them. `choice` says what stands where nothing is settled. No call of the new disk is to fail.
    ///
    /// The error is want of memory.
    pub fn image(&self, alloc: Global, calls: usize, choice: Choice) -> Result<MemoryDisk, NoMemory>
        ensures fresh { IfOk result (λ disk. disk ≡ fresh_log disk.first []) }
        ensures chosen { IfOk result (λ disk. (file : ℕ) → file < 3
            → IsChosen choice (files_at self.now calls file) (synced_at self.now calls file) (slice_index_or disk.first file [])) }
        ensures image { IfOk result (λ disk. IsImage (files_at self.now calls) (λ file. slice_index_or disk.first file [])) }
    {
        let zero = self.file_image(alloc, calls, 0, choice)?;
        let one = self.file_image(alloc, calls, 1, choice)?;
        let two = self.file_image(alloc, calls, 2, choice)?;
        MemoryDisk::holding(alloc, zero, one, two)
    }

    /// What a crash after so many of the calls may leave of one file.
    fn file_image(
        &self,
        alloc: Global,
        calls: usize,
        file: u8,
        choice: Choice,
    ) -> Result<Vec<u8>, NoMemory>
        requires { file < 3 }
        ensures { IfOk result (λ image. IsChosen choice (files_at self.now calls file) (synced_at self.now calls file) image.items) }
    {
        let kept = &self.calls[..calls.min(self.calls.len())];
        let is_beside = counts_beside(self.is_full, self.calls.len(), calls);
        let place = file as usize;
        crash_image(
            alloc,
            &self.first[place],
            kept,
            &self.touched[place],
            is_beside,
            file,
            choice,
        )
    }

    /// Three files of these bytes, all of them settled. No call is to fail.
    fn holding(
        alloc: Global,
        zero: Vec<u8>,
        one: Vec<u8>,
        two: Vec<u8>,
    ) -> Result<MemoryDisk, NoMemory>
        ensures { IfOk result (λ disk. disk ≡ fresh_log (zero.items ∷ (one.items ∷ (two.items ∷ []))) []) }
    {
        let counts = FaultCounts::new(alloc, &[])?;
        let (files, touched) = stored_anew(alloc, &zero, &one, &two)?;
        Ok(MemoryDisk {
            alloc,
            first: [zero, one, two],
            files,
            calls: Vec::new(alloc),
            is_full: false,
            touched,
            counts,
            changes: 0,
        })
    }
}

impl MemoryDisk {
    /// Keeps a call that found no memory, and counts that.
    fn lack_memory(&mut self, file: u8, failed: FailedEffect)
        requires file { file < 3 }
        requires range { EndsInRange failed }
        ensures first { self.new.first ≡ self.old.first }
        ensures counts { self.new.counts ≡ after_refusal self.old.counts }
        ensures changes { self.new.changes ≡ self.old.changes }
        ensures kept { KeptInList (call_on file (failed_effect failed)) self.old self.new ⊎ KeptTogether (call_on file (failed_effect failed)) self.old self.new }
        ensures rose { Rose (faults_of self.old.counts) (faults_of self.new.counts) }
        ensures later { NeverFell (faults_of self.old.counts) (faults_of self.new.counts) }
    {
        self.counts.refuse();
        self.fail(file, failed);
    }

    /// Keeps a call that failed and was counted.
    fn fail(&mut self, file: u8, failed: FailedEffect)
        requires file { file < 3 }
        requires range { EndsInRange failed }
        ensures first { self.new.first ≡ self.old.first }
        ensures counts { self.new.counts ≡ self.old.counts }
        ensures changes { self.new.changes ≡ self.old.changes }
        ensures kept { KeptInList (call_on file (failed_effect failed)) self.old self.new ⊎ KeptTogether (call_on file (failed_effect failed)) self.old self.new }
    {
        keep_failed(
            &mut self.calls,
            &mut self.is_full,
            &mut self.touched,
            file,
            failed,
        );
    }

    /// A call that leaves the file as it is.
    fn look(&mut self, file: u8) -> Result<(), Failed>
        requires { file < 3 }
        ensures kept { KeepsCall (call_on file looked) (call_on file looked) self.old self.new result }
        ensures ends { Ends (memory_seen self.old) (memory_seen self.new) result }
    {
        if !begin(&mut self.counts, &mut self.calls, self.is_full) {
            self.fail(file, FailedEffect::FailedLook);
            return Err(Failed);
        }
        keep(&mut self.calls, file, KeptEffect::Look);
        Ok(())
    }

    fn keep_write(&mut self, file: u8, at: u64, bytes: &[u8]) -> Result<(), Failed>
        requires file { file < 3 }
        requires inside { at ≤ length (seen (moments_of self.old) file) }
        ensures kept { KeepsCall (call_on file (written at bytes.now)) (call_on file (write_failed at (length bytes.now))) self.old self.new result }
        ensures ends { Ends (memory_seen self.old) (memory_seen self.new) result }
    {
        let failed = FailedEffect::FailedWrite(at, bytes.len() as u64);
        self.changes = self.changes.saturating_add(1);
        if !begin(&mut self.counts, &mut self.calls, self.is_full) {
            self.fail(file, failed);
            return Err(Failed);
        }
        let into = &mut self.files[file as usize];
        match put_copied(self.alloc, into, at as usize, bytes) {
            Ok(copy) => {
                keep(&mut self.calls, file, KeptEffect::Write(at, copy));
                Ok(())
            }
            Err(_) => {
                self.lack_memory(file, failed);
                Err(Failed)
            }
        }
    }

    fn keep_cut(&mut self, file: u8, len: u64) -> Result<(), Failed>
        requires { file < 3 }
        ensures kept { KeepsCall (call_on file (cut_to len)) (call_on file (cut_failed len)) self.old self.new result }
        ensures ends { Ends (memory_seen self.old) (memory_seen self.new) result }
    {
        self.changes = self.changes.saturating_add(1);
        if !begin(&mut self.counts, &mut self.calls, self.is_full) {
            self.fail(file, FailedEffect::FailedCut(len));
            return Err(Failed);
        }
        self.files[file as usize].truncate(len as usize);
        keep(&mut self.calls, file, KeptEffect::Cut(len));
        Ok(())
    }

    fn keep_sync(&mut self, file: u8) -> Result<(), Failed>
        requires { file < 3 }
        ensures kept { KeepsCall (call_on file synced) (call_on file looked) self.old self.new result }
        ensures ends { Ends (memory_seen self.old) (memory_seen self.new) result }
    {
        if !begin(&mut self.counts, &mut self.calls, self.is_full) {
            self.fail(file, FailedEffect::FailedLook);
            return Err(Failed);
        }
        let count = self.files[file as usize].len();
        match TouchedFile::nothing(self.alloc, count) {
            Ok(touched) => {
                self.touched[file as usize] = touched;
                keep(&mut self.calls, file, KeptEffect::Sync);
                Ok(())
            }
            Err(_) => {
                self.lack_memory(file, FailedEffect::FailedLook);
                Err(Failed)
            }
        }
    }
}

impl Disk for MemoryDisk {
    ghost tells = { true };

    ghost seen = { memory_seen };

    ghost use Rattle.memory_disk.specs.Sound.{shows_seen};

    ghost shows = { λ d file tells below. shows_seen d file };

    fn len(&mut self, file: u8) -> Result<u64, Failed>
        requires { file < 3 }
        ensures measures { Measures true file (memory_seen self.old) (memory_seen self.new) result }
        ensures kept { KeepsCall (call_on file looked) (call_on file looked) self.old self.new result }
    {
        self.look(file)?;
        Ok(self.files[file as usize].len() as u64)
    }

    fn read(&mut self, file: u8, at: u64, buf: &mut [u8]) -> Result<usize, Failed>
        requires { file < 3 }
        ensures reads { ReadsAt true file at (length buf.old) buf.new (memory_seen self.old) (memory_seen self.new) result }
        ensures kept { KeepsCall (call_on file looked) (call_on file looked) self.old self.new result }
    {
        self.look(file)?;
        Ok(read_at(&self.files[file as usize], at as usize, buf))
    }

    fn write_at(&mut self, file: u8, at: u64, bytes: &[u8]) -> Result<(), Failed>
        requires file { file < 3 }
        requires inside { at ≤ length (bytes_in (memory_seen self.old) file) }
        ensures writes { WritesAt true file at bytes.now (memory_seen self.old) (memory_seen self.new) result }
        ensures kept { KeepsCall (call_on file (written at bytes.now)) (call_on file (write_failed at (length bytes.now))) self.old self.new result }
        ensures touched { OnErr result ((moments_of self.new).now ≡ after_call (call_on file (write_failed at (length bytes.now))) (moments_of self.old).now) }
    {
        self.keep_write(file, at, bytes)
    }

    fn cut(&mut self, file: u8, len: u64) -> Result<(), Failed>
        requires file { file < 3 }
        requires inside { len ≤ length (bytes_in (memory_seen self.old) file) }
        ensures cuts { CutsTo true file len (memory_seen self.old) (memory_seen self.new) result }
        ensures kept { KeepsCall (call_on file (cut_to len)) (call_on file (cut_failed len)) self.old self.new result }
        ensures touched { OnErr result ((moments_of self.new).now ≡ after_call (call_on file (cut_failed len)) (moments_of self.old).now) }
    {
        self.keep_cut(file, len)
    }

    fn sync(&mut self, file: u8) -> Result<(), Failed>
        requires { file < 3 }
        ensures syncs { Syncs true file (memory_seen self.old) (memory_seen self.new) result }
        ensures kept { KeepsCall (call_on file synced) (call_on file looked) self.old self.new result }
    {
        self.keep_sync(file)
    }
}

/// What is stored of three files of these bytes before any call: the bytes again, none of them touched.
fn stored_anew(
    alloc: Global,
    zero: &[u8],
    one: &[u8],
    two: &[u8],
) -> Result<([Vec<u8>; 3], [TouchedFile; 3]), NoMemory>
    ensures { IfOk result (λ stored. IsStored (map (λ v. v.items) stored.0) (zero.now ∷ (one.now ∷ (two.now ∷ []))) [] false (touched_in stored.1)) }
{
    let files = [
        Vec::from_slice(alloc, zero)?,
        Vec::from_slice(alloc, one)?,
        Vec::from_slice(alloc, two)?,
    ];
    let touched = [
        TouchedFile::nothing(alloc, zero.len())?,
        TouchedFile::nothing(alloc, one.len())?,
        TouchedFile::nothing(alloc, two.len())?,
    ];
    Ok((files, touched))
}

/// Whether so many calls go past those in the list, and some are kept beside it.
fn counts_beside(is_full: bool, listed: usize, calls: usize) -> bool
    ensures { result ≡ (is_full && nat_lt listed calls) }
{
    is_full && listed < calls
}

/// Reads from a position on into the front of the buffer, and says how many bytes.
fn read_at(bytes: &[u8], at: usize, buf: &mut [u8]) -> usize
    ensures bound { result ≤ length buf.new }
    ensures bytes { IsRead bytes.now at (length buf.old) result buf.new }
{
    let (_, rest) = bytes.split_at(at.min(bytes.len()));
    let count = rest.len().min(buf.len());
    buf[..count].copy_from_slice(&rest[..count]);
    count
}
