//! A file after some of the calls that were kept, and what a crash then leaves of it.

// A file built again from the calls that a disk in memory keeps.
ghost use Rattle.std.specs.Prelude.{◌≡◌, ◌<◌, ◌+◌, ◌&&◌, ◌||◌, ℕ, List, false, true, length, replicate, slice_index, slice_index_or, nat_lt, nat_le, max, if◌then◌else◌, IfOk, OnOk};
ghost use Rattle.disk_model.specs.FileState.{FileState, synced_file};
ghost use Rattle.memory_disk.specs.Calls.{write_failed, effect_on, left_by, file_from, last_sync};
ghost use Rattle.memory_disk.specs.Touched.{leaves, touch};
ghost use Rattle.memory_disk.specs.Kept.{effect_of, failed_effect, calls_of, touched_of};
ghost use Rattle.memory_disk.specs.Chosen.{IsChosen};
ghost use Rattle.memory_disk.specs.Replays.{IsReplayed};

use crate::choice::Choice;
use crate::kept::{FailedEffect, KeptCall, KeptEffect};
use crate::put::put;
use crate::touched::TouchedFile;
use nmc_base::NoMemory;
use std::alloc::{AllocError, Global};

/// The file after some calls: its bytes, those of its last sync, which of its positions are settled (none
/// past the end of the list), and its greatest length since that sync.
#[derive(Drop)]
pub struct Replay {
    pub bytes: Vec<u8>,
    pub last_sync: Vec<u8>,
    pub settled: Vec<bool>,
    pub greatest: usize,
}

impl Replay {
    /// A file of these bytes after a sync.
    fn synced(alloc: Global, bytes: &[u8]) -> Result<Replay, NoMemory>
        ensures { IfOk result (λ replay. IsReplayed replay bytes.now (synced_file bytes.now)) }
    {
        Ok(Replay {
            bytes: Vec::from_slice(alloc, bytes)?,
            last_sync: Vec::from_slice(alloc, bytes)?,
            settled: vec![in alloc; true; bytes.len()]?,
            greatest: bytes.len(),
        })
    }

    /// The file after one more call to it.
    fn apply(&mut self, alloc: Global, effect: &KeptEffect) -> Result<(), NoMemory>
        ensures { OnOk result ((last : List ℕ) (file : FileState) → IsReplayed self.old last file
            → IsReplayed self.new (left_by (effect_of effect.now) file last) (effect_on (effect_of effect.now) file)) }
    {
        match effect {
            KeptEffect::Look => {}
            KeptEffect::Write(at, bytes) => {
                self.touch(*at, bytes.len() as u64)?;
                put(&mut self.bytes, *at as usize, bytes)?;
            }
            KeptEffect::Cut(count) => {
                self.settled.truncate(*count as usize);
                self.bytes.truncate(*count as usize);
            }
            KeptEffect::Sync => *self = Replay::synced(alloc, &self.bytes)?,
            KeptEffect::Failed(failed) => self.apply_failed(*failed)?,
        }
        Ok(())
    }

    /// The file after one more call to it that failed.
    fn apply_failed(&mut self, failed: FailedEffect) -> Result<(), NoMemory>
        ensures { OnOk result ((last : List ℕ) (file : FileState) → IsReplayed self.old last file
            → IsReplayed self.new last (effect_on (failed_effect failed) file)) }
    {
        match failed {
            FailedEffect::FailedLook => {}
            FailedEffect::FailedWrite(at, count) => self.touch(at, count)?,
            FailedEffect::FailedCut(count) => self.settled.truncate(count as usize),
        }
        Ok(())
    }

    /// The file after the calls that are kept together.
    fn apply_touched(&mut self, touched: &TouchedFile)
        ensures { (last : List ℕ) (file : FileState) → IsReplayed self.old last file
            → IsReplayed self.new last (touch (touched_of touched.now) file) }
    {
        keep_left(&mut self.settled, touched);
        self.greatest = self.greatest.max(touched.greatest as usize);
    }

    /// A write of so many bytes at a position settles none of them, and may make the file longer.
    fn touch(&mut self, at: u64, count: u64) -> Result<(), NoMemory>
        ensures { OnOk result ((last : List ℕ) (file : FileState) → IsReplayed self.old last file
            → IsReplayed self.new last (effect_on (write_failed at count) file)) }
    {
        self.greatest = reached(self.greatest, at, count)?;
        unsettle(&mut self.settled, at, count);
        Ok(())
    }

    /// The file after these calls, some of which name it.
    fn after(alloc: Global, first: &[u8], calls: &[KeptCall], file: u8) -> Result<Replay, NoMemory>
        ensures { IfOk result (λ replay. IsReplayed replay
            (last_sync file first.now (synced_file first.now) (calls_of calls.now))
            (file_from file (synced_file first.now) (calls_of calls.now))) }
    {
        let mut replay = Replay::synced(alloc, first)?;
        for call in calls {
            if call.file == file {
                replay.apply(alloc, &call.effect)?;
            }
        }
        Ok(replay)
    }

    /// One of the images that a crash now may leave.
    fn image(self, alloc: Global, choice: Choice) -> Result<Vec<u8>, NoMemory>
        ensures { IfOk result (λ image. (last : List ℕ) (file : FileState) → IsReplayed self last file → IsChosen choice file last image.items) }
    {
        match choice {
            Choice::Old => Ok(self.last_sync),
            Choice::New => Ok(self.bytes),
            Choice::Fill(byte) => filled(alloc, &self.bytes, &self.settled, self.greatest, byte),
        }
    }
}

/// The image of a file that held these bytes at first, after these calls, some of which name it, and, where
/// they count, after those that are kept together.
pub fn crash_image(
    alloc: Global,
    first: &Vec<u8>,
    calls: &[KeptCall],
    beside: &TouchedFile,
    is_beside: bool,
    file: u8,
    choice: Choice,
) -> Result<Vec<u8>, NoMemory>
    ensures { IfOk result (λ image. IsChosen choice
        (let listed = file_from file (synced_file first.now.items) (calls_of calls.now) in if is_beside then touch (touched_of beside.now) listed else listed)
        (last_sync file first.now.items (synced_file first.now.items) (calls_of calls.now)) image.items) }
{
    let mut replay = Replay::after(alloc, first, calls, file)?;
    if is_beside {
        replay.apply_touched(beside);
    }
    replay.image(alloc, choice)
}

/// So many bytes: those that are settled, and this one elsewhere.
fn filled(
    alloc: Global,
    bytes: &[u8],
    settled: &[bool],
    count: usize,
    byte: u8,
) -> Result<Vec<u8>, NoMemory>
    ensures length { IfOk result (λ image. length image.items ≡ count) }
    ensures bytes { IfOk result (λ image. (p : ℕ) → p < count
        → slice_index image.items p ≡ (if slice_index_or settled.now p false then slice_index bytes.now p else byte)) }
{
    let mut image = Vec::new(alloc);
    for p in 0..count {
        let is_settled = settled.get(p).copied().unwrap_or(false);
        let kept = bytes.get(p).copied().unwrap_or(0);
        image
            .push(if is_settled { kept } else { byte })
            .map_err(AllocError::from)?;
    }
    Ok(image)
}

/// Nothing is settled that the calls touched.
fn keep_left(settled: &mut [bool], touched: &TouchedFile)
    ensures { (p : ℕ) → slice_index_or settled.new p false ≡ (slice_index_or settled.old p false && leaves (touched_of touched.now) p) }
{
    for (p, mark) in settled.iter_mut().enumerate() {
        if !touched.leaves(p) {
            *mark = false;
        }
    }
}

/// A write of so many bytes at a position settles none of them.
pub fn unsettle(settled: &mut [bool], at: u64, count: u64)
    ensures { (p : ℕ) → slice_index_or settled.new p false
        ≡ (slice_index_or settled.old p false && (nat_lt p at || nat_le (at + count) p)) }
{
    for (p, mark) in settled.iter_mut().enumerate() {
        let place = p as u64;
        if place >= at && place - at < count {
            *mark = false;
        }
    }
}

/// The greatest length after a write that reached so far. The error is a length that no memory holds.
fn reached(greatest: usize, at: u64, count: u64) -> Result<usize, NoMemory>
    ensures { IfOk result (λ n. n ≡ max greatest (at + count)) }
{
    match at.checked_add(count) {
        Some(end) => Ok(greatest.max(end as usize)),
        None => Err(NoMemory),
    }
}
