//! Notes each call as it is made.

// How a disk in memory counts a call and keeps it.
ghost use Rattle.std.specs.Prelude.{◌≡◌, ◌<◌, ◌∷◌, ◌++◌, [], false, vec_len, vec_capacity, IsTrue, IsFalse};
ghost use Rattle.fault_counts.specs.Counts.{faults_of, is_next_listed, after_call};
ghost use Rattle.fault_counts.specs.Faults.{NeverFell, Rose};
ghost use Rattle.memory_disk.specs.MemoryLog.{FailureIsCounted};
ghost use Rattle.memory_disk.specs.Kept.{EndsInRange};
ghost use Rattle.memory_disk.specs.Stored.{KeepsFailed};

use crate::kept::{FailedEffect, KeptCall, KeptEffect};
use crate::touched::TouchedFile;
use fault_counts::FaultCounts;

/// Counts a call, and takes room to keep it. True where it is to be done; then there is room. A full list
/// has none, and stays so.
pub fn begin(counts: &mut FaultCounts, calls: &mut Vec<KeptCall>, is_full: bool) -> bool
    ensures listed { IsTrue result → is_next_listed counts.old ≡ false }
    ensures counted { IsTrue result → counts.new ≡ after_call counts.old }
    ensures refused { IsFalse result → FailureIsCounted counts.old counts.new }
    ensures room { IsTrue result → vec_len calls.new < vec_capacity calls.new }
    ensures open { IsTrue result → is_full ≡ false }
    ensures calls { calls.new.items ≡ calls.old.items }
    ensures later { NeverFell (faults_of counts.old) (faults_of counts.new) }
    ensures cause { IsFalse result → Rose (faults_of counts.old) (faults_of counts.new) }
{
    if counts.next_call() {
        return false;
    }
    if takes_room(calls, is_full) {
        return true;
    }
    counts.refuse();
    false
}

/// Takes room for one call more where the list isn't full, and says whether it has it.
fn takes_room(calls: &mut Vec<KeptCall>, is_full: bool) -> bool
    ensures room { IsTrue result → vec_len calls.new < vec_capacity calls.new }
    ensures open { IsTrue result → is_full ≡ false }
    ensures calls { calls.new.items ≡ calls.old.items }
{
    if is_full {
        return false;
    }
    match calls.reserve(1) {
        Ok(()) => true,
        Err(_) => false,
    }
}

/// Keeps a call where there is room for it.
pub fn keep(calls: &mut Vec<KeptCall>, file: u8, effect: KeptEffect)
    requires { vec_len calls.old < vec_capacity calls.old }
    ensures { calls.new.items ≡ calls.old.items ++ record { file = file; effect = effect } ∷ [] }
{
    match calls.push(KeptCall { file, effect }) {
        Ok(()) => {}
        Err(_) => unreachable!(),
    }
}

/// Keeps a call that failed: in the list, or, where that has no room from now on, together with the others
/// that found none.
pub fn keep_failed(
    calls: &mut Vec<KeptCall>,
    is_full: &mut bool,
    touched: &mut [TouchedFile; 3],
    file: u8,
    failed: FailedEffect,
)
    requires file { file < 3 }
    requires range { EndsInRange failed }
    ensures { KeepsFailed file failed calls.old.items calls.new.items is_full.old is_full.new touched.old touched.new }
{
    if *is_full {
        return touched[file as usize].add(failed);
    }
    let effect = KeptEffect::Failed(failed);
    match calls.push(KeptCall { file, effect }) {
        Ok(()) => {}
        Err(_) => {
            *is_full = true;
            touched[file as usize].add(failed);
        }
    }
}
