//! Which bytes of a file calls have touched.

// What calls that failed touched of a file, where no list has room for them: no memory is taken for that.
ghost use Rattle.std.specs.Prelude.{◌≡◌, ℕ, List, [], length, IfOk};
ghost use Rattle.disk_model.specs.FileState.{FileState, synced_file};
ghost use Rattle.memory_disk.specs.Calls.{effect_on};
ghost use Rattle.memory_disk.specs.Touched.{touch, leaves, LeavesAll};
ghost use Rattle.memory_disk.specs.Kept.{touched_of, failed_effect, EndsInRange};

use crate::kept::FailedEffect;
use crate::replay::unsettle;
use std::alloc::{AllocError, Global};

/// The positions that no write touched (none past the end of the list), the shortest length of a cut, and
/// the farthest end of a write.
#[derive(Drop)]
pub struct TouchedFile {
    pub outside: Vec<bool>,
    pub least: u64,
    pub greatest: u64,
}

impl TouchedFile {
    /// Nothing of a file of no bytes.
    pub fn of_nothing(alloc: Global) -> TouchedFile
        ensures { LeavesAll (touched_of result) (synced_file []) }
    {
        TouchedFile {
            outside: Vec::new(alloc),
            least: 0,
            greatest: 0,
        }
    }

    /// Nothing of a file of so many bytes, all of them settled.
    pub fn nothing(alloc: Global, count: usize) -> Result<TouchedFile, AllocError>
        ensures { IfOk result (λ touched. (bytes : List ℕ) → length bytes ≡ count → LeavesAll (touched_of touched) (synced_file bytes)) }
    {
        Ok(TouchedFile {
            outside: vec![in alloc; true; count]?,
            least: count as u64,
            greatest: 0,
        })
    }

    /// Adds what one more call named.
    pub fn add(&mut self, failed: FailedEffect)
        requires { EndsInRange failed }
        ensures { (s : FileState) → touch (touched_of self.new) s ≡ effect_on (failed_effect failed) (touch (touched_of self.old) s) }
    {
        match failed {
            FailedEffect::FailedLook => {}
            FailedEffect::FailedWrite(at, count) => {
                unsettle(&mut self.outside, at, count);
                self.greatest = self.greatest.max(at + count);
            }
            FailedEffect::FailedCut(len) => self.least = self.least.min(len),
        }
    }

    /// Whether none of the calls touched the position.
    pub fn leaves(&self, place: usize) -> bool
        ensures { result ≡ leaves (touched_of self.now) place }
    {
        let is_outside = self.outside.get(place).copied().unwrap_or(false);
        is_outside && (place as u64) < self.least
    }
}
