//! Counts calls that failed.

ghost use Rattle.std.specs.Prelude.{◌≡◌, true, false, IfOk, OnOk, OnErr};
ghost use Rattle.fault_counts.specs.Counts.{counted};
ghost use Rattle.fault_counts.specs.Faults.{HasCause, NeverFell, Rose};

use std::io;

/// How many calls of an object failed, and whether the last one did. The count stays at `u64::MAX`, its last value.
#[derive(Drop)]
pub(crate) struct Tally {
    faults: u64,
    failed: bool,
}

impl Tally {
    /// No call was made yet.
    pub(crate) fn new() -> Self
        ensures faults { result.faults ≡ 0 }
        ensures failed { result.failed ≡ false }
    {
        Tally {
            faults: 0,
            failed: false,
        }
    }

    /// Notes a call that worked.
    pub(crate) fn note_done(&mut self)
        ensures faults { self.new.faults ≡ self.old.faults }
        ensures failed { self.new.failed ≡ false }
    {
        self.failed = false;
    }

    /// Counts a call that failed.
    pub(crate) fn note_failed(&mut self)
        ensures later { NeverFell (counted self.old.faults) (counted self.new.faults) }
        ensures rose { Rose (counted self.old.faults) (counted self.new.faults) }
        ensures failed { self.new.failed ≡ true }
    {
        self.faults = self.faults.saturating_add(1);
        self.failed = true;
    }

    /// Notes a call by its answer. Its error is this one from then on.
    pub(crate) fn count<T, E: Copy>(&mut self, answer: io::Result<T>, failed: E) -> Result<T, E>
        ensures cause { HasCause (counted self.old.faults) (counted self.new.faults) result }
        ensures worked { OnOk result (self.new.failed ≡ false) }
        ensures none { OnOk result (counted self.new.faults ≡ counted self.old.faults) }
        ensures last { OnErr result (self.new.failed ≡ true) }
        ensures same { IfOk result (λ value. answer ≡ Ok value) }
    {
        match answer {
            Ok(value) => {
                self.note_done();
                Ok(value)
            }
            Err(_) => {
                self.note_failed();
                Err(failed)
            }
        }
    }
}
