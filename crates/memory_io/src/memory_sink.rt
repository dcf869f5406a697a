//! A sink in memory, whose listed writes fail.

ghost use Rattle.std.specs.Prelude.{◌≡◌, ◌||◌, if◌then◌else◌, [], length, IfOk, IsErr, IsTrue, is_ok};
ghost use Rattle.fault_counts.specs.Counts.{
  after_call,
  after_refusal,
  faults_of,
  fresh_counts,
  is_next_listed,
};
ghost use Rattle.fault_counts.specs.Faults.{no_faults};
ghost use Rattle.byte_io.specs.Sink.{Writes};
ghost use Rattle.memory_io.specs.MemorySink.{memory_seen};

use byte_io::{Failed, Sink};
use fault_counts::FaultCounts;
use nmc_base::NoMemory;
use std::alloc::Global;
use std::marker::Model;

/// A sink that keeps what it takes, whose listed writes fail.
#[derive(Debug, Drop)]
pub struct MemorySink {
    taken: Vec<u8>,
    counts: FaultCounts,
}

impl Model for MemorySink {
    ghost use Rattle.memory_io.specs.MemorySink.{SinkView};

    ghost Value = { SinkView };

    ghost view = { λ s. record { taken = s.taken.items; counts = s.counts } };
}

impl MemorySink {
    /// A sink that took nothing yet, of which the writes whose numbers are in `fail` are to fail, counted
    /// from 1.
    pub fn new(alloc: Global, fail: &[u64]) -> Result<MemorySink, NoMemory>
        ensures taken { IfOk result (λ sink. sink.taken ≡ []) }
        ensures counts { IfOk result (λ sink. sink.counts ≡ fresh_counts fail.now) }
        ensures faults { IfOk result (λ sink. faults_of sink.counts ≡ no_faults) }
    {
        Ok(MemorySink {
            taken: Vec::new(alloc),
            counts: FaultCounts::new(alloc, fail)?,
        })
    }

    /// The bytes taken.
    pub fn taken(&self) -> &[u8]
        ensures { result.now ≡ self.now.taken }
    {
        self.taken.as_slice()
    }
}

impl Sink for MemorySink {
    ghost seen = { memory_seen };

    /// Takes the whole piece. A write whose number is in the list fails; any other fails only for want of
    /// memory.
    fn write(&mut self, piece: &[u8]) -> Result<usize, Failed>
        ensures writes { Writes (memory_seen self.old) (memory_seen self.new) piece.now result }
        ensures whole { IfOk result (λ n. n ≡ length piece.now) }
        ensures listed { IsTrue (is_next_listed self.old.counts) → IsErr result }
        // a write that isn't listed and fails found no memory
        ensures counted { self.new.counts ≡ (if is_ok result || is_next_listed self.old.counts then after_call self.old.counts else after_refusal (after_call self.old.counts)) }
    {
        if self.counts.next_call() {
            return Err(Failed);
        }
        match self.taken.extend_from_slice(piece) {
            Ok(()) => Ok(piece.len()),
            Err(_) => {
                self.counts.refuse();
                Err(Failed)
            }
        }
    }
}
