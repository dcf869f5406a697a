//! A source in memory, whose listed reads fail.

ghost use Rattle.std.specs.Prelude.{◌≡◌, ◌++◌, length, min, take, drop, IfOk, MatchResult, is_err};
ghost use Rattle.byte_io.specs.Source.{Reads};
ghost use Rattle.memory_io.specs.MemorySource.{memory_seen};
ghost use Rattle.fault_counts.specs.Counts.{after_call, faults_of, fresh_counts, is_next_listed};
ghost use Rattle.fault_counts.specs.Faults.{no_faults};

use crate::front::copy_front;
use byte_io::{Failed, Source};
use fault_counts::FaultCounts;
use nmc_base::NoMemory;
use std::alloc::Global;
use std::marker::Model;

/// A source over bytes of its own, whose listed reads fail.
#[derive(Debug, Drop)]
pub struct MemorySource {
    bytes: Vec<u8>,
    // how many of them were read
    at: usize,
    counts: FaultCounts,
}

impl Model for MemorySource {
    ghost use Rattle.std.specs.Prelude.{drop};
    ghost use Rattle.memory_io.specs.MemorySource.{SourceView};

    ghost Value = { SourceView };

    ghost view = { λ s. record { left = drop s.at s.bytes.items; counts = s.counts } };

    ghost use Rattle.std.specs.Prelude.{◌≤◌, length};

    ghost invariant = { λ s. s.at ≤ length s.bytes.items };
}

impl MemorySource {
    /// A source of `bytes`, of which the reads whose numbers are in `fail` are to fail, counted from 1.
    pub fn new(alloc: Global, bytes: &[u8], fail: &[u64]) -> Result<MemorySource, NoMemory>
        ensures left { IfOk result (λ source. source.left ≡ bytes.now) }
        ensures counts { IfOk result (λ source. source.counts ≡ fresh_counts fail.now) }
        ensures faults { IfOk result (λ source. faults_of source.counts ≡ no_faults) }
    {
        Ok(MemorySource {
            bytes: Vec::from_slice(alloc, bytes)?,
            at: 0,
            counts: FaultCounts::new(alloc, fail)?,
        })
    }
}

impl Source for MemorySource {
    ghost seen = { memory_seen };

    /// Reads as many bytes as there are, up to the length of `buf`. A read fails exactly where its number
    /// is in the list.
    fn read(&mut self, buf: &mut [u8]) -> Result<usize, Failed>
        ensures reads { Reads (memory_seen self.old) (memory_seen self.new) buf.new result }
        ensures listed { is_err result ≡ is_next_listed self.old.counts }
        ensures counted { self.new.counts ≡ after_call self.old.counts }
        ensures amount { IfOk result (λ n. n ≡ min (length self.old.left) (length buf.old)) }
        ensures buffer { MatchResult result (λ n. buf.new ≡ take n self.old.left ++ drop n buf.old) (λ _. buf.new ≡ buf.old) }
    {
        if self.counts.next_call() {
            return Err(Failed);
        }
        let (_, left) = self.bytes.split_at(self.at);
        let count = copy_front(left, buf);
        self.at += count;
        Ok(count)
    }
}
