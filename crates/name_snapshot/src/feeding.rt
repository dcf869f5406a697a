//! Reads a snapshot that comes in pieces.

ghost use Rattle.std.specs.Prelude.{◌≡◌, ◌+◌, ◌<◌, ◌≤◌, ◌^◌, ◌++◌, ℕ, List, [], length, Some, Err, IfOk, OnOk};
ghost use Rattle.nmc_base.specs.Heights.{highest};
ghost use Rattle.name_snapshot.specs.Answers.{IsSnapshotAnswer};
ghost use Rattle.name_snapshot.specs.Feeding.{Takes, HasRead, TakesOn, stop_of, fault_at};
ghost use Rattle.name_snapshot.specs.Standing.{IsBehind};
ghost use Rattle.name_snapshot.specs.Text.{StartMake};
ghost use Rattle.name_snapshot.specs.declared.fault.SnapshotFault.{SnapshotFault};

use crate::fault::SnapshotFault;
use crate::reading::Reading;
use name_tables::Parts;
use nmc_base::{Base, Bytes, NoMemory};
use std::alloc::Global;
use std::marker::Model;
use undo_records::fault::Stop;

/// Reads a snapshot on a base, which comes in pieces.
///
/// It holds back the bytes of one make at most, fewer than 1,322, and no piece. Memory is taken for what was read, and none for the
/// number of makes that the text tells.
#[derive(Drop)]
pub struct Snapshot {
    alloc: Global,
    reading: Reading,
    /// The bytes of the head or of a make that isn't whole yet.
    pending: Bytes,
    /// How many bytes came.
    fed: u64,
    /// What every call answers from now on.
    stop: Option<SnapshotFault>,
}

impl Model for Snapshot {
    ghost use Rattle.name_snapshot.specs.Feeding.{Feeding, feeding_of, IsFeeding};

    ghost Value = { Feeding };

    ghost view = { λ s. feeding_of s.reading s.pending s.fed s.stop };

    ghost invariant = { λ s. IsFeeding (feeding_of s.reading s.pending s.fed s.stop) };
}

/// Reads all that is whole of what is held back and of the piece behind it, and holds the rest back.
fn take(
    alloc: Global,
    reading: &mut Reading,
    pending: &mut Bytes,
    fed: u64,
    bytes: &[u8],
) -> Result<(), SnapshotFault>
    requires { reading.old.base.height ≤ highest }
    ensures takes { (below : List StartMake) → IsBehind below reading.old → TakesOn below reading.old (pending.old ++ bytes.now) fed reading.new pending.new result }
    ensures base { reading.new.base ≡ reading.old.base }
{
    pending.extend(bytes)?;
    match reading.read(alloc, pending.as_slice()) {
        Ok(rest) => {
            let kept = Bytes::copy_of(alloc, rest)?;
            *pending = kept;
            Ok(())
        }
        Err(Stop::At(fault)) => Err(SnapshotFault::Bad {
            at: fed.saturating_sub(fault.rest.len() as u64),
        }),
        Err(Stop::NoMemory) => Err(SnapshotFault::NoMemory),
    }
}

/// What stops the reading.
fn stop_of(read: &Result<(), SnapshotFault>) -> Option<SnapshotFault>
    ensures { result ≡ stop_of read.now }
{
    match read {
        Ok(()) => None,
        Err(fault) => Some(*fault),
    }
}

impl Snapshot {
    /// Nothing was fed of a snapshot on the base.
    pub fn new(alloc: Global, base: &Base) -> Result<Snapshot, NoMemory>
        requires { base.now.height ≤ highest }
        ensures read { IfOk result (λ snapshot. HasRead [] snapshot) }
        ensures base { IfOk result (λ snapshot. snapshot.base ≡ base.now) }
    {
        Ok(Snapshot {
            alloc,
            reading: Reading::new(alloc, *base)?,
            pending: Bytes::new(alloc),
            fed: 0,
            stop: None,
        })
    }

    /// Takes the next piece of the text. A fault is told by the piece that shows it; that the text ends too early is told by `finish`.
    /// After a fault every call answers the same.
    pub fn piece(&mut self, bytes: &[u8]) -> Result<(), SnapshotFault>
        requires { self.old.fed + length bytes.now < 2 ^ 64 }
        ensures takes { (text : List ℕ) → HasRead text self.old → Takes (text ++ bytes.now) self.new result }
        ensures stays { (fault : SnapshotFault) → self.old.stop ≡ Some fault → (result ≡ Err fault) × (self.new.stop ≡ Some fault) }
        // Bytes of one make at most are held back, whatever number of makes the text tells.
        ensures held { OnOk result (length self.new.pending < 1322) }
        ensures fed { self.new.fed ≡ self.old.fed + length bytes.now }
        ensures base { self.new.base ≡ self.old.base }
    {
        self.fed += bytes.len() as u64;
        if let Some(fault) = self.stop {
            return Err(fault);
        }
        let read = take(
            self.alloc,
            &mut self.reading,
            &mut self.pending,
            self.fed,
            bytes,
        );
        self.stop = stop_of(&read);
        read
    }

    /// The fault, unless the text was read whole.
    fn fault(&self) -> Option<SnapshotFault>
        ensures { result ≡ fault_at self.now }
    {
        if let Some(fault) = self.stop {
            return Some(fault);
        }
        if self.reading.is_whole() {
            None
        } else {
            Some(SnapshotFault::Bad { at: self.fed })
        }
    }

    /// The parts of the chain of no blocks that starts with the makes, where the pieces are a snapshot.
    pub fn finish(self) -> Result<Parts, SnapshotFault>
        ensures whole { (text : List ℕ) → HasRead text self → IsSnapshotAnswer self.base text result }
        ensures stays { (fault : SnapshotFault) → self.stop ≡ Some fault → result ≡ Err fault }
    {
        let fault = self.fault();
        let Snapshot { alloc, reading, .. } = self;
        match fault {
            Some(fault) => {
                reading.let_go(alloc);
                Err(fault)
            }
            None => Ok(reading.split(alloc)),
        }
    }

    /// Lets go of what was read. Call it where a snapshot isn't finished: each place that drops one itself is dear to prove.
    pub fn let_go(self) {
        let Snapshot { alloc, reading, .. } = self;
        reading.let_go(alloc);
    }
}
