//! Reads an image that comes in pieces.

ghost use Rattle.std.specs.Prelude.{◌≡◌, ◌+◌, ◌≤◌, ◌^◌, ◌++◌, ℕ, List, [], length, Some, Err, IfOk};
ghost use Rattle.state_image.specs.Answers.{IsImageAnswer};
ghost use Rattle.state_image.specs.Loading.{Takes, HasRead, TakesOn, stop_of, fault_at};
ghost use Rattle.state_image.specs.Standing.{IsKept};
ghost use Rattle.state_image.specs.declared.fault.ImageFault.{ImageFault};

use crate::fault::ImageFault;
use crate::reading::Reading;
use name_tables::Parts;
use nmc_base::{Base, Bytes, NoMemory};
use std::alloc::Global;
use std::marker::Model;
use undo_records::fault::Stop;

/// Reads the image of a state that comes in pieces, in either version.
///
/// A text of version 1 leaves out the registration heights. They follow from its records, and are set before it is asked whether the
/// state is sound.
///
/// It holds back the bytes of one value at most, some 1,700, and no piece. Memory is taken for what was read, and none for a
/// number that stands in the text.
#[derive(Drop)]
pub struct Loader {
    alloc: Global,
    reading: Reading,
    /// The bytes of a value that isn't whole yet.
    pending: Bytes,
    /// How many bytes came.
    fed: u64,
    /// How many bytes are to come.
    total: u64,
    /// What every call answers from now on.
    stop: Option<ImageFault>,
}

impl Model for Loader {
    ghost use Rattle.state_image.specs.Loading.{Loading, loading_of, IsLoading};

    ghost Value = { Loading };

    ghost view = { λ l. loading_of l.reading l.pending l.fed l.total l.stop };

    ghost invariant = { λ l. IsLoading (loading_of l.reading l.pending l.fed l.total l.stop) };
}

/// Reads all whole values of what is held back and of the piece behind it, and holds the rest back.
fn take(
    alloc: Global,
    reading: &mut Reading,
    pending: &mut Bytes,
    fed: u64,
    bytes: &[u8],
) -> Result<(), ImageFault>
    requires { IsKept reading.old }
    ensures { TakesOn reading.old (pending.old ++ bytes.now) fed reading.new pending.new result }
{
    pending.extend(bytes)?;
    match reading.read(alloc, pending.as_slice()) {
        Ok(rest) => {
            let kept = Bytes::copy_of(alloc, rest)?;
            *pending = kept;
            Ok(())
        }
        Err(Stop::At(fault)) => Err(ImageFault::Damaged {
            at: fed.saturating_sub(fault.rest.len() as u64),
        }),
        Err(Stop::NoMemory) => Err(ImageFault::NoMemory),
    }
}

/// What stops the reading.
fn stop_of(read: &Result<(), ImageFault>) -> Option<ImageFault>
    ensures { result ≡ stop_of read.now }
{
    match read {
        Ok(()) => None,
        Err(fault) => Some(*fault),
    }
}

impl Loader {
    /// Nothing was fed of a text of so many bytes.
    pub fn new(alloc: Global, total: u64) -> Result<Loader, NoMemory>
        requires { total ≤ 2 ^ 37 }
        ensures read { IfOk result (λ loader. HasRead [] loader) }
        ensures total { IfOk result (λ loader. loader.total ≡ total) }
    {
        Ok(Loader {
            alloc,
            reading: Reading::new(alloc)?,
            pending: Bytes::new(alloc),
            fed: 0,
            total,
            stop: None,
        })
    }

    /// Takes the next piece of the text. A fault of form is told by the piece that shows it; that the text ends too early, or that the
    /// state isn't sound, is told by `finish`. After a fault every call answers the same.
    pub fn piece(&mut self, bytes: &[u8]) -> Result<(), ImageFault>
        requires { self.old.fed + length bytes.now ≤ self.old.total }
        ensures takes { (text : List ℕ) → HasRead text self.old → Takes (text ++ bytes.now) self.new result }
        ensures stays { (fault : ImageFault) → self.old.stop ≡ Some fault → (result ≡ Err fault) × (self.new.stop ≡ Some fault) }
        ensures fed { self.new.fed ≡ self.old.fed + length bytes.now }
        ensures total { self.new.total ≡ self.old.total }
    {
        self.fed += bytes.len() as u64;
        if let Some(fault) = self.stop {
            return Err(fault);
        }
        let read = take(
            self.alloc,
            &mut self.reading,
            &mut self.pending,
            self.fed,
            bytes,
        );
        self.stop = stop_of(&read);
        read
    }

    /// The fault, unless the text was read whole.
    fn fault(&self) -> Option<ImageFault>
        ensures { result ≡ fault_at self.now }
    {
        if let Some(fault) = self.stop {
            return Some(fault);
        }
        if self.reading.is_whole() {
            None
        } else {
            Some(ImageFault::Damaged { at: self.fed })
        }
    }

    /// The base and the parts, where the pieces are the text of a sound state in one of the versions.
    pub fn finish(self) -> Result<(Base, Parts), ImageFault>
        requires { self.fed ≡ self.total }
        ensures whole { (text : List ℕ) → HasRead text self → IsImageAnswer text result }
        ensures stays { (fault : ImageFault) → self.stop ≡ Some fault → result ≡ Err fault }
    {
        let fault = self.fault();
        let Loader { alloc, reading, .. } = self;
        match fault {
            Some(fault) => reading.give_up(fault),
            None => reading.settle(alloc),
        }
    }

    /// Lets go of what was read. Call it where a loader isn't finished: each place that drops one itself is dear to prove.
    pub fn let_go(self) {
        let Loader { reading, .. } = self;
        reading.let_go();
    }
}
