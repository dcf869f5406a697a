//! What is held for one message, counted in bytes: the JSON, and one for each source that is asked for a label.

ghost use Rattle.std.specs.Prelude.{◌≡◌, ◌+◌, ◌<◌, ◌≤◌, length, IfOk, IfErr, OnOk};
ghost use Rattle.ifa_value.specs.Object.{members};
ghost use Rattle.ifa_value.specs.Values.{object_of};
ghost use Rattle.import_expand.specs.Costs.{entry_size};
ghost use Rattle.import_expand.specs.declared.exhausted.Exhausted.TheVariants.{Held as OfHeld};
ghost use Rattle.import_expand.specs.declared.limits.TheConstants.{MOST_HELD as GREATEST};

use crate::exhausted::Exhausted;
use crate::limits::MOST_HELD;
use crate::shared_object::SharedObject;
use crate::shelf::{Shelf, read_shelved};
use ifa_value::{IfaObject, read_value};
use std::alloc::Global;

/// The bytes of the values that were read and of the entries that were taken out of them, and one for each source that was asked. A
/// value whose object stands on the shelf counts as any other.
#[derive(Drop)]
pub(crate) struct Held {
    pub(crate) count: usize,
    /// Once a short value was read.
    shelf: Option<Shelf>,
    ghost few: { count ≤ GREATEST },
}

impl Held {
    /// Nothing is held, and no shelf is made.
    pub(crate) fn none() -> Held
        ensures { result.count ≡ 0 }
    {
        Held {
            count: 0,
            shelf: None,
        }
    }

    /// Lets go what is held. What stands on the shelf stays.
    pub(crate) fn clear(&mut self)
        ensures { self.new.count ≡ 0 }
    {
        self.count = 0;
    }

    /// Reads a value, and counts its bytes. It is looked for on the shelf, and kept there, if the caller says so.
    pub(crate) fn read(
        &mut self,
        alloc: Global,
        value: &[u8],
        by_shelf: bool,
    ) -> Result<SharedObject, Exhausted>
        ensures object { IfOk result (λ object. members object ≡ object_of value.now) }
        ensures counted { OnOk result (self.new.count ≡ self.old.count + length value.now) }
        // A value is refused where its bytes don't fit, and only there.
        ensures refused { IfErr result (λ e. e ≡ OfHeld → GREATEST < self.new.count + length value.now) }
    {
        if value.len() > MOST_HELD - self.count {
            return Err(Exhausted::Held);
        }
        self.count += value.len();
        let object = if by_shelf {
            read_shelved(alloc, value, &mut self.shelf)?
        } else {
            SharedObject::alone(read_value(alloc, value)?)
        };
        Ok(object)
    }

    /// Counts an entry.
    pub(crate) fn take(&mut self, entry: &IfaObject) -> Result<(), Exhausted>
        ensures counted { OnOk result (self.new.count ≡ self.old.count + entry_size (members entry.now)) }
        // It is refused where it doesn't fit, and only there.
        ensures refused { IfErr result (λ e. e ≡ OfHeld → GREATEST < self.new.count + entry_size (members entry.now)) }
    {
        let rest = entry.left_of(MOST_HELD - self.count + 1).saturating_sub(2);
        if rest == 0 {
            return Err(Exhausted::Held);
        }
        self.count = MOST_HELD + 1 - rest;
        Ok(())
    }

    /// Counts so many sources that are to be asked.
    pub(crate) fn ask(&mut self, sources: usize) -> Result<(), Exhausted>
        ensures counted { OnOk result (self.new.count ≡ self.old.count + sources) }
        // They are refused where they don't fit, and only there.
        ensures refused { IfErr result (λ e. (self.new ≡ self.old) × (GREATEST < self.new.count + sources)) }
    {
        if sources > MOST_HELD - self.count {
            return Err(Exhausted::Held);
        }
        self.count += sources;
        Ok(())
    }
}
