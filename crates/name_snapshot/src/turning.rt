//! The steps of a reading.

ghost use Rattle.std.specs.Prelude.{◌≡◌, ◌↔◌, ◌+◌, ◌<◌, ◌≤◌, List, length, IsTrue};
ghost use Rattle.std.specs.Prelude.{IfOk, IfSome};
ghost use Rattle.nmc_base.specs.Heights.{highest};
ghost use Rattle.name_snapshot.specs.Standing.{IsBehind};
ghost use Rattle.name_snapshot.specs.Text.{StartMake};
ghost use Rattle.name_snapshot.specs.Turning.{Steps, ReadsWhole};

use crate::head::head_at;
use crate::makes::next_at;
use crate::next::Next;
use crate::putting::put_make;
use crate::reading::{Reading, fault_of};
use std::alloc::Global;
use undo_records::coins::bad_tag;
use undo_records::fault::Stop;

impl Reading {
    /// Whether all was read.
    pub(crate) fn is_whole(&self) -> bool
        ensures { IsTrue result ↔ (self.now.next ≡ Next.Makes 0) }
    {
        match self.next {
            Next::Makes { left } => left == 0,
            Next::Head => false,
        }
    }

    /// The head.
    fn read_head<'a>(&mut self, bytes: &'a [u8]) -> Result<Option<&'a [u8]>, Stop<'a>>
        requires next { self.old.next ≡ Next.Head }
        ensures steps { (below : List StartMake) → IsBehind below self.old → Steps below self.old bytes.entry.now self.new result }
        ensures base { self.new.base ≡ self.old.base }
        ensures ends { IfOk result (λ after. IfSome after (λ rest. length rest.now < length bytes.entry.now)) }
    {
        match head_at(bytes) {
            Ok((makes, rest)) => {
                self.next = Next::Makes { left: makes };
                Ok(Some(rest))
            }
            Err(fault) => fault_of(fault),
        }
    }

    /// The next make, of which so many are left behind it.
    fn read_make<'a>(
        &mut self,
        alloc: Global,
        left: u32,
        bytes: &'a [u8],
    ) -> Result<Option<&'a [u8]>, Stop<'a>>
        requires next { self.old.next ≡ Next.Makes (left + 1) }
        requires low { self.old.base.height ≤ highest }
        ensures steps { (below : List StartMake) → IsBehind below self.old → Steps below self.old bytes.entry.now self.new result }
        ensures base { self.new.base ≡ self.old.base }
        ensures ends { IfOk result (λ after. IfSome after (λ rest. length rest.now < length bytes.entry.now)) }
    {
        match next_at(&self.base, self.last, &self.tables.names, bytes) {
            Ok((make, rest)) => {
                put_make(alloc, &mut self.tables, make)?;
                self.last = Some(make.at);
                self.next = Next::Makes { left };
                Ok(Some(rest))
            }
            Err(fault) => fault_of(fault),
        }
    }

    /// Nothing may follow the last make.
    fn end<'a>(&self, bytes: &'a [u8]) -> Result<Option<&'a [u8]>, Stop<'a>>
        requires { self.now.next ≡ Next.Makes 0 }
        ensures steps { (below : List StartMake) → Steps below self.now bytes.entry.now self.now result }
        ensures ends { IfOk result (λ after. IfSome after (λ rest. length rest.now < length bytes.entry.now)) }
    {
        if bytes.is_empty() {
            Ok(None)
        } else {
            Err(Stop::At(bad_tag(bytes)))
        }
    }

    /// One step.
    fn step<'a>(&mut self, alloc: Global, bytes: &'a [u8]) -> Result<Option<&'a [u8]>, Stop<'a>>
        requires { self.old.base.height ≤ highest }
        ensures steps { (below : List StartMake) → IsBehind below self.old → Steps below self.old bytes.entry.now self.new result }
        ensures base { self.new.base ≡ self.old.base }
        ensures ends { IfOk result (λ after. IfSome after (λ rest. length rest.now < length bytes.entry.now)) }
    {
        match self.next {
            Next::Head => self.read_head(bytes),
            Next::Makes { left } => match left.checked_sub(1) {
                Some(left) => self.read_make(alloc, left, bytes),
                None => self.end(bytes),
            },
        }
    }

    /// Reads all that is whole at the front, and answers the bytes behind it.
    pub(crate) fn read<'a>(&mut self, alloc: Global, bytes: &'a [u8]) -> Result<&'a [u8], Stop<'a>>
        requires { self.old.base.height ≤ highest }
        ensures reads { (below : List StartMake) → IsBehind below self.old → ReadsWhole below self.old bytes.entry.now self.new result }
        ensures base { self.new.base ≡ self.old.base }
    {
        let mut rest = bytes;
        while let Some(after) = self.step(alloc, rest)? {
            rest = after;
        }
        Ok(rest)
    }
}
