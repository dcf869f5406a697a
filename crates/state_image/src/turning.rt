//! The steps of a reading.

ghost use Rattle.std.specs.Prelude.{◌≡◌, ◌≢◌, ◌↔◌, IsTrue, OnOk};
ghost use Rattle.state_image.specs.Standing.{IsKept};
ghost use Rattle.state_image.specs.Turning.{Turns, Steps, ReadsOn};

use crate::next::Next;
use crate::reading::Reading;
use std::alloc::Global;
use undo_records::coins::bad_tag;
use undo_records::fault::Stop;

impl Reading {
    /// Whether all was read.
    pub(crate) fn is_whole(&self) -> bool
        ensures { IsTrue result ↔ (self.now.next ≡ Next.Names 0) }
    {
        match self.next {
            Next::Names { names } => names == 0,
            Next::Head
            | Next::Undos { .. }
            | Next::Ops { .. }
            | Next::ExpiredCount { .. }
            | Next::Expired { .. }
            | Next::CoinCount
            | Next::Coins { .. }
            | Next::NameCount
            | Next::Items { .. } => false,
        }
    }

    /// Reads the next value, or goes on to the next list.
    fn turn<'a>(&mut self, alloc: Global, bytes: &'a [u8]) -> Result<Option<&'a [u8]>, Stop<'a>>
        requires kept { IsKept self.old }
        ensures turns { Turns self.old bytes.entry.now self.new result }
        ensures kept { OnOk result (IsKept self.new) }
    {
        match self.next {
            Next::Head => self.read_head(bytes),
            Next::Undos { undos } => self.read_undo(alloc, undos, bytes),
            Next::Ops { ops, undos } => self.read_op(alloc, ops, undos, bytes),
            Next::ExpiredCount { undos } => self.read_expired_count(undos, bytes),
            Next::Expired { expired, undos } => self.read_expired(alloc, expired, undos, bytes),
            Next::CoinCount => self.read_coin_count(bytes),
            Next::Coins { coins } => self.read_coin(alloc, coins, bytes),
            Next::NameCount => self.read_name_count(bytes),
            Next::Names { names } => self.read_name(alloc, names, bytes),
            Next::Items { items, names } => self.read_item(alloc, items, names, bytes),
        }
    }

    /// Nothing may follow the last name.
    fn end<'a>(&self, bytes: &'a [u8]) -> Result<Option<&'a [u8]>, Stop<'a>>
        requires { self.now.next ≡ Next.Names 0 }
        ensures { Steps self.now bytes.entry.now self.now result }
    {
        if bytes.is_empty() {
            Ok(None)
        } else {
            Err(Stop::At(bad_tag(bytes)))
        }
    }

    /// One step.
    fn step<'a>(&mut self, alloc: Global, bytes: &'a [u8]) -> Result<Option<&'a [u8]>, Stop<'a>>
        requires kept { IsKept self.old }
        ensures steps { Steps self.old bytes.entry.now self.new result }
        ensures kept { OnOk result (IsKept self.new) }
    {
        if self.is_whole() {
            return self.end(bytes);
        }
        self.turn(alloc, bytes)
    }

    /// Reads all whole values at the front, and answers the bytes behind them.
    pub(crate) fn read<'a>(&mut self, alloc: Global, bytes: &'a [u8]) -> Result<&'a [u8], Stop<'a>>
        requires kept { IsKept self.old }
        ensures reads { ReadsOn self.old bytes.entry.now self.new result }
        ensures kept { OnOk result (IsKept self.new) }
    {
        let mut rest = bytes;
        while let Some(after) = self.step(alloc, rest)? {
            rest = after;
        }
        Ok(rest)
    }
}
