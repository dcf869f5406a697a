//! A source over a slice, which never fails.

ghost use Rattle.std.specs.Prelude.{◌≡◌, ◌++◌, length, min, take, drop, IfOk, IsOk};
ghost use Rattle.byte_io.specs.Source.{Reads};
ghost use Rattle.memory_io.specs.MemorySource.{steady_seen};

use crate::front::copy_front;
use byte_io::{Failed, Source};
use std::marker::Model;

/// A source over a slice, which never fails.
#[derive(Debug, Drop)]
pub struct SteadySource<'a> {
    left: &'a [u8],
}

impl<'a> Model for SteadySource<'a> {
    ghost use Rattle.std.specs.Prelude.{List, ℕ};

    // the bytes left
    ghost Value = { List ℕ };

    ghost view = { λ s. s.left.now };
}

impl<'a> SteadySource<'a> {
    /// A source of `bytes`.
    pub fn new(bytes: &'a [u8]) -> SteadySource<'a>
        ensures { result ≡ bytes.now }
    {
        SteadySource { left: bytes }
    }
}

impl<'a> Source for SteadySource<'a> {
    ghost seen = { steady_seen };

    /// Reads as many bytes as there are, up to the length of `buf`, and never fails.
    fn read(&mut self, buf: &mut [u8]) -> Result<usize, Failed>
        ensures reads { Reads (steady_seen self.old) (steady_seen self.new) buf.new result }
        ensures ok { IsOk result }
        ensures amount { IfOk result (λ n. n ≡ min (length self.old) (length buf.old)) }
        ensures buffer { IfOk result (λ n. buf.new ≡ take n self.old ++ drop n buf.old) }
    {
        let count = copy_front(self.left, buf);
        let (_, left) = self.left.split_at(count);
        self.left = left;
        Ok(count)
    }
}
