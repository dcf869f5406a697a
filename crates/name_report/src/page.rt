//! Bytes that wait for a sink.

ghost use Rattle.std.specs.Prelude.{◌≡◌, ◌≤◌, [], length, IfOk, OnOk};
ghost use Rattle.frame_loop.specs.Delivery.{Delivers};
ghost use Rattle.name_report.specs.Page.{Puts, outgoing};
ghost use Rattle.name_report.specs.declared.page.TheConstants.{PAGE};

use byte_io::Sink;
use frame_loop::{Undelivered, deliver};
use nmc_base::NoMemory;
use std::alloc::Global;
use std::marker::Model;

/// How many bytes wait for the sink at most.
pub(crate) const PAGE: usize = 4096;

/// Bytes that wait for a sink, so that it isn't called for each piece. Contracts see the bytes.
#[derive(Drop)]
pub(crate) struct Page {
    held: Vec<u8>,
}

impl Model for Page {
    ghost use Rattle.std.specs.Prelude.{List, ℕ, ◌≤◌, length};
    ghost use Rattle.std.specs.Vec.{vec_capacity};
    ghost use Rattle.name_report.specs.declared.page.TheConstants.{PAGE};

    ghost Value = { List ℕ };

    ghost view = { λ p. p.held.items };

    ghost invariant = { λ p. (length p.held.items ≤ PAGE) × (PAGE ≤ vec_capacity p.held) };
}

impl Page {
    /// No bytes. All the memory that a report's text takes is taken here.
    pub(crate) fn new(alloc: Global) -> Result<Page, NoMemory>
        ensures { IfOk result (λ page. page ≡ []) }
    {
        Ok(Page {
            held: Vec::with_capacity(alloc, PAGE)?,
        })
    }

    /// Gives the sink what waits for it.
    pub(crate) fn flush<K: Sink>(&mut self, sink: &mut K) -> Result<(), Undelivered>
        ensures delivers { Delivers (K.seen sink.old) (K.seen sink.new) self.old result }
        ensures empty { OnOk result (self.new ≡ []) }
    {
        deliver(sink, &self.held)?;
        self.held.clear();
        Ok(())
    }

    /// Puts a piece behind what waits.
    pub(crate) fn put<K: Sink>(&mut self, sink: &mut K, piece: &[u8]) -> Result<(), Undelivered>
        requires { length piece.now ≤ PAGE }
        ensures { Puts (outgoing (K.seen sink.old) self.old) (outgoing (K.seen sink.new) self.new) piece.now result }
    {
        if PAGE - self.held.len() < piece.len() {
            self.flush(sink)?;
        }
        match self.held.extend_from_slice(piece) {
            Ok(()) => Ok(()),
            Err(_) => unreachable!(),
        }
    }
}
