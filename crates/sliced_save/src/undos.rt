//! The records of a mirror.

ghost use Rattle.std.specs.Prelude.{◌≡◌, ◌++◌, ◌∷◌, ◌+◌, ◌-◌, ◌^◌, ◌<◌, ◌≤◌, [], Some, length, reverse, take, slice_get, IfOk, IfSome, OnOk};
ghost use Rattle.std.specs.Option.{option_map};
ghost use Rattle.chain_names.specs.Limits.{IsWithinLimits};
ghost use Rattle.chain_names.specs.Seen.{seen_undo};
ghost use Rattle.sliced_save.specs.Kept.{AreKeptUndos, IsKeptUndo, undos_length};
ghost use Rattle.sliced_save.specs.Steps.{newest_of};
ghost use Rattle.sliced_save.specs.declared.most.TheConstants.{MOST};

use crate::copies::copy_undo;
use crate::most::MOST;
use chain_names::Undo;
use image_writer::lengths::add_undo;
use nmc_base::{NoMemory, Steps};
use pin_views::SharedStack;
use std::alloc::Global;
use std::marker::Model;
use std::sync::ledger::Ledger;
use undo_records::widths::read_record;

/// The records of a mirror, and how long they are in an image.
///
/// Contracts see them without the spare room of their lists, that of the oldest block first. Each look-up, and each record that comes or
/// goes, is a step.
#[derive(Drop)]
pub(crate) struct MirrorUndos {
    stack: SharedStack<Undo>,
    len: u64,
}

impl Model for MirrorUndos {
    ghost use Rattle.std.specs.Prelude.{◌≡◌, ◌≤◌, List, map};
    ghost use Rattle.chain_names.specs.Seen.{seen_undo};
    ghost use Rattle.chain_names.specs.Undo.{UndoRecord};
    ghost use Rattle.sliced_save.specs.Kept.{AreKeptUndos, undos_length};
    ghost use Rattle.sliced_save.specs.declared.most.TheConstants.{MOST};

    ghost Value = { List UndoRecord };

    ghost view = { λ u. map seen_undo u.stack };

    ghost invariant = { λ u. AreKeptUndos (map seen_undo u.stack) × (u.len ≡ undos_length (map seen_undo u.stack)) × (u.len ≤ MOST) };
}

impl MirrorUndos {
    /// No record. It takes no memory.
    pub(crate) fn new() -> MirrorUndos
        ensures { result ≡ [] }
    {
        MirrorUndos {
            stack: SharedStack::new(),
            len: 0,
        }
    }

    /// How many records there are.
    pub(crate) fn count(&self) -> usize
        ensures { result ≡ length self.now }
    {
        self.stack.len()
    }

    /// How long they are in an image.
    pub(crate) fn text_len(&self) -> u64
        ensures length { result ≡ undos_length self.now }
        ensures most { result ≤ MOST }
        ensures kept { AreKeptUndos self.now }
    {
        self.len
    }

    /// The i-th record, counted from 0, that of the oldest block first, or None exactly past the end.
    pub(crate) fn at<L: Ledger>(&self, i: usize, steps: &mut Steps<L>) -> Option<&Undo>
        ensures undo { option_map (λ u. seen_undo u.now) result ≡ slice_get self.now i }
        ensures kept { IfSome result (λ u. IsKeptUndo (seen_undo u.now)) }
        ensures within { IfSome result (λ _. i + 1 < 2 ^ 64) }
        ensures cost { steps.new ≡ steps.old + 1 }
    {
        steps.tick();
        let _count = self.stack.len();
        match self.stack.at(i) {
            Some(undo) => Some(undo),
            None => None,
        }
    }

    /// The newest record, if there is one.
    pub(crate) fn newest<L: Ledger>(&self, steps: &mut Steps<L>) -> Option<&Undo>
        ensures undo { option_map (λ u. seen_undo u.now) result ≡ newest_of (reverse self.now) }
        ensures limits { IfSome result (λ u. IsWithinLimits (seen_undo u.now)) }
        ensures cost { steps.new ≤ steps.old + 1 }
    {
        let count = self.count();
        if count == 0 {
            return None;
        }
        match self.at(count - 1, steps) {
            Some(undo) => Some(undo),
            None => None,
        }
    }

    /// Equal records, which stay as they are whatever becomes of these. It takes no memory.
    pub(crate) fn pin(&self) -> Result<MirrorUndos, NoMemory>
        ensures { IfOk result (λ undos. undos ≡ self.now) }
    {
        let stack = self.stack.pin()?;
        let len = self.len;
        Ok(MirrorUndos { stack, len })
    }

    /// One record more, that of a newer block.
    pub(crate) fn push<L: Ledger>(
        &mut self,
        alloc: Global,
        undo: &Undo,
        steps: &mut Steps<L>,
    ) -> Result<(), NoMemory>
        requires { IsWithinLimits (seen_undo undo.now) }
        ensures undos { OnOk result (self.new ≡ self.old ++ seen_undo undo.now ∷ []) }
        ensures grows { steps.old ≤ steps.new }
        ensures cost { steps.new ≤ steps.old + 1 }
    {
        let len = add_undo(self.len, undo);
        if len > MOST {
            return Err(NoMemory);
        }
        read_record(undo);
        let copy = copy_undo(alloc, undo)?;
        steps.tick();
        self.stack.push(alloc, copy)?;
        self.len = len;
        Ok(())
    }

    /// How long the newest record is in an image; 0 where there is none.
    fn last_len<L: Ledger>(&self, steps: &mut Steps<L>) -> u64
        ensures length { result + undos_length (take (length self.now - 1) self.now) ≡ undos_length self.now }
        ensures cost { steps.new ≤ steps.old + 1 }
    {
        let count = self.stack.len();
        if count == 0 {
            return 0;
        }
        steps.tick();
        match self.stack.at(count - 1) {
            Some(undo) => add_undo(0, undo),
            None => 0,
        }
    }

    /// Takes the newest record away, if there is one. It takes no memory.
    pub(crate) fn pop<L: Ledger>(&mut self, steps: &mut Steps<L>)
        ensures undos { self.new ≡ take (length self.old - 1) self.old }
        ensures cost { steps.new ≤ steps.old + 2 }
    {
        self.len -= self.last_len(steps);
        steps.tick();
        self.stack.pop();
    }
}
