//! A stack whose pins share its nodes.

ghost use Rattle.std.specs.Prelude.{◌≡◌, ◌+◌, ◌-◌, ◌^◌, ◌<◌, ◌≤◌, ◌++◌, ◌∷◌, [], IfOk, OnOk, OnErr, nat_lt, length, take, slice_get};
ghost use Rattle.std.specs.Option.{option_copied};

use crate::pile::Pile;
use nmc_base::NoMemory;
use std::alloc::Global;
use std::marker::Model;
use std::rc::Rc;

/// A stack. A pin of it is an equal stack over the same nodes, and stays as it is whatever becomes of this one.
///
/// Contracts see the list of its items, the one at the top last.
#[derive(Drop)]
pub struct SharedStack<T> {
    // An item that was popped stays until the next push, since taking it out of what is shared could want memory.
    items: Pile<T>,
    count: usize,
}

impl<T> Model for SharedStack<T> {
    ghost use Rattle.std.specs.Prelude.{◌≤◌, List, length, take};

    ghost Value = { List T };

    ghost view = { λ s. take s.count s.items.items };

    ghost invariant = { λ s. s.count ≤ length s.items.items };
}

impl<T> SharedStack<T> {
    /// No item. It takes no memory.
    pub fn new() -> SharedStack<T>
        ensures { result ≡ [] }
    {
        SharedStack {
            items: Pile::new(),
            count: 0,
        }
    }

    /// Takes the item at the top away, and answers whether there was one. It takes no memory.
    pub fn pop(&mut self) -> bool
        ensures some { result ≡ nat_lt 0 (length self.old) }
        ensures items { self.new ≡ take (length self.old - 1) self.old }
    {
        if self.count == 0 {
            return false;
        }
        self.count -= 1;
        true
    }

    /// The number of items.
    pub fn len(&self) -> usize
        ensures { result ≡ length self.now }
    {
        self.count
    }

    /// The i-th item, counted from 0, the one at the top last, or None exactly past the end.
    pub fn at(&self, i: usize) -> Option<&T>
        ensures { option_copied result ≡ slice_get self.now i }
    {
        if i < self.count {
            self.items.item(i)
        } else {
            None
        }
    }
}

impl<T: Drop> SharedStack<T> {
    /// Puts an item on top. Where memory runs out, nothing changes.
    #[tactic(auto, using(crate::proofs::Placed::take_placed, crate::proofs::Placed::length_placed))]
    pub fn push(&mut self, alloc: Global, item: T) -> Result<(), NoMemory>
        ensures ok { OnOk result (self.new ≡ self.old ++ item ∷ []) }
        ensures err { OnErr result (self.new ≡ self.old) }
    {
        if self.count == usize::MAX {
            return Err(NoMemory);
        }
        let item = Rc::new(alloc, item)?;
        let items = self.items.put(alloc, self.count, item)?;
        self.items = items;
        self.count += 1;
        Ok(())
    }

    /// An equal stack over the same nodes. It takes no memory: it is refused only where a node can count no further holder.
    pub fn pin(&self) -> Result<SharedStack<T>, NoMemory>
        ensures { IfOk result (λ s. s ≡ self.now) }
    {
        let items = self.items.pin()?;
        let count = self.count;
        Ok(SharedStack { items, count })
    }
}
