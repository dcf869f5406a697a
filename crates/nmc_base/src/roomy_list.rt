//! A list with spare room.

ghost use Rattle.std.specs.Prelude.{◌≡◌, ◌++◌, ◌+◌, ◌<◌, ◌≤◌, ◌∷◌, [], length, slice_get, vec_len, vec_capacity, OnOk, OnErr, IfSome, IfNone};
ghost use Rattle.std.specs.Option.{option_copied};
ghost use Rattle.nmc_base.specs.Roomy.{Roomy};

use crate::byte_list::Bytes;
use crate::no_memory::NoMemory;
use std::alloc::Global;
use std::marker::Model;

/// A list with spare room: items can be pushed without taking memory, as many as room was reserved for.
///
/// Contracts see its items, and the number of those that it has room for besides.
#[derive(Drop)]
pub struct RoomyList<T> {
    held: Vec<T>,
    room: usize,
}

/// A list of lists of bytes.
pub type Words = RoomyList<Bytes>;

impl<T> Model for RoomyList<T> {
    ghost use Rattle.std.specs.Prelude.{◌+◌, ◌≤◌, vec_len, vec_capacity};
    ghost use Rattle.nmc_base.specs.Roomy.{Roomy};

    ghost Value = { Roomy T };

    ghost view = { λ l. record { items = l.held.items; spare = l.room } };

    ghost invariant = { λ l. vec_len l.held + l.room ≤ vec_capacity l.held };
}

fn widen<T>(held: &mut Vec<T>, more: usize) -> Result<(), NoMemory>
    ensures items { held.new.items ≡ held.old.items }
    ensures room { OnOk result (vec_len held.new + more ≤ vec_capacity held.new) }
    ensures err { OnErr result (vec_capacity held.new ≡ vec_capacity held.old) }
    ensures len { vec_len held.new ≡ vec_len held.old }
{
    if held.capacity() == 0 {
        held.reserve_exact(more)?;
    } else {
        held.reserve(more)?;
    }
    Ok(())
}

impl<T> RoomyList<T> {
    /// The empty list, with no spare room. It takes no memory.
    pub fn new(alloc: Global) -> RoomyList<T>
        ensures { result ≡ record { items = []; spare = 0 } }
    {
        RoomyList {
            held: Vec::new(alloc),
            room: 0,
        }
    }

    /// Makes room for `more` items. Where memory runs out, nothing changes.
    ///
    /// A list that never had any takes room for these alone, since many lists never hold more; one that grows takes room for as many
    /// as it has, at least.
    pub fn reserve(&mut self, more: usize) -> Result<(), NoMemory>
        ensures items { self.new.items ≡ self.old.items }
        ensures room { OnOk result (more ≤ self.new.spare) }
        ensures no_less { self.old.spare ≤ self.new.spare }
        ensures err { OnErr result (self.new ≡ self.old) }
    {
        if self.room < more {
            widen(&mut self.held, more)?;
            self.room = more;
        }
        Ok(())
    }

    /// Appends an item, which takes one of the places that were reserved, and no memory.
    pub fn push(&mut self, item: T)
        requires { 0 < self.old.spare }
        ensures items { self.new.items ≡ self.old.items ++ item ∷ [] }
        ensures spare { self.new.spare + 1 ≡ self.old.spare }
    {
        match self.held.push(item) {
            Ok(()) => {}
            Err(_) => unreachable!(),
        }
        self.room -= 1;
    }

    /// Takes the last item away, and answers None exactly where there is none. The spare room stays.
    pub fn pop(&mut self) -> Option<T>
        ensures some { IfSome result (λ item. self.old.items ≡ self.new.items ++ item ∷ []) }
        ensures none { IfNone result (self.old.items ≡ []) }
        ensures same { IfNone result (self.new ≡ self.old) }
        ensures spare { self.new.spare ≡ self.old.spare }
    {
        self.held.pop()
    }

    /// The number of items.
    pub fn len(&self) -> usize
        ensures { result ≡ length self.now.items }
    {
        self.held.len()
    }

    /// The i-th item, counted from 0, or None exactly past the end.
    pub fn item(&self, i: usize) -> Option<&T>
        ensures { option_copied result ≡ slice_get self.now.items i }
    {
        self.held.get(i)
    }

    /// The items.
    pub fn as_slice(&self) -> &[T]
        ensures { result.now ≡ self.now.items }
    {
        self.held.as_slice()
    }
}
