//! A map whose pins share its parts.

ghost use Rattle.std.specs.Prelude.{◌≡◌, [], IfOk, OnOk, OnErr, length, slice_get};
ghost use Rattle.std.specs.Option.{is_some, option_copied, option_map};
ghost use Rattle.shared_chunks.specs.Pairs.{AreInOrder, value_at, with_pair, without_key};

use crate::waste::MapWaste;
use nmc_base::NoMemory;
use shared_chunks::{Chunks, Hinted, Leaf, Level, Waste};
use std::alloc::Global;
use std::marker::Model;

/// A map in the order of its keys. A pin of it is an equal map over the same parts, and stays as it is whatever becomes of this
/// one. A change moves pointers to pairs and never a key or a value. Looking up, setting and taking out go down one way through
/// three levels.
///
/// Contracts see the list of its pairs, in strictly increasing order of keys.
#[derive(Drop)]
pub struct SharedMap<K: Hinted + Drop, V: Drop> {
    pairs: Chunks<K, V, Level<K, V, Level<K, V, Leaf<K, V>>>>,
}

impl<K: Hinted + Drop, V: Drop> Model for SharedMap<K, V> {
    ghost use Rattle.std.specs.Prelude.{List};

    ghost Value = { List (K × V) };

    ghost view = { λ m. m.pairs };
}

impl<K: Hinted + Drop, V: Drop> SharedMap<K, V> {
    /// No pair. It takes no memory.
    pub fn new() -> SharedMap<K, V>
        ensures { result ≡ [] }
    {
        SharedMap {
            pairs: Chunks::new(),
        }
    }

    /// The number of pairs.
    pub fn len(&self) -> usize
        ensures { result ≡ length self.now }
    {
        self.pairs.len()
    }

    /// The value at the key, or None exactly where no pair has an equal one.
    pub fn get(&self, key: &K) -> Option<&V>
        ensures value { option_copied result ≡ value_at K.cmp self.now key.now }
        ensures order { AreInOrder K.cmp self.now }
    {
        self.pairs.get(key)
    }

    /// The i-th pair, counted from 0 in the order of the keys, or None exactly past the end.
    pub fn at(&self, i: usize) -> Option<(&K, &V)>
        ensures pair { option_map (λ p. (p.0.now, p.1.now)) result ≡ slice_get self.now i }
        ensures order { AreInOrder K.cmp self.now }
    {
        self.pairs.at(i)
    }
}

impl<K: Hinted + Drop, V: Drop> SharedMap<K, V> {
    /// Puts the pair in its place, and takes that of an equal key away. Where memory runs out, nothing changes.
    pub fn set(&mut self, alloc: Global, key: K, value: V) -> Result<(), NoMemory>
        ensures ok { OnOk result (self.new ≡ with_pair K.cmp self.old key value) }
        ensures err { OnErr result (self.new ≡ self.old) }
        ensures order { AreInOrder K.cmp self.new }
    {
        self.pairs.set(alloc, key, value)
    }

    /// Takes the pair of the key out, and answers whether there was one. Where memory runs out, nothing changes.
    pub fn unset(&mut self, alloc: Global, key: &K) -> Result<bool, NoMemory>
        ensures ok { IfOk result (λ found. found ≡ is_some (value_at K.cmp self.old key.now)) }
        ensures map { OnOk result (self.new ≡ without_key K.cmp self.old key.now) }
        ensures err { OnErr result (self.new ≡ self.old) }
        ensures order { AreInOrder K.cmp self.new }
    {
        self.pairs.unset(alloc, key)
    }

    /// An equal map over the same nodes. It takes no memory: it is refused only where a node can count no further holder.
    pub fn pin(&self) -> Result<SharedMap<K, V>, NoMemory>
        ensures { IfOk result (λ m. m ≡ self.now) }
    {
        let pairs = self.pairs.pin()?;
        Ok(SharedMap { pairs })
    }

    /// What is to be let go of where the map is given up: nothing where another pin stands over the same parts. It takes no memory.
    pub fn into_waste(self) -> Option<MapWaste<K, V>> {
        let parts = Waste::of(self.pairs)?;
        Some(MapWaste { parts })
    }
}
