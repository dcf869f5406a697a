//! What a leaf and a level have in common.

ghost use Rattle.std.specs.Prelude.{◌≡◌, ◌+◌, ◌^◌, ◌<◌, ◌++◌, ◌∷◌, [], List, length, cond, IfOk, OnOk, OnErr, slice_get};
ghost use Rattle.std.specs.Option.{is_some, option_copied};
ghost use Rattle.shared_chunks.specs.Pairs.{AreInOrder, value_at, with_pair, without_key};

use crate::entry::Entry;
use crate::hints::Hinted;
use nmc_base::NoMemory;
use std::alloc::Global;

/// Some pairs that follow each other, in the order of their keys.
pub trait Part<K: Hinted, V>: Sized {
    ghost pairs: { Self → List (K × V) };

    /// A part of one pair.
    fn of_one(alloc: Global, entry: &Entry<K, V>) -> Result<Self, NoMemory>
        ensures { IfOk result (λ part. pairs part ≡ entry.now ∷ []) };

    /// The value at the key, or None exactly where no pair has an equal one.
    fn get(&self, hint: u64, key: &K) -> Option<&V>
        requires hint { hint ≡ K.hint_of key.now }
        requires order { AreInOrder K.cmp (pairs self.now) }
        ensures { option_copied result ≡ value_at K.cmp (pairs self.now) key.now };

    /// The i-th pair, counted from 0, or None exactly past the end.
    fn at(&self, i: usize) -> Option<&Entry<K, V>>
        ensures { option_copied result ≡ slice_get (pairs self.now) i };

    /// Puts the pair in its place, and answers whether an equal key was there. Where memory runs out, nothing changes.
    fn set(&mut self, alloc: Global, entry: &Entry<K, V>) -> Result<bool, NoMemory>
        requires order { AreInOrder K.cmp (pairs self.now) }
        requires fits { length (pairs self.now) + 1 < 2 ^ 64 }
        ensures ok { OnOk result (pairs self.new ≡ with_pair K.cmp (pairs self.old) entry.now.0 entry.now.1) }
        ensures count { IfOk result (λ was. length (pairs self.new) + cond was 1 0 ≡ length (pairs self.old) + 1) }
        ensures err { OnErr result (pairs self.new ≡ pairs self.old) };

    /// Takes the pair of the key out, and answers whether there was one. Where memory runs out, nothing changes.
    fn unset(&mut self, alloc: Global, hint: u64, key: &K) -> Result<bool, NoMemory>
        requires hint { hint ≡ K.hint_of key.now }
        requires order { AreInOrder K.cmp (pairs self.now) }
        ensures found { IfOk result (λ found. found ≡ is_some (value_at K.cmp (pairs self.old) key.now)) }
        ensures ok { OnOk result (pairs self.new ≡ without_key K.cmp (pairs self.old) key.now) }
        ensures count { IfOk result (λ found. length (pairs self.new) + cond found 1 0 ≡ length (pairs self.old)) }
        ensures err { OnErr result (pairs self.new ≡ pairs self.old) };

    /// The number of pairs, or want of memory where it doesn't fit its type.
    fn count(&self) -> Result<usize, NoMemory>
        ensures { IfOk result (λ n. n ≡ length (pairs self.now)) };

    /// Whether it is to be cut before it takes one pair more.
    fn is_full(&self) -> bool;

    /// The same pairs over the same memory, so far as that is shared.
    fn copy(&self, alloc: Global) -> Result<Self, NoMemory>
        ensures { IfOk result (λ part. pairs part ≡ pairs self.now) };

    /// The same pairs in two parts.
    fn halves(&self, alloc: Global) -> Result<(Self, Self), NoMemory>
        ensures { IfOk result (λ p. pairs p.0 ++ pairs p.1 ≡ pairs self.now) };
}
