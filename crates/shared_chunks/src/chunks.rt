//! The whole of the pairs: what is looked up, changed and pinned.

ghost use Rattle.std.specs.Prelude.{◌≡◌, ◌<◌, ◌≤◌, ◌^◌, ◌+◌, ◌∷◌, [], length, true, false, IfOk, IfSome, OnOk, OnErr, slice_get};
ghost use Rattle.std.specs.Option.{is_some, option_copied, option_map};
ghost use Rattle.shared_chunks.specs.Joined.{pairs_in};
ghost use Rattle.shared_chunks.specs.Pairs.{AreInOrder, value_at, with_pair, without_key};

use crate::entry::Entry;
use crate::hints::Hinted;
use crate::part::Part;
use crate::sub::Sub;
use nmc_base::NoMemory;
use std::alloc::Global;
use std::cmp::Ordering;
use std::marker::Model;

/// Pairs in the order of their keys. A pin of them is over the same parts, and stays as it is whatever becomes of these.
///
/// Contracts see the list of the pairs, in strictly increasing order of keys.
#[derive(Drop)]
pub struct Chunks<K: Hinted, V, T: Part<K, V>> {
    top: Option<Sub<K, V, T>>,
}

impl<K: Hinted, V, T: Part<K, V>> Model for Chunks<K, V, T> {
    ghost use Rattle.std.specs.Prelude.{List};
    ghost use Rattle.shared_chunks.specs.Joined.{pairs_in};
    ghost use Rattle.shared_chunks.specs.Pairs.{AreInOrder};

    ghost Value = { List (K × V) };

    ghost view = { λ c. pairs_in c.top };

    ghost invariant = { λ c. AreInOrder K.cmp (pairs_in c.top) };
}

impl<K: Hinted, V, T: Part<K, V>> Chunks<K, V, T> {
    /// No pair. It takes no memory.
    pub fn new() -> Chunks<K, V, T>
        ensures { result ≡ [] }
    {
        Chunks { top: None }
    }

    /// The number of pairs.
    pub fn len(&self) -> usize
        ensures { result ≡ length self.now }
    {
        match &self.top {
            None => 0,
            Some(sub) => sub.count(),
        }
    }

    // What stands at the top.
    pub(crate) fn into_top(self) -> Option<Sub<K, V, T>>
        ensures { pairs_in result ≡ self }
    {
        self.top
    }

    /// The value at the key, or None exactly where no pair has an equal one.
    pub fn get(&self, key: &K) -> Option<&V>
        ensures value { option_copied result ≡ value_at K.cmp self.now key.now }
        ensures order { AreInOrder K.cmp self.now }
    {
        match &self.top {
            None => None,
            Some(sub) => sub.get(key.hint(), key),
        }
    }

    /// The i-th pair, counted from 0 in the order of the keys, or None exactly past the end.
    pub fn at(&self, i: usize) -> Option<(&K, &V)>
        ensures pair { option_map (λ p. (p.0.now, p.1.now)) result ≡ slice_get self.now i }
        ensures order { AreInOrder K.cmp self.now }
    {
        match &self.top {
            None => None,
            Some(sub) => match sub.at(i) {
                None => None,
                Some(entry) => Some((entry.key(), entry.value())),
            },
        }
    }
}

impl<K: Hinted + Drop, V: Drop, T: Part<K, V> + Drop> Chunks<K, V, T> {
    /// Puts the pair in its place, and takes that of an equal key away. Where memory runs out, nothing changes.
    pub fn set(&mut self, alloc: Global, key: K, value: V) -> Result<(), NoMemory>
        ensures ok { OnOk result (self.new ≡ with_pair K.cmp self.old key value) }
        ensures err { OnErr result (self.new ≡ self.old) }
        ensures order { AreInOrder K.cmp self.new }
    {
        put(&mut self.top, alloc, key, value)?;
        Ok(())
    }

    /// Takes the pair of the key out, and answers whether there was one. Where memory runs out, nothing changes.
    pub fn unset(&mut self, alloc: Global, key: &K) -> Result<bool, NoMemory>
        ensures ok { IfOk result (λ found. found ≡ is_some (value_at K.cmp self.old key.now)) }
        ensures map { OnOk result (self.new ≡ without_key K.cmp self.old key.now) }
        ensures err { OnErr result (self.new ≡ self.old) }
        ensures order { AreInOrder K.cmp self.new }
    {
        let found = take_out(&mut self.top, alloc, key.hint(), key)?;
        Ok(found)
    }

    /// Equal pairs over the same parts. It takes no memory: it is refused only where a part can count no further holder.
    pub fn pin(&self) -> Result<Chunks<K, V, T>, NoMemory>
        ensures { IfOk result (λ c. c ≡ self.now) }
    {
        match &self.top {
            None => Ok(Chunks { top: None }),
            Some(sub) => {
                let sub = sub.copy()?;
                Ok(Chunks { top: Some(sub) })
            }
        }
    }
}

fn put<K: Hinted + Drop, V: Drop, T: Part<K, V> + Drop>(
    top: &mut Option<Sub<K, V, T>>,
    alloc: Global,
    key: K,
    value: V,
) -> Result<(), NoMemory>
    requires { AreInOrder K.cmp (pairs_in top.now) }
    ensures ok { OnOk result (pairs_in top.new ≡ with_pair K.cmp (pairs_in top.old) key value) }
    ensures err { OnErr result (pairs_in top.new ≡ pairs_in top.old) }
{
    let entry = Entry::new(alloc, key, value)?;
    put_entry(top, alloc, &entry)
}

fn put_entry<K: Hinted + Drop, V: Drop, T: Part<K, V> + Drop>(
    top: &mut Option<Sub<K, V, T>>,
    alloc: Global,
    entry: &Entry<K, V>,
) -> Result<(), NoMemory>
    requires { AreInOrder K.cmp (pairs_in top.now) }
    ensures ok { OnOk result (pairs_in top.new ≡ with_pair K.cmp (pairs_in top.old) entry.now.0 entry.now.1) }
    ensures err { OnErr result (pairs_in top.new ≡ pairs_in top.old) }
{
    match top {
        None => {
            let sub = Sub::of_one(alloc, entry)?;
            *top = Some(sub);
            Ok(())
        }
        Some(sub) => {
            if sub.count() == usize::MAX {
                return Err(NoMemory);
            }
            sub.set(alloc, entry)?;
            Ok(())
        }
    }
}

fn take_out<K: Hinted + Drop, V: Drop, T: Part<K, V> + Drop>(
    top: &mut Option<Sub<K, V, T>>,
    alloc: Global,
    hint: u64,
    key: &K,
) -> Result<bool, NoMemory>
    requires hint { hint ≡ K.hint_of key.now }
    requires order { AreInOrder K.cmp (pairs_in top.now) }
    ensures found { IfOk result (λ found. found ≡ is_some (value_at K.cmp (pairs_in top.old) key.now)) }
    ensures ok { OnOk result (pairs_in top.new ≡ without_key K.cmp (pairs_in top.old) key.now) }
    ensures err { OnErr result (pairs_in top.new ≡ pairs_in top.old) }
{
    match top {
        None => Ok(false),
        Some(sub) => {
            if sub.count() > 1 {
                let found = sub.unset(alloc, hint, key)?;
                return Ok(found);
            }
            if is_last(sub, hint, key) {
                *top = None;
                return Ok(true);
            }
            Ok(false)
        }
    }
}

// Whether the one pair is that of the key.
fn is_last<K: Hinted, V, T: Part<K, V>>(sub: &Sub<K, V, T>, hint: u64, key: &K) -> bool
    requires hint { hint ≡ K.hint_of key.now }
    requires few { length sub.now ≤ 1 }
    ensures found { result ≡ is_some (value_at K.cmp sub.now key.now) }
    ensures gone { result ≡ true → without_key K.cmp sub.now key.now ≡ [] }
    ensures kept { result ≡ false → without_key K.cmp sub.now key.now ≡ sub.now }
{
    match sub.low().order(hint, key) {
        Ordering::Equal => true,
        Ordering::Less => false,
        Ordering::Greater => false,
    }
}
