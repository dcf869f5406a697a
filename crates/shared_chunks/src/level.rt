//! Parts one behind the other: the level above leaves, and above levels.

ghost use Rattle.std.specs.Prelude.{◌≡◌, ◌+◌, ◌^◌, ◌<◌, ◌≤◌, ◌++◌, ◌∷◌, [], List, Some, length, cond, IfOk, OnOk, OnErr, slice_get};
ghost use Rattle.std.specs.Option.{is_some, option_copied};
ghost use Rattle.shared_chunks.specs.Joined.{IsPart, joined};
ghost use Rattle.shared_chunks.specs.Pairs.{AreInOrder, value_at, with_pair, without_key};

use crate::entry::Entry;
use crate::hints::Hinted;
use crate::part::Part;
use crate::sub::Sub;
use nmc_base::NoMemory;
use std::alloc::Global;
use std::cmp::Ordering;

// So many parts stand in a level at most, but for the one at the top.
const MOST: usize = 64;

/// Parts one behind the other.
#[derive(Drop)]
pub struct Level<K: Hinted, V, T: Part<K, V>> {
    subs: Vec<Sub<K, V, T>>,
}

impl<K: Hinted, V, T: Part<K, V>> Level<K, V, T> {
    /// Its parts.
    pub(crate) fn into_subs(self) -> Vec<Sub<K, V, T>>
        ensures { result ≡ self.subs }
    {
        self.subs
    }
}

impl<K: Hinted + Drop, V: Drop, T: Part<K, V> + Drop> Part<K, V> for Level<K, V, T> {
    ghost pairs = { λ l. joined l.subs.items };

    fn of_one(alloc: Global, entry: &Entry<K, V>) -> Result<Level<K, V, T>, NoMemory> {
        let sub = Sub::of_one(alloc, entry)?;
        let mut subs = Vec::new(alloc);
        subs.push(sub)?;
        Ok(Level { subs })
    }

    fn get(&self, hint: u64, key: &K) -> Option<&V> {
        if self.subs.len() == 0 {
            return None;
        }
        let at = find(self.subs.as_slice(), hint, key);
        self.subs[at].get(hint, key)
    }

    fn at(&self, i: usize) -> Option<&Entry<K, V>> {
        item(self.subs.as_slice(), i)
    }

    fn set(&mut self, alloc: Global, entry: &Entry<K, V>) -> Result<bool, NoMemory> {
        put(&mut self.subs, alloc, entry)
    }

    fn unset(&mut self, alloc: Global, hint: u64, key: &K) -> Result<bool, NoMemory> {
        take_out(&mut self.subs, alloc, hint, key)
    }

    fn count(&self) -> Result<usize, NoMemory> {
        total(self.subs.as_slice())
    }

    fn is_full(&self) -> bool {
        self.subs.len() >= MOST
    }

    fn copy(&self, alloc: Global) -> Result<Level<K, V, T>, NoMemory> {
        let subs = copied(alloc, self.subs.as_slice())?;
        Ok(Level { subs })
    }

    fn halves(&self, alloc: Global) -> Result<(Level<K, V, T>, Level<K, V, T>), NoMemory> {
        let (front, back) = self.subs.as_slice().split_at(self.subs.len() / 2);
        let front = copied(alloc, front)?;
        let back = copied(alloc, back)?;
        Ok((Level { subs: front }, Level { subs: back }))
    }
}

// The part that the key belongs to.
fn find<K: Hinted, V, T: Part<K, V>>(subs: &[Sub<K, V, T>], hint: u64, key: &K) -> usize
    requires hint { hint ≡ K.hint_of key.now }
    requires order { AreInOrder K.cmp (joined subs.now) }
    requires some { 0 < length subs.now }
    ensures { IsPart K.cmp subs.now key.now result }
{
    let mut low = 0usize;
    let mut rest = subs;
    while rest.len() > 1 {
        let mid = rest.len() / 2;
        let (front, back) = rest.split_at(mid);
        match back.split_first() {
            None => unreachable!(),
            Some((sub, _)) => match sub.low().order(hint, key) {
                Ordering::Less => {
                    rest = front;
                }
                Ordering::Equal => {
                    rest = back;
                    low = low + mid;
                }
                Ordering::Greater => {
                    rest = back;
                    low = low + mid;
                }
            },
        }
    }
    low
}

fn item<K: Hinted, V, T: Part<K, V>>(subs: &[Sub<K, V, T>], i: usize) -> Option<&Entry<K, V>>
    ensures { option_copied result ≡ slice_get (joined subs.now) i }
{
    let mut left = i;
    let mut rest = subs;
    while let Some((sub, more)) = rest.split_first() {
        let count = sub.count();
        if left < count {
            return sub.at(left);
        }
        left -= count;
        rest = more;
    }
    None
}

fn total<K: Hinted, V, T: Part<K, V>>(subs: &[Sub<K, V, T>]) -> Result<usize, NoMemory>
    ensures { IfOk result (λ n. n ≡ length (joined subs.now)) }
{
    let mut sum = 0usize;
    let mut rest = subs;
    while let Some((sub, more)) = rest.split_first() {
        match sum.checked_add(sub.count()) {
            None => return Err(NoMemory),
            Some(more_pairs) => sum = more_pairs,
        }
        rest = more;
    }
    Ok(sum)
}

fn copied<K: Hinted + Drop, V: Drop, T: Part<K, V> + Drop>(
    alloc: Global,
    subs: &[Sub<K, V, T>],
) -> Result<Vec<Sub<K, V, T>>, NoMemory>
    ensures { IfOk result (λ copy. copy.items ≡ subs.now) }
{
    let mut copy = Vec::with_capacity(alloc, subs.len())?;
    let mut rest = subs;
    while let Some((sub, more)) = rest.split_first() {
        copy.push(sub.copy()?)?;
        rest = more;
    }
    Ok(copy)
}

fn put<K: Hinted + Drop, V: Drop, T: Part<K, V> + Drop>(
    subs: &mut Vec<Sub<K, V, T>>,
    alloc: Global,
    entry: &Entry<K, V>,
) -> Result<bool, NoMemory>
    requires order { AreInOrder K.cmp (joined subs.now.items) }
    requires fits { length (joined subs.now.items) + 1 < 2 ^ 64 }
    ensures ok { OnOk result (joined subs.new.items ≡ with_pair K.cmp (joined subs.old.items) entry.now.0 entry.now.1) }
    ensures count { IfOk result (λ was. length (joined subs.new.items) + cond was 1 0 ≡ length (joined subs.old.items) + 1) }
    ensures err { OnErr result (joined subs.new.items ≡ joined subs.old.items) }
{
    if subs.len() == 0 {
        let sub = Sub::of_one(alloc, entry)?;
        subs.push(sub)?;
        return Ok(false);
    }
    let at = find(subs.as_slice(), entry.hint(), entry.key());
    if subs[at].is_full() {
        cut(subs, alloc, at)?;
        let at = find(subs.as_slice(), entry.hint(), entry.key());
        return put_at(subs, alloc, at, entry);
    }
    put_at(subs, alloc, at, entry)
}

// Cuts the part in two.
fn cut<K: Hinted + Drop, V: Drop, T: Part<K, V> + Drop>(
    subs: &mut Vec<Sub<K, V, T>>,
    alloc: Global,
    at: usize,
) -> Result<(), NoMemory>
    requires { at < length subs.now.items }
    ensures same { joined subs.new.items ≡ joined subs.old.items }
    ensures some { 0 < length subs.new.items }
{
    let (front, back) = subs[at].halves(alloc)?;
    subs.insert(at + 1, back)?;
    subs[at] = front;
    Ok(())
}

fn put_at<K: Hinted + Drop, V: Drop, T: Part<K, V> + Drop>(
    subs: &mut Vec<Sub<K, V, T>>,
    alloc: Global,
    at: usize,
    entry: &Entry<K, V>,
) -> Result<bool, NoMemory>
    requires order { AreInOrder K.cmp (joined subs.now.items) }
    requires fits { length (joined subs.now.items) + 1 < 2 ^ 64 }
    requires part { IsPart K.cmp subs.now.items entry.now.0 at }
    ensures ok { OnOk result (joined subs.new.items ≡ with_pair K.cmp (joined subs.old.items) entry.now.0 entry.now.1) }
    ensures count { IfOk result (λ was. length (joined subs.new.items) + cond was 1 0 ≡ length (joined subs.old.items) + 1) }
    ensures err { OnErr result (joined subs.new.items ≡ joined subs.old.items) }
{
    let was = subs[at].set(alloc, entry)?;
    Ok(was)
}

fn take_out<K: Hinted + Drop, V: Drop, T: Part<K, V> + Drop>(
    subs: &mut Vec<Sub<K, V, T>>,
    alloc: Global,
    hint: u64,
    key: &K,
) -> Result<bool, NoMemory>
    requires hint { hint ≡ K.hint_of key.now }
    requires order { AreInOrder K.cmp (joined subs.now.items) }
    ensures found { IfOk result (λ found. found ≡ is_some (value_at K.cmp (joined subs.old.items) key.now)) }
    ensures ok { OnOk result (joined subs.new.items ≡ without_key K.cmp (joined subs.old.items) key.now) }
    ensures count { IfOk result (λ found. length (joined subs.new.items) + cond found 1 0 ≡ length (joined subs.old.items)) }
    ensures err { OnErr result (joined subs.new.items ≡ joined subs.old.items) }
{
    if subs.len() == 0 {
        return Ok(false);
    }
    let at = find(subs.as_slice(), hint, key);
    if subs[at].count() > 1 {
        return take_at(subs, alloc, at, hint, key);
    }
    Ok(take_last(subs, at, hint, key))
}

// Of a part that has one pair.
fn take_last<K: Hinted + Drop, V: Drop, T: Part<K, V> + Drop>(
    subs: &mut Vec<Sub<K, V, T>>,
    at: usize,
    hint: u64,
    key: &K,
) -> bool
    requires hint { hint ≡ K.hint_of key.now }
    requires part { IsPart K.cmp subs.now.items key.now at }
    requires few { (sub : List (K × V)) → slice_get subs.now.items at ≡ Some sub → length sub ≤ 1 }
    ensures found { result ≡ is_some (value_at K.cmp (joined subs.old.items) key.now) }
    ensures ok { joined subs.new.items ≡ without_key K.cmp (joined subs.old.items) key.now }
    ensures count { length (joined subs.new.items) + cond result 1 0 ≡ length (joined subs.old.items) }
{
    match subs[at].low().order(hint, key) {
        Ordering::Equal => {
            subs.remove(at);
            true
        }
        Ordering::Less => false,
        Ordering::Greater => false,
    }
}

fn take_at<K: Hinted + Drop, V: Drop, T: Part<K, V> + Drop>(
    subs: &mut Vec<Sub<K, V, T>>,
    alloc: Global,
    at: usize,
    hint: u64,
    key: &K,
) -> Result<bool, NoMemory>
    requires hint { hint ≡ K.hint_of key.now }
    requires order { AreInOrder K.cmp (joined subs.now.items) }
    requires part { IsPart K.cmp subs.now.items key.now at }
    requires more { (sub : List (K × V)) → slice_get subs.now.items at ≡ Some sub → 1 < length sub }
    ensures found { IfOk result (λ found. found ≡ is_some (value_at K.cmp (joined subs.old.items) key.now)) }
    ensures ok { OnOk result (joined subs.new.items ≡ without_key K.cmp (joined subs.old.items) key.now) }
    ensures count { IfOk result (λ found. length (joined subs.new.items) + cond found 1 0 ≡ length (joined subs.old.items)) }
    ensures err { OnErr result (joined subs.new.items ≡ joined subs.old.items) }
{
    let found = subs[at].unset(alloc, hint, key)?;
    Ok(found)
}
