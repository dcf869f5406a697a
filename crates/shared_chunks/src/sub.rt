//! A part behind a shared pointer, copied where it is changed while somebody else holds it.

ghost use Rattle.std.specs.Prelude.{◌≡◌, ◌+◌, ◌^◌, ◌<◌, ◌≤◌, ◌++◌, ◌∷◌, [], List, length, cond, Some, Ok, IfOk, IfSome, OnOk, OnErr, slice_get};
ghost use Rattle.std.specs.Option.{is_some, option_copied};
ghost use Rattle.shared_chunks.specs.Pairs.{AreInOrder, value_at, with_pair, without_key};

use crate::entry::Entry;
use crate::hints::Hinted;
use crate::part::Part;
use nmc_base::NoMemory;
use std::alloc::Global;
use std::cmp::Ordering;
use std::marker::Model;
use std::rc::Rc;

/// A part that has a pair, behind a shared pointer, with its first pair and the number of its pairs beside.
///
/// Contracts see its pairs.
#[derive(Drop)]
pub struct Sub<K: Hinted, V, T: Part<K, V>> {
    low: Entry<K, V>,
    count: usize,
    part: Rc<T>,
}

impl<K: Hinted, V, T: Part<K, V>> Model for Sub<K, V, T> {
    ghost use Rattle.std.specs.Prelude.{◌≡◌, List, Some, length, slice_get};

    ghost Value = { List (K × V) };

    ghost view = { λ s. T.pairs s.part.value };

    ghost invariant = { λ s. (s.count ≡ length (T.pairs s.part.value)) × (slice_get (T.pairs s.part.value) 0 ≡ Some s.low) };
}

impl<K: Hinted, V, T: Part<K, V>> Sub<K, V, T> {
    /// Its first pair.
    pub fn low(&self) -> &Entry<K, V>
        ensures { slice_get self.now 0 ≡ Some result.now }
    {
        &self.low
    }

    /// The number of its pairs.
    pub fn count(&self) -> usize
        ensures { result ≡ length self.now }
    {
        self.count
    }

    pub fn at(&self, i: usize) -> Option<&Entry<K, V>>
        ensures { option_copied result ≡ slice_get self.now i }
    {
        self.part.as_ref().at(i)
    }

    pub fn get(&self, hint: u64, key: &K) -> Option<&V>
        requires hint { hint ≡ K.hint_of key.now }
        requires order { AreInOrder K.cmp self.now }
        ensures { option_copied result ≡ value_at K.cmp self.now key.now }
    {
        self.part.as_ref().get(hint, key)
    }

    pub fn is_full(&self) -> bool {
        self.part.as_ref().is_full()
    }
}

impl<K: Hinted + Drop, V: Drop, T: Part<K, V> + Drop> Sub<K, V, T> {
    pub fn of_one(alloc: Global, entry: &Entry<K, V>) -> Result<Sub<K, V, T>, NoMemory>
        ensures { IfOk result (λ s. s ≡ entry.now ∷ []) }
    {
        let low = entry.copy()?;
        let part = Rc::new(alloc, T::of_one(alloc, entry)?)?;
        Ok(Sub {
            low,
            count: 1,
            part,
        })
    }

    // Of a part that has a pair; else it is refused.
    fn of_part(alloc: Global, part: T) -> Result<Sub<K, V, T>, NoMemory>
        ensures { IfOk result (λ s. s ≡ T.pairs part) }
    {
        let part = Rc::new(alloc, part)?;
        match head_of(part.as_ref()) {
            Ok((low, count)) => Ok(Sub { low, count, part }),
            Err(NoMemory) => {
                drop(part);
                Err(NoMemory)
            }
        }
    }

    /// The same part.
    pub fn copy(&self) -> Result<Sub<K, V, T>, NoMemory>
        ensures { IfOk result (λ s. s ≡ self.now) }
    {
        let low = self.low.copy()?;
        let count = self.count;
        let part = self.part.clone()?;
        Ok(Sub { low, count, part })
    }

    /// The part itself, where it stands nowhere else.
    pub fn into_part(self) -> Option<T>
        ensures { IfSome result (λ part. T.pairs part ≡ self) }
    {
        Rc::into_inner(self.part)
    }

    /// The same pairs in two parts.
    pub fn halves(&self, alloc: Global) -> Result<(Sub<K, V, T>, Sub<K, V, T>), NoMemory>
        ensures { IfOk result (λ p. p.0 ++ p.1 ≡ self.now) }
    {
        let (front, back) = self.part.as_ref().halves(alloc)?;
        let front = Sub::of_part(alloc, front);
        let back = Sub::of_part(alloc, back);
        both(front, back)
    }

    pub fn set(&mut self, alloc: Global, entry: &Entry<K, V>) -> Result<bool, NoMemory>
        requires order { AreInOrder K.cmp self.now }
        requires fits { length self.now + 1 < 2 ^ 64 }
        ensures ok { OnOk result (self.new ≡ with_pair K.cmp self.old entry.now.0 entry.now.1) }
        ensures count { IfOk result (λ was. length self.new + cond was 1 0 ≡ length self.old + 1) }
        ensures err { OnErr result (self.new ≡ self.old) }
    {
        let low = first_with(&self.low, entry)?;
        match set_in(&mut self.part, alloc, entry) {
            Ok(was) => {
                self.count = grown(self.count, was);
                put_low(&mut self.low, low);
                Ok(was)
            }
            Err(NoMemory) => {
                drop(low);
                Err(NoMemory)
            }
        }
    }

    /// Of a part that has two pairs and more.
    pub fn unset(&mut self, alloc: Global, hint: u64, key: &K) -> Result<bool, NoMemory>
        requires hint { hint ≡ K.hint_of key.now }
        requires order { AreInOrder K.cmp self.now }
        requires more { 1 < length self.now }
        ensures found { IfOk result (λ found. found ≡ is_some (value_at K.cmp self.old key.now)) }
        ensures ok { OnOk result (self.new ≡ without_key K.cmp self.old key.now) }
        ensures count { IfOk result (λ found. length self.new + cond found 1 0 ≡ length self.old) }
        ensures err { OnErr result (self.new ≡ self.old) }
    {
        let low = first_without(&self.low, self.part.as_ref(), hint, key)?;
        match unset_in(&mut self.part, alloc, hint, key) {
            Ok(found) => {
                self.count = shrunk(self.count, found);
                put_low(&mut self.low, low);
                Ok(found)
            }
            Err(NoMemory) => {
                drop(low);
                Err(NoMemory)
            }
        }
    }
}

// The first pair of a part, and the number of its pairs; it is refused where there is none.
fn head_of<K: Hinted + Drop, V: Drop, T: Part<K, V>>(
    part: &T,
) -> Result<(Entry<K, V>, usize), NoMemory>
    ensures low { IfOk result (λ p. slice_get (T.pairs part.now) 0 ≡ Some p.0) }
    ensures count { IfOk result (λ p. p.1 ≡ length (T.pairs part.now)) }
{
    let count = part.count()?;
    match part.at(0) {
        None => Err(NoMemory),
        Some(entry) => Ok((entry.copy()?, count)),
    }
}

// Both, or neither.
fn both<A: Drop>(front: Result<A, NoMemory>, back: Result<A, NoMemory>) -> Result<(A, A), NoMemory>
    ensures front { IfOk result (λ p. front ≡ Ok p.0) }
    ensures back { IfOk result (λ p. back ≡ Ok p.1) }
{
    match front {
        Ok(front) => match back {
            Ok(back) => Ok((front, back)),
            Err(NoMemory) => {
                drop(front);
                Err(NoMemory)
            }
        },
        Err(NoMemory) => {
            drop(back);
            Err(NoMemory)
        }
    }
}

// The pair takes the place of another, which is let go of here alone: that is dear to prove.
fn put_low<K: Hinted + Drop, V: Drop>(place: &mut Entry<K, V>, low: Entry<K, V>)
    ensures { place.new ≡ low }
{
    *place = low;
}

fn grown(count: usize, was: bool) -> usize
    requires { count + 1 < 2 ^ 64 }
    ensures { result + cond was 1 0 ≡ count + 1 }
{
    if was { count } else { count + 1 }
}

fn shrunk(count: usize, found: bool) -> usize
    requires { cond found 1 0 ≤ count }
    ensures { result + cond found 1 0 ≡ count }
{
    if found { count - 1 } else { count }
}

// The first pair behind a change.
fn first_with<K: Hinted + Drop, V: Drop>(
    low: &Entry<K, V>,
    entry: &Entry<K, V>,
) -> Result<Entry<K, V>, NoMemory>
    ensures { IfOk result (λ e. (rest : List (K × V)) → slice_get (with_pair K.cmp (low.now ∷ rest) entry.now.0 entry.now.1) 0 ≡ Some e) }
{
    match low.order(entry.hint(), entry.key()) {
        Ordering::Greater => low.copy(),
        Ordering::Equal => entry.copy(),
        Ordering::Less => entry.copy(),
    }
}

fn first_without<K: Hinted + Drop, V: Drop, T: Part<K, V>>(
    low: &Entry<K, V>,
    part: &T,
    hint: u64,
    key: &K,
) -> Result<Entry<K, V>, NoMemory>
    requires hint { hint ≡ K.hint_of key.now }
    requires more { 1 < length (T.pairs part.now) }
    requires low { slice_get (T.pairs part.now) 0 ≡ Some low.now }
    ensures { IfOk result (λ e. slice_get (without_key K.cmp (T.pairs part.now) key.now) 0 ≡ Some e) }
{
    match low.order(hint, key) {
        Ordering::Greater => low.copy(),
        Ordering::Less => low.copy(),
        Ordering::Equal => match part.at(1) {
            None => unreachable!(),
            Some(entry) => entry.copy(),
        },
    }
}

// In place where the part stands nowhere else, and in a copy of it else.
fn set_in<K: Hinted + Drop, V: Drop, T: Part<K, V> + Drop>(
    part: &mut Rc<T>,
    alloc: Global,
    entry: &Entry<K, V>,
) -> Result<bool, NoMemory>
    requires order { AreInOrder K.cmp (T.pairs part.now.value) }
    requires fits { length (T.pairs part.now.value) + 1 < 2 ^ 64 }
    ensures ok { OnOk result (T.pairs part.new.value ≡ with_pair K.cmp (T.pairs part.old.value) entry.now.0 entry.now.1) }
    ensures count { IfOk result (λ was. length (T.pairs part.new.value) + cond was 1 0 ≡ length (T.pairs part.old.value) + 1) }
    ensures err { OnErr result (T.pairs part.new.value ≡ T.pairs part.old.value) }
{
    if let Some(own) = Rc::get_mut(part) {
        return own.set(alloc, entry);
    }
    let mut own = copy_of(part, alloc)?;
    let was = own.set(alloc, entry);
    replace(part, alloc, own, was)
}

fn unset_in<K: Hinted + Drop, V: Drop, T: Part<K, V> + Drop>(
    part: &mut Rc<T>,
    alloc: Global,
    hint: u64,
    key: &K,
) -> Result<bool, NoMemory>
    requires hint { hint ≡ K.hint_of key.now }
    requires order { AreInOrder K.cmp (T.pairs part.now.value) }
    ensures found { IfOk result (λ found. found ≡ is_some (value_at K.cmp (T.pairs part.old.value) key.now)) }
    ensures ok { OnOk result (T.pairs part.new.value ≡ without_key K.cmp (T.pairs part.old.value) key.now) }
    ensures count { IfOk result (λ found. length (T.pairs part.new.value) + cond found 1 0 ≡ length (T.pairs part.old.value)) }
    ensures err { OnErr result (T.pairs part.new.value ≡ T.pairs part.old.value) }
{
    if let Some(own) = Rc::get_mut(part) {
        return own.unset(alloc, hint, key);
    }
    let mut own = copy_of(part, alloc)?;
    let found = own.unset(alloc, hint, key);
    replace(part, alloc, own, found)
}

// A changed copy takes the part's place, where the change was made.
fn replace<T: Drop>(
    part: &mut Rc<T>,
    alloc: Global,
    own: T,
    changed: Result<bool, NoMemory>,
) -> Result<bool, NoMemory>
    ensures same { IfOk result (λ x. changed ≡ Ok x) }
    ensures ok { OnOk result (part.new.value ≡ own) }
    ensures err { OnErr result (part.new.value ≡ part.old.value) }
{
    match changed {
        Ok(changed) => {
            *part = Rc::new(alloc, own)?;
            Ok(changed)
        }
        Err(NoMemory) => {
            drop(own);
            Err(NoMemory)
        }
    }
}

fn copy_of<K: Hinted, V, T: Part<K, V>>(part: &Rc<T>, alloc: Global) -> Result<T, NoMemory>
    ensures { IfOk result (λ own. T.pairs own ≡ T.pairs part.now.value) }
{
    part.as_ref().copy(alloc)
}
