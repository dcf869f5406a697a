//! Up to 48 pairs in one piece of memory.

ghost use Rattle.std.specs.Prelude.{◌≡◌, ◌+◌, ◌^◌, ◌<◌, ◌≤◌, ◌++◌, ◌∷◌, [], length, cond, take, IfOk, IfErr, OnOk, OnErr};
ghost use Rattle.std.specs.Option.{is_some, option_copied};
ghost use Rattle.shared_chunks.specs.Pairs.{AreInOrder, IsAt, IsGap, value_at, with_pair, without_key};

use crate::entry::Entry;
use crate::hints::Hinted;
use crate::part::Part;
use nmc_base::NoMemory;
use std::alloc::Global;
use std::cmp::Ordering;

// So many pairs stand in a leaf at most.
const MOST: usize = 48;

/// Pairs in one piece of memory.
#[derive(Drop)]
pub struct Leaf<K: Hinted, V> {
    entries: Vec<Entry<K, V>>,
}

impl<K: Hinted + Drop, V: Drop> Part<K, V> for Leaf<K, V> {
    ghost pairs = { λ l. l.entries.items };

    fn of_one(alloc: Global, entry: &Entry<K, V>) -> Result<Leaf<K, V>, NoMemory> {
        let mut entries = Vec::new(alloc);
        entries.push(entry.copy()?)?;
        Ok(Leaf { entries })
    }

    fn get(&self, hint: u64, key: &K) -> Option<&V> {
        match place(self.entries.as_slice(), hint, key) {
            Ok(at) => match self.at(at) {
                Some(entry) => Some(entry.value()),
                None => None,
            },
            Err(_) => None,
        }
    }

    fn at(&self, i: usize) -> Option<&Entry<K, V>> {
        self.entries.as_slice().get(i)
    }

    fn set(&mut self, _alloc: Global, entry: &Entry<K, V>) -> Result<bool, NoMemory> {
        let entry = entry.copy()?;
        put(&mut self.entries, entry)
    }

    fn unset(&mut self, _alloc: Global, hint: u64, key: &K) -> Result<bool, NoMemory> {
        Ok(take_out(&mut self.entries, hint, key))
    }

    fn count(&self) -> Result<usize, NoMemory> {
        Ok(self.entries.len())
    }

    fn is_full(&self) -> bool {
        self.entries.len() >= MOST
    }

    fn copy(&self, alloc: Global) -> Result<Leaf<K, V>, NoMemory> {
        let entries = copied(alloc, self.entries.as_slice())?;
        Ok(Leaf { entries })
    }

    fn halves(&self, alloc: Global) -> Result<(Leaf<K, V>, Leaf<K, V>), NoMemory> {
        let (front, back) = self.entries.as_slice().split_at(self.entries.len() / 2);
        let front = copied(alloc, front)?;
        let back = copied(alloc, back)?;
        Ok((Leaf { entries: front }, Leaf { entries: back }))
    }
}

// Where the key is, or where it would go.
fn place<K: Hinted, V>(entries: &[Entry<K, V>], hint: u64, key: &K) -> Result<usize, usize>
    requires hint { hint ≡ K.hint_of key.now }
    requires order { AreInOrder K.cmp entries.now }
    ensures found { IfOk result (IsAt K.cmp entries.now key.now) }
    ensures absent { IfErr result (IsGap K.cmp entries.now key.now) }
{
    let mut low = 0usize;
    let mut rest = entries;
    while rest.len() > 0 {
        let mid = rest.len() / 2;
        let (front, back) = rest.split_at(mid);
        match back.split_first() {
            None => unreachable!(),
            Some((entry, behind)) => match entry.order(hint, key) {
                Ordering::Less => {
                    rest = front;
                }
                Ordering::Equal => return Ok(low + mid),
                Ordering::Greater => {
                    rest = behind;
                    low = low + mid + 1;
                }
            },
        }
    }
    Err(low)
}

fn put<K: Hinted + Drop, V: Drop>(
    entries: &mut Vec<Entry<K, V>>,
    entry: Entry<K, V>,
) -> Result<bool, NoMemory>
    requires { AreInOrder K.cmp entries.now.items }
    ensures ok { OnOk result (entries.new.items ≡ with_pair K.cmp entries.old.items entry.0 entry.1) }
    ensures count { IfOk result (λ was. length entries.new.items + cond was 1 0 ≡ length entries.old.items + 1) }
    ensures err { OnErr result (entries.new.items ≡ entries.old.items) }
{
    match place(entries.as_slice(), entry.hint(), entry.key()) {
        Ok(at) => {
            entries[at] = entry;
            Ok(true)
        }
        Err(at) => {
            entries.insert(at, entry)?;
            Ok(false)
        }
    }
}

fn take_out<K: Hinted + Drop, V: Drop>(entries: &mut Vec<Entry<K, V>>, hint: u64, key: &K) -> bool
    requires hint { hint ≡ K.hint_of key.now }
    requires order { AreInOrder K.cmp entries.now.items }
    ensures found { result ≡ is_some (value_at K.cmp entries.old.items key.now) }
    ensures ok { entries.new.items ≡ without_key K.cmp entries.old.items key.now }
    ensures count { length entries.new.items + cond result 1 0 ≡ length entries.old.items }
{
    match place(entries.as_slice(), hint, key) {
        Ok(at) => {
            entries.remove(at);
            true
        }
        Err(_) => false,
    }
}

// The same pairs in memory of their own.
fn copied<K: Hinted + Drop, V: Drop>(
    alloc: Global,
    entries: &[Entry<K, V>],
) -> Result<Vec<Entry<K, V>>, NoMemory>
    ensures { IfOk result (λ copy. copy.items ≡ entries.now) }
{
    let mut copy = Vec::with_capacity(alloc, entries.len())?;
    let mut rest = entries;
    while let [entry, more @ ..] = rest {
        copy.push(entry.copy()?)?;
        rest = more;
    }
    Ok(copy)
}
