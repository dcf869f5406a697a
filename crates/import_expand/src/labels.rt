//! The labels of an object's map under which an object stands, listed so that one that isn't there is found missing without a look into the map.

ghost use Rattle.std.specs.Prelude.{◌≡◌, ℕ, suc, ◌<◌, ◌≤◌, false, None, List, length, get_or, IfOk};
ghost use Rattle.std.specs.List.Sorted.{IsNonDecreasing};
ghost use Rattle.std.proofs.Props.{props};
ghost use Rattle.ifa_value.specs.Object.{members};
ghost use Rattle.ifa_value.specs.Labels.{map_labels, label_number as number_of_label, label_numbers};
ghost use Rattle.import_expand.specs.Labels.{is_among, mark_at, IsMark, AreMarked};

use ifa_value::IfaObject;
use nmc_base::NoMemory;
use std::alloc::Global;

/// The numbers of the labels of an object's map, the lowest first.
#[derive(Drop)]
pub(crate) struct Labels {
    pub(crate) numbers: Vec<u64>,
    /// Where the places of the entries begin that were taken out of the map: one for each number.
    pub(crate) first: usize,
    /// By it the place of a number's mark is found: other labels share a place in each list.
    factor: u64,
    /// At the place of a mark, whose number stands there: its own place in the list, from 1 on; 0 where no number has the mark.
    marks: [u8; 256],
    ghost rise: { IsNonDecreasing numbers.items } by { Prim.hlevel props },
    ghost are_marked: { AreMarked factor marks numbers.items } by { Prim.hlevel props },
}

/// The mark that several numbers share, or one that stands too far behind.
const SHARED: u8 = 255;

/// A number whose multiples spread (the one of MurmurHash3's last step).
const SPREAD: u64 = 0xff51_afd7_ed55_8ccd;

/// A factor for the list whose entries' places begin there.
fn factor_of(first: usize) -> u64 {
    let spread = (first as u64).wrapping_add(1).wrapping_mul(SPREAD);
    (spread ^ (spread >> 32)).wrapping_mul(SPREAD) | 1
}

/// Where the mark of a number stands.
fn mark_of(number: u64, factor: u64) -> usize
    ensures place { result ≡ mark_at factor number }
    ensures within { result < 256 }
{
    (number.wrapping_mul(factor) >> 56) as usize
}

/// The mark of a number that stands there in the list, where another mark stood.
fn next_mark(at: usize, before: u8) -> u8
    ensures next { IsMark at result }
    ensures still { (k : ℕ) → IsMark k before → result ≡ 255 }
{
    if before == 0 && at < 254 {
        (at + 1) as u8
    } else {
        SHARED
    }
}

/// The marks of these numbers.
fn marks_of(numbers: &[u64], factor: u64) -> [u8; 256]
    ensures { AreMarked factor result numbers.now }
{
    let mut marks = [0; 256];
    for at in 0..numbers.len() {
        let mark = mark_of(numbers[at], factor);
        marks[mark] = next_mark(at, marks[mark]);
    }
    marks
}

/// How many of these numbers are lower than one.
fn lower(numbers: &[u64], number: u64) -> usize
    requires rise { IsNonDecreasing numbers.now }
    ensures within { result ≤ length numbers.now }
    ensures low { (k : ℕ) → k < result → get_or numbers.now k 0 < number }
    ensures high { (k : ℕ) → result ≤ k → k < length numbers.now → number ≤ get_or numbers.now k 0 }
{
    let mut low = 0;
    let mut high = numbers.len();
    while low < high {
        let middle = low + (high - low) / 2;
        if numbers[middle] < number {
            low = middle + 1;
        } else {
            high = middle;
        }
    }
    low
}

impl Labels {
    /// Lists the labels. The places of their entries begin there.
    pub(crate) fn of(alloc: Global, object: &IfaObject, first: usize) -> Result<Labels, NoMemory>
        ensures { IfOk result (λ ls. (label : List ℕ) → is_among ls.numbers.items label ≡ is_among (label_numbers (map_labels (members object.now))) label) }
    {
        let mut numbers = object.label_numbers(alloc)?;
        numbers.sort_unstable();
        let factor = factor_of(first);
        let marks = marks_of(numbers.as_slice(), factor);
        Ok(Labels {
            numbers,
            first,
            factor,
            marks,
        })
    }

    /// Where the place of the entry under the label of a number stands, which is looked for. None says that the number isn't among them.
    fn search(&self, number: u64) -> Option<usize>
        ensures { result ≡ None → (label : List ℕ) → number_of_label label ≡ number → is_among self.now.numbers.items label ≡ false }
    {
        let at = lower(self.numbers.as_slice(), number);
        if at >= self.numbers.len() {
            return None;
        }
        if self.numbers[at] != number {
            return None;
        }
        Some(self.first.saturating_add(at))
    }

    /// Where the place of the entry under the label of a number stands, where it can be one number of the list alone.
    fn only(&self, at: usize, number: u64) -> Option<usize>
        requires mark { get_or self.now.marks (mark_at self.now.factor number) 0 ≡ suc at }
        requires alone { at < 254 }
        ensures { result ≡ None → (label : List ℕ) → number_of_label label ≡ number → is_among self.now.numbers.items label ≡ false }
    {
        if at >= self.numbers.len() {
            return None;
        }
        if self.numbers[at] != number {
            return None;
        }
        Some(self.first.saturating_add(at))
    }

    /// Where the place of the entry under the label of a number stands. None says that the number isn't among them.
    pub(crate) fn find(&self, number: u64) -> Option<usize>
        ensures { result ≡ None → (label : List ℕ) → number_of_label label ≡ number → is_among self.now.numbers.items label ≡ false }
    {
        match self.marks[mark_of(number, self.factor)] {
            0 => None,
            SHARED => self.search(number),
            mark => self.only(mark as usize - 1, number),
        }
    }
}
