//! What objects added that were asked for their entries under a label, while the sources of those are joined.

ghost use Rattle.std.specs.Prelude.{◌≡◌, ℕ, ◌+◌, ◌≤◌, ◌++◌, [], List, length, take, drop, IfOk, OnOk};

use crate::limits::MOST_SOURCES;
use nmc_base::NoMemory;
use std::alloc::Global;

/// What an object added to the sources that were found: so many, from there on.
#[derive(Clone, Copy, Drop)]
pub(crate) struct Told {
    pub(crate) of: usize,
    pub(crate) first: usize,
    pub(crate) count: usize,
}

/// The sources that were found so far, and what each object added that was asked: where it stands there again, it adds the same.
#[derive(Drop)]
pub(crate) struct Joining {
    pub(crate) found: Vec<usize>,
    pub(crate) told: Vec<Told>,
    ghost few: { length found.items ≤ 256 },
}

/// So many of a stretch as there is room for.
fn fitting(count: usize, room: usize) -> usize
    ensures within { result ≤ count }
    ensures cut { (ns : List ℕ) → take result ns ≡ take room (take count ns) }
{
    if count < room { count } else { room }
}

impl Joining {
    /// Nothing is found yet.
    pub(crate) fn new(alloc: Global) -> Result<Joining, NoMemory>
        ensures found { IfOk result (λ j. j.found.items ≡ []) }
        ensures told { IfOk result (λ j. j.told.items ≡ []) }
    {
        Ok(Joining {
            found: Vec::with_capacity(alloc, MOST_SOURCES)?,
            told: Vec::new(alloc),
        })
    }

    /// Adds once more what an object added before, as far as there is room.
    pub(crate) fn again(&mut self, told: Told) -> Result<(), NoMemory>
        requires within { told.first + told.count ≤ length self.old.found.items }
        ensures told { self.new.told ≡ self.old.told }
        ensures added { OnOk result (self.new.found.items ≡ take 256 (self.old.found.items ++ take told.count (drop told.first self.old.found.items))) }
    {
        let room = MOST_SOURCES - self.found.len();
        let count = fitting(told.count, room);
        self.found
            .extend_from_within(told.first..told.first + count)?;
        Ok(())
    }
}
