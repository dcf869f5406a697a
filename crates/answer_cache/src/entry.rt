//! An answer that is kept, with its key.

ghost use Rattle.std.specs.Prelude.{◌≡◌, ◌++◌, OnOk};
ghost use Rattle.answer_cache.specs.Keys.{key_of};

use crate::asked_key::AskedKey;
use crate::cache_key::CacheKey;
use crate::held::HeldText;
use nmc_base::NoMemory;
use std::alloc::Global;

/// An answer with its key.
#[derive(Drop)]
pub(crate) struct Entry {
    pub(crate) key: CacheKey,
    pub(crate) text: HeldText,
}

impl Entry {
    /// No answer.
    pub(crate) fn empty(alloc: Global) -> Result<Entry, NoMemory> {
        Ok(Entry {
            key: CacheKey::empty(alloc)?,
            text: HeldText::empty(alloc)?,
        })
    }

    /// Makes it the answer of these two pieces. It takes memory where it has too little.
    pub(crate) fn fill(
        &mut self,
        key: AskedKey<'_>,
        front: &[u8],
        rest: &[u8],
    ) -> Result<(), NoMemory>
        ensures key { OnOk result (self.new.key ≡ key_of key.entry) }
        ensures text { OnOk result (self.new.text ≡ front.now ++ rest.now) }
    {
        self.key.set(key)?;
        self.text.set(front, rest)
    }
}
