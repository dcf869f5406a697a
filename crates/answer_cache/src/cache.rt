//! The cache: at most so many answers, of which the one least recently used gives way.

ghost use Rattle.std.specs.Prelude.{◌≡◌, ◌<◌, ◌++◌, IfOk, OnOk, OnErr};
ghost use Rattle.std.specs.Option.{option_copied};
ghost use Rattle.std.specs.Borrow.{sem};
ghost use Rattle.answer_cache.specs.Keys.{key_of};
ghost use Rattle.answer_cache.specs.Cached.{IsBounded, empty_cache, held, behind_put, behind_want};
ghost use Rattle.answer_cache.specs.Lend.{ends_as};

use crate::asked_key::AskedKey;
use crate::cache_key::CacheKey;
use crate::entry::Entry;
use crate::held::HeldText;
use lru::LruCache;
use nmc_base::NoMemory;
use std::alloc::Global;
use std::marker::Model;
use std::num::NonZeroUsize;

/// The memory of a text with more bytes isn't kept for the next.
const LONGEST_SPARE: usize = 512;

/// Answers, each under its key, of which the ones least recently used give way. Contracts see them, the most recently used first,
/// how many there may be, the hits, and the answers that weren't kept: puts that found no memory, and those of [`Cache::miss`].
///
/// The hasher of the map has a fixed seed, so strangers who choose names can choose such whose keys fall into one row of the
/// map. These are at most as many as the cache holds: so a look-up compares at most `capacity` keys, and a put, which looks up
/// three times, at most thrice as many, each by 32 bytes of its name or by the mark of a longer one.
///
/// What gives way leaves its memory to the next answer, where its text isn't long: a full cache takes memory for a put only where
/// that is too little. The text of an answer stands in memory of its own: the map moves a pointer to it.
#[derive(Drop)]
pub struct Cache {
    kept: LruCache<CacheKey, HeldText>,
    // what gave way last: its memory serves the next answer
    spare: Option<Entry>,
    hits: u64,
    missed: u64,
}

impl Model for Cache {
    ghost use Rattle.answer_cache.specs.Cached.{Cached};

    ghost Value = { Cached };

    ghost view = { λ c. record { entries = c.kept.entries; cap = c.kept.cap; hits = c.hits; missed = c.missed } };
}

impl Cache {
    /// A cache of at most so many answers, which holds none. It takes the room of its map at once.
    pub fn new(alloc: Global, capacity: usize) -> Result<Cache, NoMemory>
        requires { 0 < capacity }
        ensures { IfOk result (λ cache. cache ≡ empty_cache capacity) }
    {
        let Some(capacity) = NonZeroUsize::new(capacity) else {
            unreachable!()
        };
        Ok(Cache {
            kept: LruCache::new(alloc, capacity)?,
            spare: None,
            hits: 0,
            missed: 0,
        })
    }

    /// The text that is kept under the key, which becomes the most recently used, and a hit is counted. None exactly
    /// where the key isn't held.
    pub fn get(&mut self, key: AskedKey<'_>) -> Option<&[u8]>
        ensures* ends { sem 𝓛 (ends_as self.entry (key_of key.entry)) }
        ensures value { option_copied result ≡ held (key_of key.entry) self.old }
    {
        if !self.kept.promote(key) {
            return None;
        }
        self.hits = self.hits.saturating_add(1);
        match self.kept.peek_mru() {
            Some((_, text)) => Some(text.as_slice()),
            None => unreachable!(),
        }
    }

    /// Keeps `front` followed by `rest` under the key; the answer least recently used gives way where the cache is full.
    /// Where memory is wanting, that is counted, and the cache holds what it held.
    pub fn put(
        &mut self,
        alloc: Global,
        key: AskedKey<'_>,
        front: &[u8],
        rest: &[u8],
    ) -> Result<(), NoMemory>
        ensures ok { OnOk result (self.new ≡ behind_put (key_of key.entry) (front.now ++ rest.now) self.old) }
        ensures err { OnErr result (self.new ≡ behind_want self.old) }
    {
        let put = self.keep(alloc, key, front, rest);
        if put.is_err() {
            self.miss();
        }
        put
    }

    /// Counts one more answer that isn't kept, up to 2^64 - 1, where the count stays.
    pub fn miss(&mut self)
        ensures { self.new ≡ behind_want self.old }
    {
        self.missed = self.missed.saturating_add(1);
    }

    fn keep(
        &mut self,
        alloc: Global,
        key: AskedKey<'_>,
        front: &[u8],
        rest: &[u8],
    ) -> Result<(), NoMemory>
        ensures ok { OnOk result (self.new ≡ behind_put (key_of key.entry) (front.now ++ rest.now) self.old) }
        ensures err { OnErr result (self.new ≡ self.old) }
    {
        let mut entry = self.room(alloc)?;
        entry.fill(key, front, rest)?;
        let Entry { key, text } = entry;
        if let Some((key, text)) = self.kept.push(key, text)? {
            self.spare_short(key, text);
        }
        Ok(())
    }

    /// What gave way, or memory that is new.
    fn room(&mut self, alloc: Global) -> Result<Entry, NoMemory>
        ensures { self.new ≡ self.old }
    {
        match self.spare.take() {
            Some(entry) => Ok(entry),
            None => Entry::empty(alloc),
        }
    }

    /// Keeps the memory of what gave way, where that is little.
    fn spare_short(&mut self, key: CacheKey, text: HeldText)
        ensures { self.new ≡ self.old }
    {
        if text.as_slice().len() <= LONGEST_SPARE {
            self.spare = Some(Entry { key, text });
        }
    }

    /// No key is held twice, and no more answers are than there may be.
    pub fn bounded(&self)
        ensures { IsBounded self.now }
    {
        // A proof knows what the map keeps where it is asked.
        let _count = self.kept.len();
    }

    /// How many calls of `get` gave something, up to 2^64 - 1, where it stays.
    pub fn hits(&self) -> u64
        ensures { result ≡ self.now.hits }
    {
        self.hits
    }

    /// How many calls of `put` found no memory, and how many answers were told to [`Cache::miss`], up to 2^64 - 1, where it stays.
    pub fn missed(&self) -> u64
        ensures { result ≡ self.now.missed }
    {
        self.missed
    }
}
