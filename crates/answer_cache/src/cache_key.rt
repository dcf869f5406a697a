//! What an answer is kept under.

ghost use Rattle.std.specs.Prelude.{◌≡◌, OnOk};
ghost use Rattle.answer_cache.specs.Keys.{key_of, same_key, key_writes};
ghost use Rattle.answer_cache.specs.KeyLaws.{same_key-equivalence, same_key-partial_equivalence, same_writes};

use crate::asked_key::AskedKey;
use nmc_base::{Bytes, NoMemory};
use std::alloc::Global;
use std::hash::{Hash, Hasher};

/// Names with as many bytes stand in the memory that a key takes at once. So a key whose name gives way to a longer one seldom needs more.
const NAME_ROOM: usize = 64;

/// What an answer is kept under.
#[derive(Drop)]
pub struct CacheKey {
    /// How many connects and disconnects were accepted when it was made.
    pub accepted: u64,
    /// The QNAME in its wire form (RFC 1035, 3.1), in lower case.
    pub name: Bytes,
    /// That of the name, by [`mark_of`](crate::mark_of).
    pub mark: u64,
    /// The QTYPE (RFC 1035, 3.2.3).
    pub kind: u16,
    /// How many bytes the reply may have.
    pub limit: u16,
    /// Whether the query has an OPT record (RFC 6891, 6.1).
    pub edns: bool,
}

impl CacheKey {
    /// The key with nothing in its fields, and with room for most names.
    pub(crate) fn empty(alloc: Global) -> Result<CacheKey, NoMemory> {
        let mut name = Bytes::new(alloc);
        name.zeros(NAME_ROOM)?;
        name.clear();
        Ok(CacheKey {
            accepted: 0,
            name,
            mark: 0,
            kind: 0,
            limit: 0,
            edns: false,
        })
    }

    /// Makes it the key that the other stands for.
    pub(crate) fn set(&mut self, asked: AskedKey<'_>) -> Result<(), NoMemory>
        ensures { OnOk result (self.new ≡ key_of asked.entry) }
    {
        self.accepted = asked.accepted;
        self.mark = asked.mark;
        self.kind = asked.kind;
        self.limit = asked.limit;
        self.edns = asked.edns;
        self.name.clear();
        self.name.extend(asked.name)
    }

    /// The same, whose name lies here.
    pub fn asked(&self) -> AskedKey<'_>
        ensures { key_of result ≡ self.now }
    {
        AskedKey {
            accepted: self.accepted,
            name: self.name.as_slice(),
            mark: self.mark,
            kind: self.kind,
            limit: self.limit,
            edns: self.edns,
        }
    }
}

impl PartialEq for CacheKey {
    ghost eq = { same_key };

    ghost laws = { same_key-partial_equivalence };

    fn eq(&self, other: &CacheKey) -> bool {
        self.asked() == other.asked()
    }
}

impl Eq for CacheKey {
    ghost laws = { same_key-equivalence };
}

impl Hash for CacheKey {
    ghost hash_input = { key_writes };

    ghost respects_eq = { same_writes };

    fn hash<H: Hasher>(&self, state: &mut H) {
        self.asked().hash(state);
    }
}
