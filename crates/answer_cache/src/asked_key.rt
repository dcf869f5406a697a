//! What is asked, as a key that an answer can be looked for by without a copy.

ghost use Rattle.std.specs.Prelude.{◌≡◌, if◌then◌else◌};
ghost use Rattle.std.specs.Cmp.{on_per, on_equiv};
ghost use Rattle.answer_cache.specs.Keys.{key_of, key_number, same_key, key_writes};
ghost use Rattle.answer_cache.specs.KeyLaws.{same_key-equivalence, same_key-partial_equivalence, same_writes};

use crate::cache_key::CacheKey;
use std::collections::hash_map::Equivalent;
use std::hash::{Hash, Hasher};

// The weights of the fields in the number that is hashed for them.

/// QTYPE, above the 31 low bits of the count.
const KIND_UNIT: u64 = 0x8000_0000;

/// The limit, above QTYPE.
const LIMIT_UNIT: u64 = 0x8000_0000_0000;

/// Whether there is an OPT record, above the limit.
const EDNS_UNIT: u64 = 0x8000_0000_0000_0000;

/// What an answer is asked for by: a [`CacheKey`] whose name lies elsewhere. A look-up by it takes no memory.
#[derive(Clone, Copy)]
pub struct AskedKey<'a> {
    /// How many connects and disconnects were accepted so far.
    pub accepted: u64,
    /// The QNAME in its wire form (RFC 1035, 3.1), in lower case.
    pub name: &'a [u8],
    /// That of the name, by [`mark_of`](crate::mark_of).
    pub mark: u64,
    /// The QTYPE (RFC 1035, 3.2.3).
    pub kind: u16,
    /// How many bytes the reply may have.
    pub limit: u16,
    /// Whether the query has an OPT record (RFC 6891, 6.1).
    pub edns: bool,
}

/// What an OPT record weighs.
fn edns_number(edns: bool) -> u64
    ensures { result ≡ (if edns then 0x8000_0000_0000_0000 else 0) }
{
    if edns { EDNS_UNIT } else { 0 }
}

impl AskedKey<'_> {
    /// The fields but the name, in one number.
    fn number(&self) -> u64
        ensures { result ≡ key_number (key_of self.now) }
    {
        self.accepted % KIND_UNIT
            + u64::from(self.kind) * KIND_UNIT
            + u64::from(self.limit) * LIMIT_UNIT
            + edns_number(self.edns)
    }
}

impl PartialEq for AskedKey<'_> {
    ghost eq = { λ a b. same_key (key_of a) (key_of b) };

    ghost laws = { on_per key_of same_key-partial_equivalence };

    // The mark comes first: a look-up that meets many names with the hash of its own passes each by one comparison.
    fn eq(&self, other: &AskedKey<'_>) -> bool {
        self.mark == other.mark
            && self.accepted == other.accepted
            && self.kind == other.kind
            && self.limit == other.limit
            && self.edns == other.edns
            && self.name == other.name
    }
}

impl Eq for AskedKey<'_> {
    ghost laws = { on_equiv key_of same_key-equivalence };
}

impl Hash for AskedKey<'_> {
    ghost hash_input = { λ a. key_writes (key_of a) };

    ghost respects_eq = { λ a b. same_writes (key_of a) (key_of b) };

    fn hash<H: Hasher>(&self, state: &mut H) {
        (self.number() ^ self.mark).hash(state);
    }
}

impl Equivalent<CacheKey> for AskedKey<'_> {
    ghost equivalent = { λ a k. same_key (key_of a) k };

    ghost respects_hash = { λ a k. same_writes (key_of a) k };

    ghost respects_eq = { λ a x y. same_key-equivalence.congr (key_of a) x y };

    fn equivalent(&self, key: &CacheKey) -> bool {
        *self == key.asked()
    }
}
