//! The number that stands for a name: by it a key is hashed, and names are told apart before their bytes are compared.

ghost use Rattle.std.specs.Prelude.{◌≡◌};
ghost use Rattle.std.specs.Hash.FoldHasher as folding;
ghost use Rattle.answer_cache.specs.Marks as marks;

use std::collections::hash_map::DefaultHasher;
use std::hash::{FoldHasher, Hasher};

/// The mark of a name of at most so many bytes is made quickly: where two names have one, their bytes are compared as quickly as numbers.
const LONGEST_SHORT: usize = 32;

/// That of a short name: by the kit's quick hash, of which whoever chooses names can have as many of one number as they like.
fn quick_mark(name: &[u8]) -> u64
    ensures { result ≡ folding.finish (folding.write folding.initial name.now) }
{
    let mut hasher = FoldHasher::default();
    hasher.write(name);
    hasher.finish()
}

/// The mark of a name: of a short one by the kit's quick hash, and else its SipHash-1-3 with both keys 0. That as many long names have
/// one mark isn't known to be feasible.
pub fn mark_of(name: &[u8]) -> u64
    ensures { result ≡ marks.mark_of name.now }
{
    if name.len() <= LONGEST_SHORT {
        return quick_mark(name);
    }
    let mut hasher = DefaultHasher::new();
    hasher.write(name);
    hasher.finish()
}
