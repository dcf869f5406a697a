//! Laws of the cache. Each is the contract of a function that does nothing.

ghost use Rattle.std.specs.Prelude.{◌≡◌, ℕ, List, [], Some, None};
ghost use Rattle.std.specs.Bool.{Decides};
ghost use Rattle.answer_cache.specs.Keys.{same_key};
ghost use Rattle.answer_cache.specs.Cached.{Cached, empty_cache, held, behind_get, behind_put};
ghost use Rattle.answer_cache.specs.declared.cache_key.CacheKey.{CacheKey};

/// Two keys are one exactly where each of the six fields is the same.
pub fn exact_keys()
    ensures { (a b : CacheKey) → Decides (same_key a b) (a ≡ b) }
{}

/// What was put is found, and nothing else comes to be held: look-ups leave what is held under each key, and so does a put at
/// the other keys, but for what gives way.
pub fn held_is_put()
    ensures empty { (key : CacheKey) (capacity : ℕ) → held key (empty_cache capacity) ≡ None }
    ensures got { (key other : CacheKey) (cached : Cached) → held other (behind_get key cached) ≡ held other cached }
    ensures put { (key : CacheKey) (text : List ℕ) (cached : Cached) → held key (behind_put key text cached) ≡ Some text }
    ensures others { (key other : CacheKey) (text kept : List ℕ) (cached : Cached) → ¬ (key ≡ other)
        → held other (behind_put key text cached) ≡ Some kept → held other cached ≡ Some kept }
{}
