//! Answers kept by what was asked, of which the ones least recently used give way: a bounded map that counts its hits.
#![tactic(auto)]

mod asked_key;
mod cache;
mod cache_key;
mod entry;
mod held;
mod law;
mod mark;

pub use asked_key::AskedKey;
pub use cache::Cache;
pub use cache_key::CacheKey;
pub use law::{exact_keys, held_is_put};
pub use mark::mark_of;
