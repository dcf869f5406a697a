//! What a pin of a map alone held, let go of some parts at a time.

ghost use Rattle.std.specs.Prelude.{◌≡◌, ◌-◌, nat_eq};

use shared_chunks::{Hinted, Leaf, Level, Waste};
use std::marker::Model;

/// Parts of a map that nobody looks at any more. One has 3,072 pairs at most, and to let go of one costs no more than these.
///
/// Contracts see how many parts are left.
#[derive(Drop)]
pub struct MapWaste<K: Hinted + Drop, V: Drop> {
    pub(crate) parts: Waste<K, V, Level<K, V, Leaf<K, V>>>,
}

impl<K: Hinted + Drop, V: Drop> Model for MapWaste<K, V> {
    ghost use Rattle.std.specs.Prelude.{ℕ};

    ghost Value = { ℕ };

    ghost view = { λ w. w.parts };
}

impl<K: Hinted + Drop, V: Drop> MapWaste<K, V> {
    /// Lets go of so many parts, or of all that are left where these are fewer; answers whether none is left. It takes no memory.
    pub fn let_go(&mut self, most: usize) -> bool
        ensures count { self.new ≡ self.old - most }
        ensures done { result ≡ nat_eq self.new 0 }
    {
        self.parts.let_go(most)
    }
}
