//! What a pin alone held, let go of some parts at a time.

ghost use Rattle.std.specs.Prelude.{◌≡◌, ◌-◌, nat_eq};

use crate::chunks::Chunks;
use crate::hints::Hinted;
use crate::level::Level;
use crate::part::Part;
use crate::sub::Sub;
use std::marker::Model;

/// Parts that are to be let go of, some at a time.
///
/// Contracts see how many they are.
#[derive(Drop)]
pub struct Waste<K: Hinted, V, T: Part<K, V>> {
    subs: Vec<Sub<K, V, T>>,
}

impl<K: Hinted, V, T: Part<K, V>> Model for Waste<K, V, T> {
    ghost use Rattle.std.specs.Prelude.{ℕ, length};

    ghost Value = { ℕ };

    ghost view = { λ w. length w.subs.items };
}

impl<K: Hinted + Drop, V: Drop, T: Part<K, V> + Drop> Waste<K, V, T> {
    /// What is left where the pairs are given up, or None where another pin stands over the same top. It takes no memory.
    pub fn of(chunks: Chunks<K, V, Level<K, V, T>>) -> Option<Waste<K, V, T>> {
        let level = chunks.into_top()?.into_part()?;
        Some(Waste {
            subs: level.into_subs(),
        })
    }

    /// Lets go of so many parts, or of all that are left where these are fewer; answers whether none is left. It takes no memory.
    pub fn let_go(&mut self, most: usize) -> bool
        ensures count { self.new ≡ self.old - most }
        ensures done { result ≡ nat_eq self.new 0 }
    {
        let left = self.subs.len().saturating_sub(most);
        self.subs.truncate(left);
        left == 0
    }
}
