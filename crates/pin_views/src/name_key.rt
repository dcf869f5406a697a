//! A name as the key of a map.

ghost use Rattle.std.specs.Prelude.{◌≡◌, ◌≤◌, length, IfOk, IsOk, Some, nat_eq, refl};
ghost use Rattle.std.specs.Cmp.{partial_equiv_from_equiv};
ghost use Rattle.std.specs.Cmp.Lexicographic.{pointwise, slice_cmp, nat_list_eq_equiv, nat_list_cmp_total, texts_ties, texts_po};
ghost use Rattle.std.specs.Ordering.{nat_cmp};
ghost use Rattle.shared_chunks.specs.Eight.{number};
ghost use Rattle.shared_chunks.specs.Rising.{rising};

use nmc_base::{CompactBytes, NoMemory};
use shared_chunks::{Hinted, number_of};
use std::alloc::Global;
use std::cmp::Ordering;
use std::marker::Model;

/// A name as the key of a map: keys are ordered byte by byte, and a name that begins another is below it.
///
/// Contracts see the list of its bytes.
#[derive(Drop)]
pub struct NameKey {
    bytes: CompactBytes,
}

impl Model for NameKey {
    ghost use Rattle.std.specs.Prelude.{List, ℕ};

    ghost Value = { List ℕ };

    ghost view = { λ key. key.bytes };
}

impl NameKey {
    /// The key of this name.
    pub fn copy_of(alloc: Global, name: &[u8]) -> Result<NameKey, NoMemory>
        ensures bytes { IfOk result (λ key. key ≡ name.now) }
        // So few take no memory.
        ensures few { length name.now ≤ 15 → IsOk result }
    {
        let bytes = CompactBytes::copy_of(alloc, name)?;
        Ok(NameKey { bytes })
    }

    /// The bytes of the name.
    pub fn as_slice(&self) -> &[u8]
        ensures { result.now ≡ self.now }
    {
        self.bytes.as_slice()
    }
}

impl PartialEq for NameKey {
    ghost eq = { pointwise nat_eq };

    ghost laws = { partial_equiv_from_equiv nat_list_eq_equiv };

    fn eq(&self, other: &NameKey) -> bool {
        self.as_slice() == other.as_slice()
    }
}

impl Eq for NameKey {
    ghost laws = { nat_list_eq_equiv };
}

impl PartialOrd for NameKey {
    ghost partial_cmp = { λ x y. Some (slice_cmp nat_cmp x y) };

    ghost laws = { texts_po };

    fn partial_cmp(&self, other: &NameKey) -> Option<Ordering> {
        Some(self.cmp(other))
    }
}

impl Ord for NameKey {
    ghost cmp = { slice_cmp nat_cmp };

    ghost total = { nat_list_cmp_total };

    ghost matches_partial_cmp = { λ x y. refl };

    ghost matches_eq = { texts_ties };

    fn cmp(&self, other: &NameKey) -> Ordering {
        self.as_slice().cmp(other.as_slice())
    }
}

impl Hinted for NameKey {
    ghost hint_of = { number 8 };

    fn hint(&self) -> u64 {
        number_of(self.as_slice())
    }

    ghost hints_rise = { rising 8 };
}
