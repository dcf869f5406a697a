//! How many bytes each part of a mirror's image may have.

/// So many bytes of an image the records may take, the coins, and the names: more are refused as want of memory. The three together,
/// with what stands around them, are counted in 64 bits.
pub(crate) const MOST: u64 = 4_611_686_018_427_387_904;
