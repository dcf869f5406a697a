//! How many answers are kept, and how long they may be.

/// So many answers are kept at most.
pub const MOST_KEPT: usize = 1_024;

/// An answer of which the records have more bytes isn't kept: so all that are kept have some 1.3 MB at most. It is the size
/// of a reply over UDP, so longer ones go over TCP alone.
pub const LONGEST_KEPT: usize = 1_232;
