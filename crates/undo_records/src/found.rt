//! What was found in bytes, before it has memory of its own.

use nmc_base::{Hash20, OutPoint};

/// A coin.
#[derive(Clone, Copy)]
pub enum FoundCoin<'a> {
    New { hash: Hash20, height: u32 },
    Named { name: &'a [u8], height: u32 },
}

/// An item of a history. Its registration height is 0 where the text has none.
#[derive(Clone, Copy)]
pub struct FoundItem<'a> {
    pub height: u32,
    pub registered: u32,
    pub at: OutPoint,
    pub value: &'a [u8],
}

/// What an operation on a name has behind its tag.
#[derive(Clone, Copy)]
pub struct FoundChange<'a> {
    /// The output that it made.
    pub made: OutPoint,
    /// The output that it spent, and its coin.
    pub spent: OutPoint,
    pub coin: FoundCoin<'a>,
    pub name: &'a [u8],
    /// The item before, if there was one.
    pub before: Option<FoundItem<'a>>,
}

/// The operation that a change is, and so the kind of the coin that it spends.
#[derive(Clone, Copy)]
pub enum ChangeKind {
    First,
    Update,
}

/// An operation.
#[derive(Clone, Copy)]
pub enum FoundOp<'a> {
    /// A commitment was made.
    New { made: OutPoint },
    /// A name was registered or updated.
    Change(ChangeKind, FoundChange<'a>),
}
