//! What undoes a block.

use crate::coin::{Coin, HeldCoin, Item};
use crate::kept_op::KeptOp;
use nmc_base::{Boxed, CompactBytes, Hash32, OutPoint, RoomyList};

/// What undoes one name operation.
#[derive(Drop)]
pub enum UndoOp {
    New {
        made: OutPoint,
    },
    First {
        made: OutPoint,
        spent: OutPoint,
        coin: Coin,
        name: CompactBytes,
        before: Option<Boxed<Item>>,
    },
    Update {
        made: OutPoint,
        spent: OutPoint,
        coin: Coin,
        name: CompactBytes,
        before: Option<Boxed<Item>>,
    },
}

/// What undoes a block.
///
/// Contracts see it by `seen_undo`: without the spare room of its lists.
#[derive(Drop)]
pub struct Undo {
    /// The block's hash.
    pub block: Hash32,
    /// The block's operations on names, in order.
    pub ops: RoomyList<KeptOp>,
    /// The coins that expired with the block, by their outpoints.
    pub expired: RoomyList<HeldCoin>,
}
