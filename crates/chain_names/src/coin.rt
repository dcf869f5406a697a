//! Coins of name outputs, and values of names.

use nmc_base::{Bytes, CompactBytes, Hash20, OutPoint};

/// The coin of a name output: what the output holds, and the height of its block.
#[derive(Drop)]
pub enum Coin {
    /// A commitment to a name, which never expires.
    New { hash: Hash20, height: u32 },
    /// A name.
    Named { name: CompactBytes, height: u32 },
}

/// A coin, and the output that holds it.
#[derive(Drop)]
pub struct HeldCoin {
    pub at: OutPoint,
    pub coin: Coin,
}

/// A value that a name was given.
#[derive(Drop)]
pub struct Item {
    /// The height of its block.
    pub height: u32,
    /// The height at which the name's registration began: that of the block in which it was opened last.
    pub registered: u32,
    /// The output that gave it.
    pub at: OutPoint,
    pub value: Bytes,
}
