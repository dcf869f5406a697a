//! Coins and names in the order in which an image lists them.

use crate::places::FilledCoins;
use name_table::Table;

/// A coin, by its place in the table, behind the first bytes of its outpoint.
#[derive(Clone, Copy)]
pub(crate) struct CoinPlace {
    pub(crate) front: [u8; 4],
    pub(crate) place: u32,
}

/// A name, by its place in the table, behind its first bytes; zeros stand for those that it lacks.
#[derive(Clone, Copy)]
pub(crate) struct NamePlace {
    pub(crate) front: [u8; 8],
    pub(crate) place: u32,
}

/// The coins and the names of a state, in the order in which an image lists them.
#[derive(Drop)]
pub(crate) struct Listed<'a> {
    pub(crate) coins: Vec<CoinPlace>,
    pub(crate) names: Vec<NamePlace>,
    pub(crate) coin_table: FilledCoins<'a>,
    pub(crate) name_table: &'a Table,
}
