//! What a mirror that was pinned held alone, to be let go of some parts at a time.

use chain_names::{Coin, Item};
use nmc_base::OutPoint;
use pin_views::{MapWaste, NameKey, SharedStack};

/// Parts of the coins, and of the names with their items. None is nothing to let go of, since others stand over the same parts.
#[derive(Drop)]
pub struct MirrorWaste {
    pub coins: Option<MapWaste<OutPoint, Coin>>,
    pub names: Option<MapWaste<NameKey, SharedStack<Item>>>,
}
