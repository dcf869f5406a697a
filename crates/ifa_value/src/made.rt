//! The elements of an item, made once.

use crate::item::{Elements, Key};

/// The elements of an item.
#[derive(Drop)]
pub(crate) struct MadeItem {
    pub(crate) key: Key,
    pub(crate) elements: Elements,
}
