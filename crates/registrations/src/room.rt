//! A list with room for so many items.

ghost use Rattle.std.specs.Prelude.{◌≡◌, ◌≤◌, [], IfOk};

use nmc_base::{NoMemory, RoomyList};
use std::alloc::Global;

/// The empty list, with room for so many items.
pub(crate) fn with_room<T: Drop>(alloc: Global, count: usize) -> Result<RoomyList<T>, NoMemory>
    ensures items { IfOk result (λ list. list.items ≡ []) }
    ensures room { IfOk result (λ list. count ≤ list.spare) }
{
    let mut list = RoomyList::new(alloc);
    list.reserve(count)?;
    Ok(list)
}
