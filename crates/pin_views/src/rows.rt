//! The rows of the names of a table.

ghost use Rattle.std.specs.Prelude.{◌≡◌, ◌+◌, ◌*◌, ◌≤◌, ℕ, List, length, IfOk};
ghost use Rattle.std.specs.Cmp.Lexicographic.{slice_cmp};
ghost use Rattle.std.specs.Ordering.{nat_cmp};
ghost use Rattle.chain_names.specs.Tables.{AreNamesFilled};
ghost use Rattle.shared_chunks.specs.Pairs.{AreInOrder, value_at};
ghost use Rattle.pin_views.specs.Rows.{row_at};

use crate::map::SharedMap;
use crate::name_key::NameKey;
use name_table::Table;
use nmc_base::{Bytes, NoMemory, Steps};
use std::alloc::Global;
use std::sync::ledger::Ledger;

/// The last value that a name was given.
#[derive(Drop)]
pub struct Row {
    /// The height of its block.
    pub height: u32,
    pub value: Bytes,
}

/// The row of each name that has a value: its last one, whether the name is expired or not. Each name is looked at once.
pub fn rows_of<L: Ledger>(
    alloc: Global,
    table: &Table,
    steps: &mut Steps<L>,
) -> Result<SharedMap<NameKey, Row>, NoMemory>
    requires { AreNamesFilled table.now }
    ensures rows { IfOk result (λ rows. (name : List ℕ) → value_at (slice_cmp nat_cmp) rows name ≡ row_at table.now name) }
    ensures order { IfOk result (AreInOrder (slice_cmp nat_cmp)) }
    ensures cost { steps.new ≤ steps.old + (2 * length table.now + 1) }
{
    let mut rows = SharedMap::new();
    for i in 0..usize::MAX {
        match table.name_at(i, steps) {
            None => return Ok(rows),
            Some(name) => match table.last(name, steps) {
                None => unreachable!(),
                Some(item) => {
                    let row = Row {
                        height: item.height,
                        value: Bytes::copy_of(alloc, item.value.as_slice())?,
                    };
                    rows.set(alloc, NameKey::copy_of(alloc, name)?, row)?;
                }
            },
        }
    }
    Err(NoMemory)
}
