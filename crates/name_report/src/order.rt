//! The names in the order of their bytes.

ghost use Rattle.std.specs.Prelude.{◌≡◌, ◌<◌, IfOk};
ghost use Rattle.std.specs.Map.{keys_of};
ghost use Rattle.name_report.specs.Order.{Orders, bytes_of};

use name_table::Table;
use nmc_base::{NoMemory, Steps};
use std::alloc::Global;
use std::collections::BTreeSet;
use std::sync::ledger::{Blank, Ledger};

/// The names that have a place, in the order of their bytes. Nobody reads the steps that it takes.
pub(crate) fn in_order<'a, L: Ledger>(
    alloc: Global,
    names: &'a Table,
    blank: Blank,
) -> Result<BTreeSet<&'a [u8]>, NoMemory>
    requires name { blank.name ≡ L.name }
    requires parts { blank.parts ≡ L.parts }
    requires some { 0 < blank.parts }
    ensures { IfOk result (λ listed. Orders (keys_of names.now) (bytes_of listed.keys)) }
{
    let mut steps = Steps::<L>::new(blank);
    let mut listed = BTreeSet::new(alloc);
    for i in 0..usize::MAX {
        match names.name_at(i, &mut steps) {
            Some(name) => {
                listed.insert(name)?;
            }
            None => return Ok(listed),
        }
    }
    // So many names aren't in any memory.
    Err(NoMemory)
}
