//! The names that were met, by their ranks in the order of their bytes.

ghost use Rattle.std.specs.Prelude.{◌≤◌, length};

use crate::book::Named;
use nmc_base::NoMemory;

/// Whether the name of this rank comes before another.
fn is_before(names: &[Named], order: &[usize], rank: usize, name: &[u8]) -> bool {
    match order.get(rank) {
        Some(place) => match names.get(*place) {
            Some(named) => named.name.as_slice() < name,
            None => false,
        },
        None => false,
    }
}

/// How many of the names whose places are in order come before this one.
pub(crate) fn rank(names: &[Named], order: &[usize], name: &[u8]) -> usize
    ensures { result ≤ length order.now }
{
    let mut low = 0;
    let mut high = order.len();
    while low < high {
        let middle = low + (high - low) / 2;
        if is_before(names, order, middle, name) {
            low = middle + 1;
        } else {
            high = middle;
        }
    }
    low
}

/// Brings the places of all names in the order of their bytes: those of the first names are.
pub(crate) fn rank_all(names: &[Named], order: &mut Vec<usize>) -> Result<(), NoMemory> {
    for place in order.len()..names.len() {
        let at = rank(names, order.as_slice(), names[place].name.as_slice());
        order.insert(at, place)?;
    }
    Ok(())
}
