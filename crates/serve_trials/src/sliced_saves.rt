//! Saves in slices: their replies, the files opened again behind them, each stop of the disk while a block leaves the chain and comes
//! back between the slices, and each of its calls failing.

use crate::courses::{EachCall, EachStop};
use crate::outside::{INIT, Outside, Trial, each_is_right, end_of, is_right_by, is_told_by};
use crate::texts::field;
use bridge_core::Status;
use nmc_base::NoMemory;
use std::alloc::Global;
use std::test::Fail;

// ---- replies

/// A run of `list`, and a replay over the files behind it: of each its input, and what it is answered with.
static RUNS: &str = "\
first begin begin save slice ffffffff slice 00000000 save | accepted begun running running selected 0100000000000000 2200000000 saved 0200000000000000 | first | not-on-tip
first begin slice 20000000 back slice 00000000 first slice ffffffff save | accepted begun more base more accepted selected 0100000000000000 saved 0200000000000000 | first save | not-on-tip saved 0300000000000000
slice 01000000 begin first back slice ffffffff back | 2200000000 begun accepted base selected 0100000000000000 at-base | first | accepted
first begin slice 20000000 | accepted begun more | first save | not-on-tip saved 0100000000000000
";

struct Sliced;

impl Trial for Sliced {
    fn is_right(alloc: Global, outside: &mut Outside, row: &str) -> Result<bool, NoMemory> {
        let is_made = end_of(alloc, outside, INIT) == Status::Done;
        let is_sliced = is_told_by(alloc, outside, "list 50", field(row, 0), field(row, 1))?;
        let goes_on = is_told_by(alloc, outside, "replay", field(row, 2), field(row, 3))?;
        Ok(is_made && is_sliced && goes_on)
    }
}

#[test]
fn slices_are_written_between_blocks_and_selected(rt: HostRuntime) -> Result<(), Fail> {
    each_is_right::<Sliced>(&rt, rt.alloc(), RUNS)?;
    Ok(())
}

// ---- stops and failing calls

/// A save in slices with a disconnect and a connect between them. The beginning cuts the area and writes the image's length; each of the
/// first two slices is one write; and the last writes the image's rest, copies the records, closes the area, syncs it and selects it.
static SLICES: &str = "\
list 50 | first block | 39
begin | begun | 2 | not-on-tip saved 0100000000000000 | 1
slice 20000000 | more | 1 | not-on-tip saved 0100000000000000 | 1
back | base | 4 | not-on-tip saved 0100000000000000 | 1
slice 00000000 | more | 1 | accepted saved 0100000000000000 | 0
first | accepted | 4 | accepted saved 0100000000000000 | 0
slice ffffffff | selected 0100000000000000 | 9 | not-on-tip saved 0100000000000000 | 1
 |  |  | not-on-tip saved 0200000000000000 | 1";

#[test]
fn opens_as_of_a_command_wherever_slices_stop(rt: HostRuntime) -> Result<(), Fail> {
    is_right_by::<EachStop>(&rt, rt.alloc(), SLICES)?;
    Ok(())
}

/// Where one of the calls fails, the run ends with a fault of the disk.
#[test]
fn tells_the_call_of_slices_that_fails(rt: HostRuntime) -> Result<(), Fail> {
    is_right_by::<EachCall>(&rt, rt.alloc(), SLICES)?;
    Ok(())
}
