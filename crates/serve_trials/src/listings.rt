//! Listing sessions: a name page by page while its block leaves the chain, and the numbers of sessions.

use crate::outside::{Outside, Trial, each_is_right, end_of};
use crate::saves::is_named;
use crate::texts::{bytes_of, field};
use bridge_core::Status;
use nmc_base::NoMemory;
use std::alloc::Global;
use std::test::Fail;

/// Runs of `list 1` over files with the name: the input, and what it is answered with. The first turns the page of the name, the second
/// does so behind the disconnect of its block, the third opens one session more than may be open, and the fourth asks for numbers that
/// aren't open, and opens a session again under the number of a closed one.
static LISTED: &str = "\
0500000000 060400000000000000 060400000000000000 070400000000000000 060400000000000000 | 000400000000000000 0026000000010100000009642f6578616d706c650d0000000110007b226970223a22312e322e332e34227d 00050000000100000000 0000000000 2000000000
0500000000 0220000000939ca902d3cdac7bfc7c562878b307be445d02a2c8243a979d932012256d58f8 060400000000000000 0500000000 060400000001000000 | 000400000000000000 00240000000c00000055f4477db342546a07f1814f292e4ebe2e41613a6eda5670df737b245213de8c 0026000000010100000009642f6578616d706c650d0000000110007b226970223a22312e322e332e34227d 000400000001000000 00050000000100000000
060400000005000000 0500000000 0500000000 0500000000 0500000000 0500000000 0500000000 0500000000 0500000000 0500000000 | 2000000000 000400000000000000 000400000001000000 000400000002000000 000400000003000000 000400000004000000 000400000005000000 000400000006000000 000400000007000000 1f00000000
0604000000ffffffff 0704000000ffffffff 0500000000 0500000000 070400000000000000 0500000000 | 2000000000 2000000000 000400000000000000 000400000001000000 0000000000 000400000000000000
";

struct Listed;

impl Trial for Listed {
    fn is_right(alloc: Global, outside: &mut Outside, row: &str) -> Result<bool, NoMemory> {
        let is_named = is_named(alloc, outside)?;
        outside.begin(alloc, "whole", "whole", field(row, 0))?;
        let status = end_of(alloc, outside, "list 1");
        let wanted = bytes_of(alloc, field(row, 1))?;
        Ok(is_named && status == Status::Done && outside.sink.bytes() == wanted.as_slice())
    }
}

#[test]
fn sessions_page_through_the_chain_that_they_were_opened_on(rt: HostRuntime) -> Result<(), Fail> {
    each_is_right::<Listed>(&rt, rt.alloc(), LISTED)?;
    Ok(())
}

/// The same frames in a replay, and those of a save in slices: a bad frame at each kind.
static NOT_REPLAYED: &str = "\
0500000000
060400000000000000
070400000000000000
begin
slice ffffffff
";

struct NotReplayed;

impl Trial for NotReplayed {
    fn is_right(alloc: Global, outside: &mut Outside, row: &str) -> Result<bool, NoMemory> {
        let is_named = is_named(alloc, outside)?;
        outside.begin(alloc, "whole", "whole", row)?;
        let status = end_of(alloc, outside, "replay");
        Ok(is_named && status == Status::BadFrame { offset: 0 } && outside.sink.bytes().is_empty())
    }
}

#[test]
fn a_replay_knows_no_sessions_and_no_slices(rt: HostRuntime) -> Result<(), Fail> {
    each_is_right::<NotReplayed>(&rt, rt.alloc(), NOT_REPLAYED)?;
    Ok(())
}
