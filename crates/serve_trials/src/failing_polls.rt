//! A run of `serve` whose third poll fails, where each other call of the port fails too, in turn.

use crate::outside::{INIT, Outside, Trial, each_is_right, end_of};
use crate::polls::{add_all, sends_alone};
use crate::texts::{field, number_or};
use bridge_core::Status;
use memory_io::MemoryPort;
use nmc_base::NoMemory;
use std::alloc::Global;
use std::test::Fail;

/// The number of the third poll, behind those of the call that binds the port, of two polls and of a reply.
const THIRD_POLL: u64 = 5;

/// A query, nothing, and the first block in two pieces.
static POLLS: &str = "query 7 asked; nothing; feed 011d010000 block:0-100; feed block:100-285";

/// How many polls are made, which other call fails, and what is sent: a poll that fails takes the time of one that brings something.
static RUNS: &str = "\
5 | 5 | reply 7 told; feed accepted
5 | 2 | reply 7 told
5 | 4 | reply 7 told
5 | 6 | reply 7 told
5 | 7 | reply 7 told
6 | 2 | reply 7 told; feed accepted
6 | 4 | reply 7 told; feed accepted
6 | 6 | reply 7 told; feed accepted
6 | 7 | reply 7 told; feed accepted
6 | 8 | reply 7 told
5 | 3 | feed accepted
";

/// The words for so many polls.
fn words(polls: &str) -> &'static str {
    match polls {
        "5" => "serve 53 8336 5",
        _ => "serve 53 8336 6",
    }
}

struct Served;

impl Trial for Served {
    fn is_right(alloc: Global, outside: &mut Outside, row: &str) -> Result<bool, NoMemory> {
        let is_made = end_of(alloc, outside, INIT) == Status::Done;
        outside.port = MemoryPort::new(alloc, &[THIRD_POLL, number_or(field(row, 1), 0)])?;
        add_all(alloc, &mut outside.port, POLLS)?;
        let is_done = end_of(alloc, outside, words(field(row, 0))) == Status::Done;
        Ok(is_made && is_done && sends_alone(alloc, &outside.port, field(row, 2))?)
    }
}

#[test]
fn what_comes_is_answered_whichever_poll_fails(rt: HostRuntime) -> Result<(), Fail> {
    each_is_right::<Served>(&rt, rt.alloc(), RUNS)?;
    Ok(())
}
