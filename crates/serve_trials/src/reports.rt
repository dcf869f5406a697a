//! Reports of a chain without names, for a sink whose writes fail in turn.

use chain_state::Chain;
use memory_io::MemorySink;
use name_report::{ReportFault, report};
use nmc_base::{Base, Hash32, Profile};
use std::alloc::Global;
use std::process::Abort;
use std::test::Fail;

const REPORT: &[u8] = b"tip 40 00000000000000000000000000000000000000000000000000000000000000ab\n";

/// The chain of a base alone, at the height 40.
fn empty_chain(alloc: Global) -> Result<Chain, Fail> {
    let mut hash = [0; 32];
    hash[0] = 0xab;
    let base = Base {
        profile: Profile::Regtest,
        height: 40,
        hash: Hash32(hash),
    };
    Ok(Chain::at_base(alloc, base)?)
}

/// What comes of the report of that chain for a sink.
fn told(alloc: Global, sink: &mut MemorySink) -> Result<Result<(), ReportFault>, Fail> {
    let chain = empty_chain(alloc)?;
    Ok(report(alloc, &chain, sink))
}

fn is_told(
    rt: &impl Abort,
    alloc: Global,
    sink: &mut MemorySink,
    want: Result<(), ReportFault>,
) -> Result<(), Fail> {
    let got = told(alloc, sink)?;
    assert!(rt; got == want);
    Ok(())
}

fn has_taken(rt: &impl Abort, sink: &MemorySink, taken: &[u8]) {
    assert_eq!(rt; sink.taken(), taken);
}

/// What a sink whose listed writes fail took of the report, and what came of it.
fn reports(
    rt: &impl Abort,
    alloc: Global,
    fail: &[u64],
    want: Result<(), ReportFault>,
    taken: &[u8],
) -> Result<(), Fail> {
    let mut sink = MemorySink::new(alloc, fail)?;
    is_told(rt, alloc, &mut sink, want)?;
    has_taken(rt, &sink, taken);
    Ok(())
}

#[test]
fn a_chain_without_names_has_one_line(rt: HostRuntime) -> Result<(), Fail> {
    reports(&rt, rt.alloc(), &[], Ok(()), REPORT)
}

#[test]
fn each_write_fails_in_turn(rt: HostRuntime) -> Result<(), Fail> {
    reports(&rt, rt.alloc(), &[1], Err(ReportFault::SinkFault), b"")?;
    reports(&rt, rt.alloc(), &[2], Ok(()), REPORT)
}
