//! Bytes and values that are kept in memory of their own.

use crate::comparing::{same, same_number};
use nmc_base::{Boxed, CompactBytes};
use std::alloc::Global;
use std::process::Abort;
use std::test::Fail;

/// As many bytes as stand in place, and one more.
static WORDS: [&str; 2] = ["d/fifteen-bytes", "d/sixteen-bytes."];

fn is_kept(rt: &impl Abort, alloc: Global, bytes: &[u8]) -> Result<(), Fail> {
    let kept = CompactBytes::copy_of(alloc, bytes)?;
    same(rt, kept.as_slice(), bytes);
    Ok(())
}

#[test]
fn short_and_long_bytes_are_kept(rt: HostRuntime) -> Result<(), Fail> {
    for word in &WORDS {
        is_kept(&rt, rt.alloc(), word.as_bytes())?;
    }
    is_kept(&rt, rt.alloc(), b"")?;
    is_kept(&rt, rt.alloc(), &[0xff; 255])?;
    same(&rt, CompactBytes::empty().as_slice(), b"");
    Ok(())
}

#[test]
fn boxed_numbers_are_replaced(rt: HostRuntime) -> Result<(), Fail> {
    let three = Boxed::new(rt.alloc(), 3)?;
    same_number(&rt, *three.as_ref(), 3);
    let four = three.replaced(4);
    same_number(&rt, four.into_inner(), 4);
    Ok(())
}
