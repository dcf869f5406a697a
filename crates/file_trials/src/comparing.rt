//! How bytes and the ends of lives are compared.

use std::process::Abort;

pub(crate) fn same(rt: &impl Abort, got: &[u8], want: &[u8]) {
    assert_eq!(rt; got, want);
}

/// A life ended with this number, and what it left is right.
pub(crate) fn ends(rt: &impl Abort, end: Option<(u64, bool)>, number: u64) {
    assert!(rt; end == Some((number, true)), "{end:?}");
}

/// What it left is right, or there was no memory to say so.
pub(crate) fn is_right_or_unknown(rt: &impl Abort, end: Option<(u64, bool)>) {
    match end {
        None => {}
        Some((_, is_right)) => assert!(rt; is_right),
    }
}
