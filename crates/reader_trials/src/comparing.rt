//! Compares what is said with what is wanted.

use std::process::Abort;

pub(crate) fn same(rt: &impl Abort, got: &[u8], want: &[u8]) {
    assert_eq!(rt; got, want);
}

pub(crate) fn same_text(rt: &impl Abort, got: &str, want: &str) {
    assert_eq!(rt; got, want);
}

pub(crate) fn same_number(rt: &impl Abort, got: u64, want: u64) {
    assert_eq!(rt; got, want);
}
