//! Compares bytes.

use std::process::Abort;

pub(crate) fn same(rt: &impl Abort, got: &[u8], want: &[u8]) {
    assert_eq!(rt; got, want);
}
