//! How bytes and rows of tables are compared.

use std::process::Abort;

pub(crate) fn holds(rt: &impl Abort, fact: bool) {
    assert!(rt; fact);
}

pub(crate) fn same(rt: &impl Abort, got: &[u8], want: &[u8]) {
    assert_eq!(rt; got, want);
}

/// The row of a table got this number.
pub(crate) fn same_at(rt: &impl Abort, got: Option<u8>, want: u8, row: usize) {
    assert!(rt; got == Some(want), "row {row}: {got:?}");
}
