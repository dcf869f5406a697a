//! How bytes and texts are compared, and lines are read.

use std::process::Abort;
use std::test::Fail;

pub(crate) fn same(rt: &impl Abort, got: &[u8], want: &[u8]) {
    assert_eq!(rt; got, want);
}

pub(crate) fn same_text(rt: &impl Abort, got: &str, want: &str) {
    assert_eq!(rt; got, want);
}

/// A line's first word, and what stands behind it; without a blank, there is no such word.
pub(crate) fn word<'a>(line: &'a str, missing: &'static str) -> Result<(&'a str, &'a str), Fail> {
    let words = line.split_once(' ').ok_or(missing)?;
    Ok(words)
}

/// The text of a table, which stands as bytes: so nothing is proved of each of its letters.
pub(crate) fn text(table: &[u8]) -> Result<&str, Fail> {
    let text = std::str::from_utf8(table).ok().ok_or("no text")?;
    Ok(text)
}
