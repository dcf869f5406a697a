//! Scripts that hold a name, and those that don't.

use crate::comparing::same_text;
use name_script::{NameOp, read_name};
use std::alloc::{AllocError, Global};
use std::process::Abort;
use std::test::Fail;

mod rows;

/// Adds bytes in hex, and "-" where there are none, behind a space.
fn put_part(alloc: Global, out: &mut String, part: &[u8]) -> Result<(), AllocError> {
    if part.is_empty() {
        return out.push_str(" -");
    }
    out.push(' ')?;
    let digits = hex::encode(alloc, part)?;
    out.push_str(digits.as_str())
}

/// Adds an operation: its word and its parts.
fn put(alloc: Global, out: &mut String, word: &str, parts: &[&[u8]]) -> Result<(), AllocError> {
    out.push_str(word)?;
    for part in parts {
        put_part(alloc, out, part)?;
    }
    Ok(())
}

/// Adds what a script does, as the rows of the table say it.
fn put_said(alloc: Global, out: &mut String, script: &[u8]) -> Result<(), AllocError> {
    match read_name(script) {
        None => out.push_str("none"),
        Some(NameOp::New { hash }) => put(alloc, out, "New", &[hash]),
        Some(NameOp::First { name, rand, value }) => {
            put(alloc, out, "First", &[name, rand, value])
        }
        Some(NameOp::Update { name, value }) => put(alloc, out, "Update", &[name, value]),
    }
}

fn holds(rt: &impl Abort, alloc: Global, row: &str) -> Result<(), Fail> {
    let (text, wanted) = row.split_once(' ').ok_or("a row has two parts")?;
    let script = hex::decode(alloc, text)?;
    let mut found = String::new(alloc);
    put_said(alloc, &mut found, script.as_slice())?;
    same_text(rt, found.as_str(), wanted);
    Ok(())
}

#[test]
fn rows_of_the_table(rt: HostRuntime) -> Result<(), Fail> {
    for row in rows::ROWS.lines() {
        holds(&rt, rt.alloc(), row)?;
    }
    Ok(())
}

#[test]
fn no_script_is_none(rt: HostRuntime) {
    assert!(rt; read_name(&[]).is_none());
}
