//! Blocks that are read, and where others end.

use crate::comparing::same_text;
use block_grammar::TxKind;
use block_reader::{Block, BlockKind, merkle_root, read_block};
use nmc_base::{Hash32, LONGEST_BLOCK};
use std::alloc::Global;
use std::process::Abort;
use std::test::Fail;

mod rows;

fn put_hash(alloc: Global, out: &mut String, hash: Hash32) -> Result<(), Fail> {
    let digits = hex::encode(alloc, &hash.0)?;
    out.push(' ')?;
    out.push_str(digits.as_str())?;
    Ok(())
}

/// Adds what a block says, as the rows say it: the number of its transactions, its hash and its Merkle root.
fn put_block(alloc: Global, out: &mut String, block: &Block<'_>) -> Result<(), Fail> {
    write!(out, "{}", block.count())?;
    put_hash(alloc, out, block.header().hash())?;
    put_hash(alloc, out, merkle_root(alloc, block)?)
}

/// Adds what the bytes are, as the rows say it.
fn put_said(alloc: Global, out: &mut String, bytes: &[u8]) -> Result<(), Fail> {
    if bytes.len() > LONGEST_BLOCK {
        return Err("too long")?;
    }
    match read_block(bytes) {
        Ok(block) => put_block(alloc, out, &block),
        Err(fault) => Ok(write!(out, "{:?} {}", fault.kind, fault.at)?),
    }
}

fn holds(rt: &impl Abort, alloc: Global, row: &str) -> Result<(), Fail> {
    let (digits, want) = row.split_once(' ').ok_or("a row has two parts")?;
    let bytes = hex::decode(alloc, digits)?;
    let mut got = String::new(alloc);
    put_said(alloc, &mut got, &bytes)?;
    same_text(rt, got.as_str(), want);
    Ok(())
}

#[test]
fn reads_blocks(rt: HostRuntime) -> Result<(), Fail> {
    for row in rows::BLOCKS.lines() {
        holds(&rt, rt.alloc(), row)?;
    }
    Ok(())
}

#[test]
fn tells_each_fault_and_its_place(rt: HostRuntime) -> Result<(), Fail> {
    for row in rows::FAULTS.lines() {
        holds(&rt, rt.alloc(), row)?;
    }
    Ok(())
}

/// The part in which the first block is cut.
fn part_at(len: usize) -> BlockKind {
    match len {
        0..=79 => BlockKind::Header(TxKind::Cut),
        80 => BlockKind::Count(TxKind::Cut),
        _ => BlockKind::Transaction(TxKind::Cut),
    }
}

/// Whether the bytes are cut, with their length as the place.
fn is_cut(bytes: &[u8]) -> bool {
    if bytes.len() > LONGEST_BLOCK {
        return false;
    }
    match read_block(bytes) {
        Ok(_) => false,
        Err(fault) => fault.kind == part_at(bytes.len()) && fault.at as usize == bytes.len(),
    }
}

#[test]
fn each_front_is_cut_at_its_length(rt: HostRuntime) -> Result<(), Fail> {
    let bytes = hex::decode(rt.alloc(), rows::FIRST)?;
    for len in 0..bytes.len() {
        assert!(rt; is_cut(&bytes[..len]), "of {len}");
    }
    Ok(())
}
