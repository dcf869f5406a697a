//! That the maker makes the blocks of the table.

ghost use Rattle.std.specs.Prelude.{IfSome};
ghost use Rattle.block_maker.specs.Seen.{HasShortParts};

use crate::comparing::same_number;
use block_maker::{LONGEST_PART, MakeOp, Maker};
use block_reader::read_block;
use nmc_base::{Bytes, HIGHEST_HEIGHT, Hash20, Hash32, LONGEST_BLOCK, OutPoint, Tip};
use std::alloc::Global;
use std::process::Abort;
use std::test::Fail;

mod rows;

/// Bytes of a row, at the front of a buffer that has room for each block of the table.
#[derive(Clone, Copy)]
struct Part {
    bytes: [u8; 512],
    len: usize,
}

impl Part {
    fn as_slice(&self) -> &[u8] {
        self.bytes.get(..self.len).unwrap_or(&[])
    }
}

fn part_of(digits: &str) -> Option<Part> {
    let mut bytes = [0; 512];
    let len = digits.len() / 2;
    let into = bytes.get_mut(..len)?;
    if len > 0 {
        hex::decode_to_slice(digits, into).ok()?;
    }
    Some(Part { bytes, len })
}

fn hash_of(digits: &str) -> Option<Hash32> {
    let mut hash = [0; 32];
    hex::decode_to_slice(digits, &mut hash).ok()?;
    Some(Hash32(hash))
}

fn commitment_of(digits: &str) -> Option<Hash20> {
    let mut hash = [0; 20];
    hex::decode_to_slice(digits, &mut hash).ok()?;
    Some(Hash20(hash))
}

fn outpoint_of(text: &str) -> Option<OutPoint> {
    let (txid, index) = text.split_once(':')?;
    let txid = hash_of(txid)?;
    let index = index.parse::<u32>().ok()?;
    Some(OutPoint { txid, index })
}

/// The block on the tip, where it isn't too high.
fn block_on(alloc: Global, previous: Tip, op: Option<&MakeOp<'_>>) -> Option<Bytes>
    requires { IfSome op (λ o. HasShortParts o.now) }
{
    if previous.height >= HIGHEST_HEIGHT {
        return None;
    }
    Maker::new().block(alloc, previous, op).ok()
}

fn new_block(alloc: Global, previous: Tip, digits: &str) -> Option<Bytes> {
    let hash = commitment_of(digits)?;
    block_on(alloc, previous, Some(&MakeOp::New { hash }))
}

fn first_block(alloc: Global, previous: Tip, parts: &str) -> Option<Bytes> {
    let (name, parts) = parts.split_once(' ')?;
    let (rand, parts) = parts.split_once(' ')?;
    let (value, spent) = parts.split_once(' ')?;
    let (name, rand, value) = (part_of(name)?, part_of(rand)?, part_of(value)?);
    let spent = outpoint_of(spent)?;
    let (name, rand, value) = (name.as_slice(), rand.as_slice(), value.as_slice());
    if name.len() > LONGEST_PART || rand.len() > LONGEST_PART || value.len() > LONGEST_PART {
        return None;
    }
    let op = MakeOp::First {
        name,
        rand,
        value,
        spent,
    };
    block_on(alloc, previous, Some(&op))
}

fn update_block(alloc: Global, previous: Tip, parts: &str) -> Option<Bytes> {
    let (name, parts) = parts.split_once(' ')?;
    let (value, spent) = parts.split_once(' ')?;
    let (name, value) = (part_of(name)?, part_of(value)?);
    let spent = outpoint_of(spent)?;
    let (name, value) = (name.as_slice(), value.as_slice());
    if name.len() > LONGEST_PART || value.len() > LONGEST_PART {
        return None;
    }
    block_on(
        alloc,
        previous,
        Some(&MakeOp::Update { name, value, spent }),
    )
}

/// The block on the tip that carries the operation, as a row writes it.
fn asked_block(alloc: Global, previous: Tip, text: &str) -> Option<Bytes> {
    match text.split_once(' ') {
        None => block_on(alloc, previous, None),
        Some(("New", parts)) => new_block(alloc, previous, parts),
        Some(("First", parts)) => first_block(alloc, previous, parts),
        Some((_, parts)) => update_block(alloc, previous, parts),
    }
}

/// The hash of a block, as it is read back.
fn hash_read(bytes: &[u8]) -> Option<Hash32> {
    if bytes.len() > LONGEST_BLOCK {
        return None;
    }
    let block = read_block(bytes).ok()?;
    Some(block.header().hash())
}

/// Whether that is the block of these digits, and is read back with this hash.
fn is_block(made: &[u8], digits: &str, hash: &str) -> Option<bool> {
    let wanted = part_of(digits)?;
    let hash = hash_of(hash)?;
    Some(made == wanted.as_slice() && hash_read(made) == Some(hash))
}

/// Whether the row's block is made.
fn is_made(alloc: Global, row: &str) -> Option<bool> {
    let (height, row) = row.split_once(' ')?;
    let (previous, row) = row.split_once(' ')?;
    let (digits, row) = row.split_once(' ')?;
    let (hash, op) = row.split_once(' ')?;
    let previous = Tip {
        height: height.parse::<u32>().ok()?,
        hash: hash_of(previous)?,
    };
    let made = asked_block(alloc, previous, op)?;
    is_block(made.as_slice(), digits, hash)
}

#[test]
fn blocks_of_the_table(rt: HostRuntime) {
    for row in rows::ROWS.lines() {
        let is_right = is_made(rt.alloc(), row);
        assert!(rt; is_right == Some(true), "{row}");
    }
}

const FIRST_HASH: &str = "1bc33a93f0c12fd7488c8988a26622b0bd907bd4491bbf1e35b30837af3f182a";

fn is_first(rt: &impl Abort, made: &[u8]) {
    same_number(rt, made.len() as u64, 147);
    assert!(rt; hash_read(made) == hash_of(FIRST_HASH));
}

#[test]
fn first_block_of_a_chain(rt: HostRuntime) -> Result<(), Fail> {
    let previous = Tip {
        height: 0,
        hash: Hash32([0; 32]),
    };
    let made = Maker::new().block(rt.alloc(), previous, None)?;
    is_first(&rt, made.as_slice());
    Ok(())
}

/// A block whose name, rand and value are all of this part.
fn block_of(alloc: Global, part: &[u8]) -> Option<Bytes> {
    if part.len() > LONGEST_PART {
        return None;
    }
    let op = MakeOp::First {
        name: part,
        rand: part,
        value: part,
        spent: OutPoint {
            txid: Hash32([7; 32]),
            index: 1,
        },
    };
    let previous = Tip {
        height: 1_999_999_999,
        hash: Hash32([9; 32]),
    };
    block_on(alloc, previous, Some(&op))
}

fn has_length(rt: &impl Abort, made: Option<Bytes>, len: u64) {
    match made {
        Some(made) => {
            same_number(rt, made.as_slice().len() as u64, len);
            assert!(rt; hash_read(made.as_slice()).is_some());
        }
        None => assert!(rt; false),
    }
}

#[test]
fn longest_parts(rt: HostRuntime) -> Result<(), Fail> {
    let part = vec![in rt.alloc(); 0x61u8; LONGEST_PART]?;
    has_length(&rt, block_of(rt.alloc(), &part), 196_828);
    Ok(())
}
