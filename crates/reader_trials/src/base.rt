//! Hashes as people write them, the order of outpoints, and heights at which names expire.

use crate::comparing::{same, same_number, same_text};
use nmc_base::{Bytes, Hash20, Hash32, NoMemory, OutPoint, Profile, Words};
use std::alloc::{AllocError, Global};
use std::process::Abort;
use std::test::Fail;

/// The hash of the first block of Bitcoin's chain, as its bytes stand in the second block.
const FIRST_BLOCK: [u8; 32] = [
    0x6f, 0xe2, 0x8c, 0x0a, 0xb6, 0xf1, 0xb3, 0x72, 0xc1, 0xa6, 0xa2, 0x46, 0xae, 0x63, 0xf7, 0x4f,
    0x93, 0x1e, 0x83, 0x65, 0xe1, 0x5a, 0x08, 0x9c, 0x68, 0xd6, 0x19, 0, 0, 0, 0, 0,
];

/// RIPEMD-160 of the empty message.
const EMPTY: [u8; 20] = [
    0x9c, 0x11, 0x85, 0xa5, 0xc5, 0xe9, 0xfc, 0x54, 0x61, 0x28, 0x08, 0x97, 0x7e, 0xe8, 0xf5, 0x48,
    0xb2, 0x25, 0x8d, 0x31,
];

/// What was displayed is this.
fn shows(rt: &impl Abort, shown: Result<String, AllocError>, want: &str) -> Result<(), Fail> {
    same_text(rt, shown?.as_str(), want);
    Ok(())
}

#[test]
fn hashes_as_people_write_them(rt: HostRuntime) -> Result<(), Fail> {
    let block = "000000000019d6689c085ae165831e934ff763ae46a2a6c172b3f1b60a8ce26f";
    shows(
        &rt,
        format!(in rt.alloc(); "{}", Hash32(FIRST_BLOCK)),
        block,
    )?;
    let digest = "9c1185a5c5e9fc54612808977ee8f548b2258d31";
    shows(&rt, format!(in rt.alloc(); "{}", Hash20(EMPTY)), digest)?;
    shows(&rt, format!(in rt.alloc(); "{}", NoMemory), "out of memory")
}

/// The first byte of the txid and the index of outpoints in their order.
static POINTS: [(u8, u32); 4] = [(0, 0), (0, 1), (1, 0), (1, 256)];

fn point(row: &(u8, u32)) -> OutPoint {
    let mut txid = [!row.0; 32];
    txid[0] = row.0;
    OutPoint {
        txid: Hash32(txid),
        index: row.1,
    }
}

#[test]
fn outpoints_in_order(rt: HostRuntime) {
    for (i, a) in POINTS.iter().enumerate() {
        for (j, b) in POINTS.iter().enumerate() {
            assert!(rt; point(a).order(&point(b)) == i.cmp(&j));
        }
    }
}

/// Heights next to the borders of the rule, for how many blocks the coin of a name stands there, and the height whose names
/// expire there.
static HEIGHTS: [(Profile, u32, u32, Option<u32>); 44] = [
    (Profile::Regtest, 0, 30, None),
    (Profile::Regtest, 1, 30, None),
    (Profile::Regtest, 29, 30, None),
    (Profile::Regtest, 30, 30, Some(0)),
    (Profile::Regtest, 31, 30, Some(1)),
    (Profile::Regtest, 6742, 30, Some(6712)),
    (Profile::Regtest, 11_999, 30, Some(11_969)),
    (Profile::Regtest, 12_000, 30, Some(11_970)),
    (Profile::Regtest, 12_001, 30, Some(11_971)),
    (Profile::Regtest, 23_999, 30, Some(23_969)),
    (Profile::Regtest, 24_000, 30, Some(23_970)),
    (Profile::Regtest, 24_001, 30, Some(23_971)),
    (Profile::Regtest, 24_002, 30, Some(23_972)),
    (Profile::Regtest, 35_999, 30, Some(35_969)),
    (Profile::Regtest, 36_000, 30, Some(35_970)),
    (Profile::Regtest, 47_999, 30, Some(47_969)),
    (Profile::Regtest, 48_000, 30, Some(47_970)),
    (Profile::Regtest, 48_001, 30, Some(47_971)),
    (Profile::Regtest, 48_002, 30, Some(47_972)),
    (Profile::Regtest, 100_000, 30, Some(99_970)),
    (Profile::Regtest, 2_000_000_000, 30, Some(1_999_999_970)),
    (Profile::Regtest, 2_000_000_001, 30, Some(1_999_999_971)),
    (Profile::Main, 0, 12_000, None),
    (Profile::Main, 1, 12_000, None),
    (Profile::Main, 29, 12_000, None),
    (Profile::Main, 30, 12_000, None),
    (Profile::Main, 31, 12_000, None),
    (Profile::Main, 6742, 12_000, None),
    (Profile::Main, 11_999, 12_000, None),
    (Profile::Main, 12_000, 12_000, Some(0)),
    (Profile::Main, 12_001, 12_000, Some(1)),
    (Profile::Main, 23_999, 12_000, Some(11_999)),
    (Profile::Main, 24_000, 12_000, Some(12_000)),
    (Profile::Main, 24_001, 12_001, None),
    (Profile::Main, 24_002, 12_002, None),
    (Profile::Main, 35_999, 23_999, None),
    (Profile::Main, 36_000, 24_000, None),
    (Profile::Main, 47_999, 35_999, None),
    (Profile::Main, 48_000, 36_000, None),
    (Profile::Main, 48_001, 36_000, Some(12_001)),
    (Profile::Main, 48_002, 36_000, Some(12_002)),
    (Profile::Main, 100_000, 36_000, Some(64_000)),
    (Profile::Main, 2_000_000_000, 36_000, Some(1_999_964_000)),
    (Profile::Main, 2_000_000_001, 36_000, Some(1_999_964_001)),
];

/// A height at which a name was changed, a height, and whether it is expired there.
static EXPIRIES: [(Profile, u32, u32, bool); 6] = [
    (Profile::Regtest, 13, 42, false),
    (Profile::Regtest, 13, 43, true),
    (Profile::Main, 1_000, 12_999, false),
    (Profile::Main, 1_000, 13_000, true),
    (Profile::Main, 12_001, 36_001, false),
    (Profile::Main, 12_000, 36_001, true),
];

#[test]
fn names_expire_by_their_profile(rt: HostRuntime) {
    for &(profile, height, depth, due) in &HEIGHTS {
        // The height behind the highest is the last that is asked for.
        assert!(rt; height <= 2_000_000_001);
        same_number(&rt, profile.depth(height) as u64, depth as u64);
        assert!(rt; profile.due(height) == due);
    }
    for &(profile, made, height, expired) in &EXPIRIES {
        assert!(rt; profile.expired(made, height) == expired);
    }
    same_number(&rt, Profile::Regtest.least_amount(), 1_000_000);
    same_number(&rt, Profile::Main.least_amount(), 0);
}

fn grow(bytes: &mut Bytes) -> Result<(), NoMemory> {
    bytes.extend(b"name")?;
    bytes.extend(b"")?;
    bytes.extend(b"coin")
}

fn has_copy(rt: &impl Abort, alloc: Global, bytes: &Bytes) -> Result<(), Fail> {
    let copy = Bytes::copy_of(alloc, bytes.as_slice())?;
    same(rt, copy.as_slice(), b"namecoin");
    Ok(())
}

fn has_zeros(rt: &impl Abort, bytes: &Bytes) -> Result<(), Fail> {
    let mut other = bytes.empty_alike();
    other.zeros(3)?;
    other.as_mut_slice()[1] = 7;
    same(rt, other.as_slice(), &[0, 7, 0]);
    Ok(())
}

fn bytes_are_copied(rt: &impl Abort, alloc: Global, bytes: &mut Bytes) -> Result<(), Fail> {
    grow(bytes)?;
    same(rt, bytes.as_slice(), b"namecoin");
    has_copy(rt, alloc, bytes)?;
    has_zeros(rt, bytes)?;
    bytes.clear();
    same(rt, bytes.as_slice(), b"");
    Ok(())
}

#[test]
fn bytes_grow_and_empty(rt: HostRuntime) -> Result<(), Fail> {
    let mut bytes = Bytes::new(rt.alloc());
    bytes_are_copied(&rt, rt.alloc(), &mut bytes)
}

fn word(alloc: Global, words: &mut Words, text: &[u8]) -> Result<(), NoMemory> {
    let word = Bytes::copy_of(alloc, text)?;
    words.reserve(1)?;
    words.push(word);
    Ok(())
}

fn last_is(rt: &impl Abort, word: Option<Bytes>, want: &[u8]) {
    match word {
        Some(word) => same(rt, word.as_slice(), want),
        None => assert!(rt; false),
    }
}

fn first_is(rt: &impl Abort, words: &Words, want: &[u8]) {
    match words.item(0) {
        Some(word) => same(rt, word.as_slice(), want),
        None => assert!(rt; false),
    }
}

fn two_words(rt: &impl Abort, words: &mut Words) {
    same_number(rt, words.len() as u64, 2);
    first_is(rt, words, b"one");
    assert!(rt; words.item(2).is_none());
    last_is(rt, words.pop(), b"two");
    last_is(rt, words.pop(), b"one");
    assert!(rt; words.pop().is_none());
}

#[test]
fn words_with_room(rt: HostRuntime) -> Result<(), Fail> {
    let mut words = Words::new(rt.alloc());
    word(rt.alloc(), &mut words, b"one")?;
    word(rt.alloc(), &mut words, b"two")?;
    two_words(&rt, &mut words);
    Ok(())
}
