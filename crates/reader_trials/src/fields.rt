//! Fields that a cursor reads.

use crate::comparing::same;
use block_grammar::TxKind;
use std::process::Abort;
use wire_read::{
    Cursor, Fault, WireFault, before, counted_at, cut, hash_at, size_at, some_size_at, u32_at,
    u64_at,
};

/// A byte, a number of 4 bytes and one of 8, five compact sizes of one to five bytes with the two byte strings behind
/// the last ones, and two bytes more.
static FIELDS: [u8; 27] = [
    0x07, 0x01, 0x02, 0x03, 0x84, 1, 2, 3, 4, 5, 6, 7, 0x88, 0xfc, 0xfd, 0xfd, 0x00, 0xfe, 0, 0, 1,
    0, 0x02, 0xaa, 0xbb, 0xcc, 0xff,
];

/// One call of a cursor.
#[derive(Clone, Copy)]
enum Call {
    U8,
    U32,
    U64,
    Size,
    Take(u64),
}

/// The number that a call gives, or for bytes the first of them (0 where there are none).
fn called(cursor: &mut Cursor<'_>, call: Call) -> Result<u64, WireFault> {
    match call {
        Call::U8 => Ok(u64::from(cursor.u8()?)),
        Call::U32 => Ok(u64::from(cursor.u32()?)),
        Call::U64 => cursor.u64(),
        Call::Size => cursor.size(),
        Call::Take(n) => {
            let piece = cursor.take(n)?;
            Ok(piece.first().map_or(0, |byte| u64::from(*byte)))
        }
    }
}

/// The call answers this, and the cursor stands there after it.
fn gives(rt: &impl Abort, cursor: &mut Cursor<'_>, call: Call, want: u64, at: usize) {
    let got = called(cursor, call);
    assert!(rt; got == Ok(want) && cursor.at() == at, "up to {at}");
}

#[test]
fn reads_fields_in_order(rt: HostRuntime) {
    let mut cursor = Cursor::new(&FIELDS);
    gives(&rt, &mut cursor, Call::U8, 7, 1);
    gives(&rt, &mut cursor, Call::U32, 0x8403_0201, 5);
    gives(&rt, &mut cursor, Call::U64, 0x8807_0605_0403_0201, 13);
    gives(&rt, &mut cursor, Call::Size, 0xfc, 14);
    gives(&rt, &mut cursor, Call::Size, 0xfd, 17);
    gives(&rt, &mut cursor, Call::Size, 0x1_0000, 22);
    gives(&rt, &mut cursor, Call::Size, 2, 23);
    gives(&rt, &mut cursor, Call::Take(2), 0xaa, 25);
    gives(&rt, &mut cursor, Call::Take(0), 0, 25);
    gives(&rt, &mut cursor, Call::U8, 0xcc, 26);
}

/// Behind so many bytes the call answers this fault, and the cursor hasn't moved.
fn faults(rt: &impl Abort, bytes: &[u8], behind: u64, call: Call, want: WireFault) {
    let mut cursor = Cursor::new(bytes);
    let skipped = cursor.take(behind).is_ok();
    let at = cursor.at();
    let got = called(&mut cursor, call);
    assert!(rt; skipped && got == Err(want) && cursor.at() == at, "at {at}");
}

#[test]
fn tells_cut_fields(rt: HostRuntime) {
    let cut = WireFault::Cut { at: 27 };
    faults(&rt, &FIELDS, 25, Call::Take(3), cut);
    faults(&rt, &FIELDS, 25, Call::Take(u64::MAX), cut);
    faults(&rt, &FIELDS, 24, Call::U32, cut);
    faults(&rt, &FIELDS, 20, Call::U64, cut);
    faults(&rt, &FIELDS, 27, Call::U8, cut);
    faults(&rt, &FIELDS, 27, Call::Size, cut);
    faults(&rt, &FIELDS, 26, Call::Size, cut);
}

#[test]
fn tells_longer_forms(rt: HostRuntime) {
    let long = |at: usize| WireFault::LongForm { at };
    faults(&rt, &[9, 0xfd, 0xfc, 0], 1, Call::Size, long(3));
    faults(&rt, &[9, 0xfe, 0xff, 0xff, 0, 0, 5], 1, Call::Size, long(5));
    let nine = [9, 0xff, 0xff, 0xff, 0xff, 0xff, 0, 0, 0, 0];
    faults(&rt, &nine, 1, Call::Size, long(9));
    let cut = WireFault::Cut { at: 9 };
    faults(&rt, &nine[..9], 1, Call::Size, cut);
    let mut cursor = Cursor::new(&[0xff, 0, 0, 0, 0, 1, 0, 0, 0]);
    gives(&rt, &mut cursor, Call::Size, 0x1_0000_0000, 9);
}

/// This number was read, with so many bytes left.
fn reads(rt: &impl Abort, read: Result<(u64, &[u8]), Fault<'_>>, number: u64, left: usize) {
    match read {
        Ok((got, rest)) => assert!(rt; got == number && rest.len() == left, "{number}"),
        Err(_) => assert!(rt; false, "{number}"),
    }
}

fn reads_u32(rt: &impl Abort, bytes: &[u8], number: u32, left: usize) {
    match u32_at(bytes) {
        Ok((got, rest)) => assert!(rt; got == number && rest.len() == left),
        Err(_) => assert!(rt; false),
    }
}

fn reads_hash(rt: &impl Abort, bytes: &[u8], hash: &[u8], left: usize) {
    match hash_at(bytes) {
        Ok(read) => assert!(rt; read.0.as_slice() == hash && read.1.len() == left),
        Err(_) => assert!(rt; false),
    }
}

fn reads_piece(rt: &impl Abort, bytes: &[u8], piece: &[u8], left: usize) {
    match counted_at(bytes) {
        Ok((got, rest)) => assert!(rt; got == piece && rest.len() == left),
        Err(_) => assert!(rt; false),
    }
}

#[test]
fn reads_at_the_front(rt: HostRuntime) {
    reads_u32(&rt, &[1, 2, 3, 0x84, 9], 0x8403_0201, 1);
    let number = u64_at(&[1, 0, 0, 0, 0, 0, 0, 0x80]);
    reads(&rt, number, 0x8000_0000_0000_0001, 0);
    reads(&rt, size_at(&[0xfd, 0xfd, 0, 5]), 0xfd, 1);
    reads(&rt, some_size_at(TxKind::NoInput, &[1, 5]), 1, 1);
    reads_hash(&rt, &[7; 33], &[7; 32], 1);
    reads_piece(&rt, &[2, 8, 9, 5], &[8, 9], 1);
    same(&rt, before(&[1, 2, 3], &[3]), &[1, 2]);
}

/// The fault is of this kind, with so many bytes from its place on.
fn stops<T: Drop>(rt: &impl Abort, read: Result<(T, &[u8]), Fault<'_>>, kind: TxKind, left: usize) {
    match read {
        Ok(_) => assert!(rt; false),
        Err(fault) => assert!(rt; fault.kind == kind && fault.rest.len() == left),
    }
}

#[test]
fn tells_the_first_fault(rt: HostRuntime) {
    stops(&rt, u32_at(&[1, 2, 3]), TxKind::Cut, 0);
    stops(&rt, u64_at(&[7; 7]), TxKind::Cut, 0);
    stops(&rt, hash_at(&[7; 31]), TxKind::Cut, 0);
    stops(&rt, size_at(&[0xfd, 1]), TxKind::Cut, 0);
    stops(&rt, size_at(&[0xfd, 0xfc, 0, 5]), TxKind::LongForm, 2);
    let none = some_size_at(TxKind::NoOutput, &[0, 5, 6]);
    stops(&rt, none, TxKind::NoOutput, 3);
    stops(&rt, counted_at(&[2, 8]), TxKind::Cut, 0);
    assert!(rt; cut().kind == TxKind::Cut && cut().rest.is_empty());
}
