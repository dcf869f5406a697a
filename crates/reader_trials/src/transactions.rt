//! Transactions with and without a witness.

use nmc_base::{Hash32, OutPoint};
use std::alloc::{AllocError, Global};
use std::process::Abort;
use std::test::Fail;
use tx_reader::{Inputs, Outputs, Tx, TxFault, TxIn, TxKind, read_tx, txid};

/// The transaction of the first block of the Bitcoin chain.
const COINBASE: [u8; 204] = [
    0x01, 0x00, 0x00, 0x00, 0x01, 0x00, 0x00, 0x00, 0x00, 0x00, 0x00, 0x00, 0x00, 0x00, 0x00, 0x00,
    0x00, 0x00, 0x00, 0x00, 0x00, 0x00, 0x00, 0x00, 0x00, 0x00, 0x00, 0x00, 0x00, 0x00, 0x00, 0x00,
    0x00, 0x00, 0x00, 0x00, 0x00, 0xff, 0xff, 0xff, 0xff, 0x4d, 0x04, 0xff, 0xff, 0x00, 0x1d, 0x01,
    0x04, 0x45, 0x54, 0x68, 0x65, 0x20, 0x54, 0x69, 0x6d, 0x65, 0x73, 0x20, 0x30, 0x33, 0x2f, 0x4a,
    0x61, 0x6e, 0x2f, 0x32, 0x30, 0x30, 0x39, 0x20, 0x43, 0x68, 0x61, 0x6e, 0x63, 0x65, 0x6c, 0x6c,
    0x6f, 0x72, 0x20, 0x6f, 0x6e, 0x20, 0x62, 0x72, 0x69, 0x6e, 0x6b, 0x20, 0x6f, 0x66, 0x20, 0x73,
    0x65, 0x63, 0x6f, 0x6e, 0x64, 0x20, 0x62, 0x61, 0x69, 0x6c, 0x6f, 0x75, 0x74, 0x20, 0x66, 0x6f,
    0x72, 0x20, 0x62, 0x61, 0x6e, 0x6b, 0x73, 0xff, 0xff, 0xff, 0xff, 0x01, 0x00, 0xf2, 0x05, 0x2a,
    0x01, 0x00, 0x00, 0x00, 0x43, 0x41, 0x04, 0x67, 0x8a, 0xfd, 0xb0, 0xfe, 0x55, 0x48, 0x27, 0x19,
    0x67, 0xf1, 0xa6, 0x71, 0x30, 0xb7, 0x10, 0x5c, 0xd6, 0xa8, 0x28, 0xe0, 0x39, 0x09, 0xa6, 0x79,
    0x62, 0xe0, 0xea, 0x1f, 0x61, 0xde, 0xb6, 0x49, 0xf6, 0xbc, 0x3f, 0x4c, 0xef, 0x38, 0xc4, 0xf3,
    0x55, 0x04, 0xe5, 0x1e, 0xc1, 0x12, 0xde, 0x5c, 0x38, 0x4d, 0xf7, 0xba, 0x0b, 0x8d, 0x57, 0x8a,
    0x4c, 0x70, 0x2b, 0x6b, 0xf1, 0x1d, 0x5f, 0xac, 0x00, 0x00, 0x00, 0x00,
];

/// A version, one input with a script of one byte, and what stands before the number of outputs.
const ONE_INPUT: [u8; 47] = [
    2, 0, 0, 0, 1, 7, 7, 7, 7, 7, 7, 7, 7, 7, 7, 7, 7, 7, 7, 7, 7, 7, 7, 7, 7, 7, 7, 7, 7, 7, 7, 7,
    7, 7, 7, 7, 7, 3, 0, 0, 0, 1, 0x51, 0xfd, 0xff, 0xff, 0xff,
];

/// A transaction with a witness: two inputs, the second alone with items of witness, and one output.
const FLAGGED: [u8; 113] = [
    0x02, 0x00, 0x00, 0x00, 0x00, 0x01, 0x02, 0x07, 0x07, 0x07, 0x07, 0x07, 0x07, 0x07, 0x07, 0x07,
    0x07, 0x07, 0x07, 0x07, 0x07, 0x07, 0x07, 0x07, 0x07, 0x07, 0x07, 0x07, 0x07, 0x07, 0x07, 0x07,
    0x07, 0x07, 0x07, 0x07, 0x07, 0x07, 0x07, 0x03, 0x00, 0x00, 0x00, 0x01, 0x51, 0xfd, 0xff, 0xff,
    0xff, 0x08, 0x08, 0x08, 0x08, 0x08, 0x08, 0x08, 0x08, 0x08, 0x08, 0x08, 0x08, 0x08, 0x08, 0x08,
    0x08, 0x08, 0x08, 0x08, 0x08, 0x08, 0x08, 0x08, 0x08, 0x08, 0x08, 0x08, 0x08, 0x08, 0x08, 0x08,
    0x08, 0x00, 0x00, 0x00, 0x00, 0x00, 0xff, 0xff, 0xff, 0xff, 0x01, 0x05, 0x00, 0x00, 0x00, 0x00,
    0x00, 0x00, 0x00, 0x02, 0x6a, 0x51, 0x00, 0x02, 0x00, 0x03, 0x01, 0x02, 0x03, 0x09, 0x00, 0x00,
    0x00,
];

/// Its id, without marker, flag and witness.
const FLAGGED_ID: [u8; 32] = [
    0xf5, 0x38, 0x15, 0xd1, 0x6d, 0x38, 0x93, 0x35, 0xd2, 0x48, 0xa7, 0x40, 0xc9, 0x0b, 0x47, 0xc3,
    0xa9, 0x54, 0x12, 0x2b, 0x5e, 0x94, 0xf3, 0x0d, 0x0a, 0xca, 0xe1, 0x83, 0x1b, 0xcd, 0xef, 0x70,
];

/// The Merkle root of the first block of the Bitcoin chain, which is the id of its one transaction.
const COINBASE_ID: [u8; 32] = [
    0x3b, 0xa3, 0xed, 0xfd, 0x7a, 0x7b, 0x12, 0xb2, 0x7a, 0xc7, 0x2c, 0x3e, 0x67, 0x76, 0x8f, 0x61,
    0x7f, 0xc8, 0x1b, 0xc3, 0x88, 0x8a, 0x51, 0x32, 0x3a, 0x9f, 0xb8, 0xaa, 0x4b, 0x1e, 0x5e, 0x4a,
];

/// An outpoint, a script and a sequence.
type Input<'a> = (OutPoint, &'a [u8], u32);

fn is_input(found: &TxIn<'_>, want: &Input<'_>) -> bool {
    found.previous == want.0 && found.script == want.1 && found.sequence == want.2
}

/// The next input is this one, or there is none.
fn has_input(rt: &impl Abort, inputs: &mut Inputs<'_>, want: Option<Input<'_>>) {
    match (inputs.next(), want) {
        (Some(found), Some(want)) => assert!(rt; is_input(&found, &want)),
        (None, None) => {}
        _ => assert!(rt; false),
    }
}

/// The next output has this value and this script, or there is none.
fn has_output(rt: &impl Abort, outputs: &mut Outputs<'_>, want: Option<(u64, &[u8])>) {
    match (outputs.next(), want) {
        (Some(found), Some((value, script))) => {
            assert!(rt; found.value == value && found.script == script)
        }
        (None, None) => {}
        _ => assert!(rt; false),
    }
}

fn output(byte: u8, index: u32) -> OutPoint {
    OutPoint {
        txid: Hash32([byte; 32]),
        index,
    }
}

/// The bytes begin with a transaction of this length, version and id.
fn begins_with(bytes: &[u8], len: usize, version: u32, id: [u8; 32]) -> bool {
    match read_tx(bytes) {
        Ok((tx, found)) => found == len && tx.version() == version && txid(&tx) == Hash32(id),
        Err(_) => false,
    }
}

/// The one input and the one output of the first coinbase.
fn is_coinbase(rt: &impl Abort, tx: &Tx<'_>) {
    let mut inputs = tx.inputs();
    let script = &COINBASE[42..119];
    has_input(
        rt,
        &mut inputs,
        Some((output(0, 0xffff_ffff), script, 0xffff_ffff)),
    );
    has_input(rt, &mut inputs, None);
    let mut outputs = tx.outputs();
    has_output(rt, &mut outputs, Some((5_000_000_000, &COINBASE[133..200])));
    has_output(rt, &mut outputs, None);
}

fn begins_with_coinbase(rt: &impl Abort, bytes: &[u8]) {
    assert!(rt; begins_with(bytes, 204, 1, COINBASE_ID));
    match read_tx(bytes) {
        Ok((tx, _)) => is_coinbase(rt, &tx),
        Err(_) => assert!(rt; false),
    }
}

#[test]
fn reads_the_first_coinbase(rt: HostRuntime) -> Result<(), Fail> {
    assert!(rt; begins_with(&COINBASE, 204, 1, COINBASE_ID));
    let mut longer = COINBASE.to_vec(rt.alloc())?;
    longer.push(9)?;
    begins_with_coinbase(&rt, &longer);
    Ok(())
}

/// The two inputs and the one output of the transaction with a witness.
fn is_flagged(rt: &impl Abort, tx: &Tx<'_>) {
    let mut inputs = tx.inputs();
    has_input(rt, &mut inputs, Some((output(7, 3), &[0x51], 0xffff_fffd)));
    has_input(rt, &mut inputs, Some((output(8, 0), &[], 0xffff_ffff)));
    has_input(rt, &mut inputs, None);
    let mut outputs = tx.outputs();
    has_output(rt, &mut outputs, Some((5, &[0x6a, 0x51])));
    has_output(rt, &mut outputs, None);
}

fn begins_with_flagged(rt: &impl Abort, bytes: &[u8]) {
    assert!(rt; begins_with(bytes, FLAGGED.len(), 2, FLAGGED_ID));
    match read_tx(bytes) {
        Ok((tx, _)) => is_flagged(rt, &tx),
        Err(_) => assert!(rt; false),
    }
}

#[test]
fn reads_a_witness(rt: HostRuntime) -> Result<(), Fail> {
    let mut longer = FLAGGED.to_vec(rt.alloc())?;
    longer.push(9)?;
    begins_with_flagged(&rt, &longer);
    Ok(())
}

/// A transaction with the one input, and these bytes behind it.
fn behind_input(alloc: Global, bytes: &[u8]) -> Result<Vec<u8>, AllocError> {
    let mut whole = ONE_INPUT.to_vec(alloc)?;
    whole.extend_from_slice(bytes)?;
    Ok(whole)
}

/// Two outputs: one without a script, and one whose value needs all its bytes.
const TWO_OUTPUTS: [u8; 24] = [
    2, 5, 0, 0, 0, 0, 0, 0, 0, 0, 6, 1, 0, 0, 0, 0, 0, 0x80, 1, 0x6a, 9, 0, 0, 0,
];

fn are_two(rt: &impl Abort, mut outputs: Outputs<'_>) {
    has_output(rt, &mut outputs, Some((5, &[])));
    has_output(rt, &mut outputs, Some((0x8000_0000_0000_0106, &[0x6a])));
    has_output(rt, &mut outputs, None);
}

#[test]
fn reads_outputs_in_order(rt: HostRuntime) -> Result<(), Fail> {
    let whole = behind_input(rt.alloc(), &TWO_OUTPUTS)?;
    match read_tx(&whole) {
        Ok((tx, len)) => {
            assert!(rt; len == 71);
            are_two(&rt, tx.outputs());
        }
        Err(_) => assert!(rt; false),
    }
    Ok(())
}

/// Whether the bytes have this fault.
fn has_fault(bytes: &[u8], kind: TxKind, at: usize) -> bool {
    match read_tx(bytes) {
        Ok(_) => false,
        Err(fault) => fault == TxFault { kind, at },
    }
}

/// Whether each shorter front of the bytes is cut, with its length as the place.
fn is_cut_everywhere(bytes: &[u8]) -> bool {
    for len in 0..bytes.len() {
        if !has_fault(&bytes[..len], TxKind::Cut, len) {
            return false;
        }
    }
    true
}

#[test]
fn tells_cut_transactions(rt: HostRuntime) {
    assert!(rt; is_cut_everywhere(&FLAGGED));
    assert!(rt; is_cut_everywhere(&COINBASE));
}

/// Whether the transaction with a witness has this fault at the place where this byte stands in it.
fn faults_with(place: usize, byte: u8, kind: TxKind) -> bool {
    let mut bytes = FLAGGED;
    match bytes.get_mut(place) {
        Some(old) => *old = byte,
        None => return false,
    }
    has_fault(&bytes, kind, place)
}

#[test]
fn tells_each_fault_and_its_place(rt: HostRuntime) {
    // The flag, the number of inputs, that of outputs, and that of the last list of the witness.
    assert!(rt; faults_with(5, 2, TxKind::BadFlag));
    assert!(rt; faults_with(6, 0, TxKind::NoInput));
    assert!(rt; faults_with(90, 0, TxKind::NoOutput));
    assert!(rt; faults_with(103, 0, TxKind::EmptyWitness));
    assert!(rt; has_fault(&[2, 0, 0, 0, 0xfd, 1, 0, 7], TxKind::LongForm, 6));
}

/// Bytes behind the one input, and the fault that they make.
static FORMS: [(&[u8], TxKind, usize); 5] = [
    // numbers of outputs: none, and longer forms of one
    (&[0, 9], TxKind::NoOutput, 47),
    (&[0xfd, 1, 0, 5], TxKind::LongForm, 49),
    (&[0xfe, 1, 0, 0, 0, 5], TxKind::LongForm, 51),
    // the number of a script's bytes: 252 in three bytes is too long, 253 isn't
    (
        &[1, 5, 0, 0, 0, 0, 0, 0, 0, 0xfd, 252, 0, 7],
        TxKind::LongForm,
        58,
    ),
    (
        &[1, 5, 0, 0, 0, 0, 0, 0, 0, 0xfd, 253, 0, 7],
        TxKind::Cut,
        60,
    ),
];

fn faults_behind_input(
    rt: &impl Abort,
    alloc: Global,
    bytes: &[u8],
    kind: TxKind,
    at: usize,
) -> Result<(), Fail> {
    let whole = behind_input(alloc, bytes)?;
    assert!(rt; has_fault(&whole, kind, at), "at {at}");
    Ok(())
}

#[test]
fn reads_shortest_forms_alone(rt: HostRuntime) -> Result<(), Fail> {
    for &(bytes, kind, at) in &FORMS {
        faults_behind_input(&rt, rt.alloc(), bytes, kind, at)?;
    }
    Ok(())
}
