//! A journal over such a disk.

ghost use Rattle.std.specs.Prelude.{◌≡◌, ◌<◌, true, length, IsTrue, IfSome, OnOk};
ghost use Rattle.disk_model.specs.DiskSeen.{file_in};
ghost use Rattle.gate_journal.specs.Stand.{IsAtGate, IsReadable};

use crate::comparing::{ends, is_right_or_unknown, same};
use disk_model::{Disk, Failed};
use gate_journal::{Journal, JournalFault, open_gate};
use memory_disk::{Choice, MemoryDisk};
use nmc_base::{Bytes, NoMemory};
use std::alloc::Global;
use std::process::Abort;
use std::test::Fail;

/// A file of eight bytes, a journal behind them, and two records.
const FILE: [u8; 42] = [
    0, 0, 0, 0, 0, 0, 0, 0, 1, 18, 0, 0, 0, b'k', b'0', b'1', b'2', b'3', b'4', b'5', b'6', b'7',
    b'8', b'9', b'a', b'b', b'c', b'd', b'e', b'f', b'g', 1, 5, 0, 0, 0, b'a', b'g', b'a', b'i',
    b'n', 0,
];

const NONE: &[u8] = b"";

const ONE: &[u8] = b"k0123456789abcdefg|";

const TWO: &[u8] = b"k0123456789abcdefg|again|";

/// Writes eight bytes and begins a journal behind them.
fn begun<D: Disk>(disk: &mut D, limit: u64) -> Option<Journal>
    requires { 8 < limit }
    ensures reached { IfSome result (λ journal. journal.reached ≡ true) }
    ensures at_gate { IsTrue D.tells → IfSome result (λ journal. IsAtGate journal (file_in (D.seen disk.new) journal.file)) }
{
    match disk.write_at(1, 0, &[0; 8]) {
        Ok(()) => Journal::create(disk, 1, 8, limit).ok(),
        Err(_) => None,
    }
}

/// Makes that file, as far as the disk lets it; says how many of its records were acknowledged.
fn made<D: Disk>(disk: &mut D) -> Option<u8> {
    let mut journal = begun(disk, 64)?;
    match journal.append(disk, b"k", b"0123456789abcdefg") {
        Ok(()) => {}
        Err(_) => return Some(0),
    }
    match journal.append(disk, b"", b"again") {
        Ok(()) => Some(2),
        Err(_) => Some(1),
    }
}

/// Whether a record of this body was appended.
fn has_appended<D: Disk>(disk: &mut D, body: &[u8]) -> bool
    requires { length body.now < 10000 }
{
    match begun(disk, 20000) {
        Some(mut journal) => journal.append(disk, b"12345678", body).is_ok(),
        None => false,
    }
}

/// Reads one record more into `all`, with a bar behind it. False at a closed gate.
fn reads_one<D: Disk>(
    disk: &mut D,
    journal: &mut Journal,
    found: &mut Bytes,
    all: &mut Bytes,
) -> Result<bool, JournalFault>
    requires { IsTrue D.tells → IsReadable journal.old (file_in (D.seen disk.old) journal.old.file) }
    ensures { IsTrue D.tells → OnOk result (IsReadable journal.new (file_in (D.seen disk.new) journal.new.file)) }
{
    if !journal.next_record(disk, found)? {
        return Ok(false);
    }
    all.extend(found.as_slice())?;
    all.extend(b"|")?;
    Ok(true)
}

/// Reads at most four records.
fn reads_four<D: Disk>(
    disk: &mut D,
    journal: &mut Journal,
    found: &mut Bytes,
    all: &mut Bytes,
) -> Result<(), JournalFault>
    requires { IsTrue D.tells → IsReadable journal.old (file_in (D.seen disk.old) journal.old.file) }
{
    'records: for _ in 0..4 {
        if !reads_one(disk, journal, found, all)? {
            break;
        }
    }
    Ok(())
}

/// The records of the journal, with a bar behind each.
fn records<D: Disk>(alloc: Global, disk: &mut D, limit: u64) -> Result<Bytes, JournalFault> {
    disk.sync(1)?;
    let mut journal = Journal::open(disk, 1, 8, limit)?;
    let mut found = Bytes::new(alloc);
    let mut all = Bytes::new(alloc);
    reads_four(disk, &mut journal, &mut found, &mut all)?;
    Ok(all)
}

/// The same of a file 1 of these bytes.
fn records_of(alloc: Global, bytes: &[u8], limit: u64) -> Result<Bytes, JournalFault> {
    let mut disk = MemoryDisk::new(alloc, &[])?;
    disk.write_at(1, 0, bytes)?;
    records(alloc, &mut disk, limit)
}

/// The image holds the records `before`, or `after`.
fn is_either(
    alloc: Global,
    disk: &MemoryDisk,
    calls: usize,
    choice: Choice,
    before: &[u8],
    after: &[u8],
) -> Result<bool, JournalFault> {
    let mut image = disk.image(alloc, calls, choice)?;
    reads_either(alloc, &mut image, before, after)
}

/// The disk holds the records `before`, or `after`.
fn reads_either(
    alloc: Global,
    disk: &mut MemoryDisk,
    before: &[u8],
    after: &[u8],
) -> Result<bool, JournalFault> {
    let found = records(alloc, disk, 64)?;
    Ok(found.as_slice() == before || found.as_slice() == after)
}

/// So does the image of each choice.
fn each_is_either(
    alloc: Global,
    disk: &MemoryDisk,
    calls: usize,
    before: &[u8],
    after: &[u8],
) -> Result<bool, JournalFault> {
    for byte in 0..=255 {
        if !is_either(alloc, disk, calls, Choice::Fill(byte), before, after)? {
            return Ok(false);
        }
    }
    if !is_either(alloc, disk, calls, Choice::Old, before, after)? {
        return Ok(false);
    }
    is_either(alloc, disk, calls, Choice::New, before, after)
}

/// No record was read, or the first gate is missing or opens on no record: a journal is not begun.
fn are_of_none(found: Result<Bytes, JournalFault>) -> bool {
    match found {
        Ok(found) => found.as_slice().is_empty(),
        Err(fault) => matches!(fault, JournalFault::Damaged { at: 8 }),
    }
}

/// The image has no journal.
fn is_not_begun(
    alloc: Global,
    disk: &MemoryDisk,
    calls: usize,
    choice: Choice,
) -> Result<bool, NoMemory> {
    let mut image = disk.image(alloc, calls, choice)?;
    Ok(are_of_none(records(alloc, &mut image, 64)))
}

/// So many records are acknowledged; None where the disk failed before.
fn acknowledges(rt: &impl Abort, disk: &mut MemoryDisk, count: Option<u8>) {
    let made = made(disk);
    assert!(rt; made == count);
}

/// After so many calls each choice leaves the records `before`, or `after`.
fn leaves_either(
    rt: &impl Abort,
    alloc: Global,
    disk: &MemoryDisk,
    calls: usize,
    step: (&[u8], &[u8]),
) -> Result<(), Fail> {
    let is_right = each_is_either(alloc, disk, calls, step.0, step.1)?;
    assert!(rt; is_right);
    Ok(())
}

/// After so many calls this choice leaves no journal.
fn leaves_none(
    rt: &impl Abort,
    alloc: Global,
    disk: &MemoryDisk,
    calls: usize,
    choice: Choice,
) -> Result<(), Fail> {
    let is_right = is_not_begun(alloc, disk, calls, choice)?;
    assert!(rt; is_right);
    Ok(())
}

fn reads(
    rt: &impl Abort,
    alloc: Global,
    disk: &mut MemoryDisk,
    limit: u64,
    want: &[u8],
) -> Result<(), Fail> {
    let found = records(alloc, disk, limit)?;
    same(rt, found.as_slice(), want);
    Ok(())
}

/// After each call from the third on: the records that may be there.
static ALLOWED: [(&[u8], &[u8]); 9] = [
    (NONE, NONE),
    (NONE, ONE),
    (NONE, ONE),
    (NONE, ONE),
    (ONE, ONE),
    (ONE, TWO),
    (ONE, TWO),
    (ONE, TWO),
    (TWO, TWO),
];

/// The choices of the images before the journal is begun.
static CHOICES: [Choice; 4] = [Choice::Old, Choice::New, Choice::Fill(0), Choice::Fill(1)];

/// After so many calls each choice leaves no journal.
fn leaves_no_journal(
    rt: &impl Abort,
    alloc: Global,
    disk: &MemoryDisk,
    calls: usize,
) -> Result<(), Fail> {
    for choice in &CHOICES {
        leaves_none(rt, alloc, disk, calls, *choice)?;
    }
    Ok(())
}

fn leaves_allowed(rt: &impl Abort, alloc: Global, disk: &MemoryDisk) -> Result<(), Fail> {
    for calls in 0..3 {
        leaves_no_journal(rt, alloc, disk, calls)?;
    }
    for (more, step) in ALLOWED.iter().enumerate() {
        leaves_either(rt, alloc, disk, 3 + more, *step)?;
    }
    Ok(())
}

/// The records that may be there where so many were acknowledged.
fn allowed(acknowledged: u8) -> (&'static [u8], &'static [u8]) {
    match acknowledged {
        0 => (NONE, ONE),
        1 => (ONE, TWO),
        _ => (TWO, TWO),
    }
}

/// The calls that read the records meet a fault of the disk.
fn meets_fault(rt: &impl Abort, alloc: Global, disk: &mut MemoryDisk) {
    let is_fault = is_disk_fault(alloc, disk);
    assert!(rt; is_fault);
}

fn is_disk_fault(alloc: Global, disk: &mut MemoryDisk) -> bool {
    match records(alloc, disk, 64) {
        Ok(_) => false,
        Err(fault) => fault == JournalFault::DiskFault,
    }
}

/// What is tried on a disk of its own.
#[derive(Clone, Copy)]
enum Trial {
    /// Each stop of the writing leaves the records before or after.
    Stops,
    /// The writing ends where so many records are acknowledged, and leaves these or one more.
    Ends(u8),
    /// No journal is made.
    NoJournal,
    /// All is written, and a call that reads it fails.
    Unread,
    /// All is written and read.
    Read,
    /// A body of so many bytes is appended before the call that fails, and read again.
    Body(usize),
    /// A gate is opened.
    Gate,
    /// None is.
    NoGate,
}

fn tries(rt: &impl Abort, alloc: Global, disk: &mut MemoryDisk, trial: Trial) -> Result<(), Fail> {
    match trial {
        Trial::Stops => {
            acknowledges(rt, disk, Some(2));
            leaves_allowed(rt, alloc, disk)
        }
        Trial::Ends(count) => {
            acknowledges(rt, disk, Some(count));
            leaves_either(rt, alloc, disk, 99, allowed(count))
        }
        Trial::NoJournal => {
            acknowledges(rt, disk, None);
            Ok(())
        }
        Trial::Unread => {
            acknowledges(rt, disk, Some(2));
            meets_fault(rt, alloc, disk);
            Ok(())
        }
        Trial::Read => {
            acknowledges(rt, disk, Some(2));
            reads(rt, alloc, disk, 64, TWO)
        }
        Trial::Body(size) => appends_body(rt, alloc, disk, size),
        Trial::Gate => {
            opens(rt, disk, true);
            shows_gates(rt, alloc, disk)
        }
        Trial::NoGate => {
            opens(rt, disk, false);
            Ok(())
        }
    }
}

/// The trial on a new disk of which this call fails; none does where the number is 0.
fn on_disk(rt: &impl Abort, alloc: Global, call: u64, trial: Trial) -> Result<(), Fail> {
    let mut disk = MemoryDisk::new(alloc, &[call])?;
    tries(rt, alloc, &mut disk, trial)
}

#[test]
fn each_stop_leaves_the_records_before_or_after(rt: HostRuntime) -> Result<(), Fail> {
    on_disk(&rt, rt.alloc(), 0, Trial::Stops)
}

#[test]
fn each_failing_call_leaves_the_records_before_or_after(rt: HostRuntime) -> Result<(), Fail> {
    for call in 4..8u64 {
        on_disk(&rt, rt.alloc(), call, Trial::Ends(0))?;
    }
    for call in 8..12u64 {
        on_disk(&rt, rt.alloc(), call, Trial::Ends(1))?;
    }
    Ok(())
}

#[test]
fn a_failing_call_is_a_fault_of_the_disk(rt: HostRuntime) -> Result<(), Fail> {
    for call in 1..4u64 {
        on_disk(&rt, rt.alloc(), call, Trial::NoJournal)?;
    }
    // Those of an opening: its sync, its length, and three for each record but one for the gate.
    for call in 12..21u64 {
        on_disk(&rt, rt.alloc(), call, Trial::Unread)?;
    }
    on_disk(&rt, rt.alloc(), 21, Trial::Read)
}

/// That file with one byte changed.
fn changed(at: usize, value: u8) -> [u8; 42] {
    let mut bytes = FILE;
    bytes[at % 42] = value;
    bytes
}

/// The place of the damage of a file 1 of these bytes, or 0 where its records are read.
fn damage(alloc: Global, bytes: &[u8], limit: u64) -> Result<u64, JournalFault> {
    match records_of(alloc, bytes, limit) {
        Ok(_) => Ok(0),
        Err(JournalFault::Damaged { at }) => Ok(at),
        Err(fault) => Err(fault),
    }
}

/// Each value of this byte is read, or is damage at one of the gates.
fn is_read_or_damage(rt: &impl Abort, alloc: Global, at: usize) -> Result<(), Fail> {
    for value in 0..=255u8 {
        let place = damage(alloc, &changed(at, value), 64)?;
        assert!(rt; matches!(place, 0 | 8 | 31 | 41));
    }
    Ok(())
}

#[test]
fn each_changed_byte_is_read_or_damage(rt: HostRuntime) -> Result<(), Fail> {
    for at in 0..42 {
        is_read_or_damage(&rt, rt.alloc(), at)?;
    }
    Ok(())
}

fn reads_file(
    rt: &impl Abort,
    alloc: Global,
    bytes: &[u8],
    limit: u64,
    want: &[u8],
) -> Result<(), Fail> {
    let found = records_of(alloc, bytes, limit)?;
    same(rt, found.as_slice(), want);
    Ok(())
}

fn damaged_at(
    rt: &impl Abort,
    alloc: Global,
    bytes: &[u8],
    limit: u64,
    at: u64,
) -> Result<(), Fail> {
    let place = damage(alloc, bytes, limit)?;
    assert!(rt; place == at);
    Ok(())
}

#[test]
fn gates_lengths_and_limits(rt: HostRuntime) -> Result<(), Fail> {
    let alloc = rt.alloc();
    reads_file(&rt, alloc, &changed(8, 0), 64, NONE)?;
    reads_file(&rt, alloc, &changed(8, 2), 64, NONE)?;
    reads_file(&rt, alloc, &changed(31, 0), 64, ONE)?;
    reads_file(&rt, alloc, &changed(41, 7), 64, TWO)?;
    reads_file(&rt, alloc, &FILE, 42, TWO)
}

#[test]
fn what_does_not_fit_is_damage(rt: HostRuntime) -> Result<(), Fail> {
    let alloc = rt.alloc();
    damaged_at(&rt, alloc, &changed(12, 255), 64, 8)?;
    damaged_at(&rt, alloc, &changed(9, 29), 64, 8)?;
    damaged_at(&rt, alloc, &changed(32, 6), 64, 31)?;
    damaged_at(&rt, alloc, &FILE, 41, 31)?;
    damaged_at(&rt, alloc, &[0; 8], 64, 8)
}

/// Whether a body of so many bytes is appended.
fn appends_bytes(alloc: Global, disk: &mut MemoryDisk, size: usize) -> Result<bool, Fail>
    requires { size < 10000 }
{
    let body = vec![in alloc; 7; size]?;
    Ok(has_appended(disk, &body))
}

/// A body of this size is appended, the next call fails, and the body is read again.
fn appends_body(
    rt: &impl Abort,
    alloc: Global,
    disk: &mut MemoryDisk,
    size: usize,
) -> Result<(), Fail> {
    let is_right = size < 10000 && appends_and_reads(alloc, disk, size)?;
    assert!(rt; is_right);
    Ok(())
}

/// Whether such a body is appended, the next call fails, and the body is read again then.
fn appends_and_reads(alloc: Global, disk: &mut MemoryDisk, size: usize) -> Result<bool, Fail>
    requires { size < 10000 }
{
    let is_appended = appends_bytes(alloc, disk, size)?;
    let is_next = disk.len(1).is_err();
    let is_read = reads_body(alloc, disk, size)?;
    Ok(is_appended && is_next && is_read)
}

/// Whether a head of eight digits and so many bytes 7 are the only record.
fn reads_body(alloc: Global, disk: &mut MemoryDisk, size: usize) -> Result<bool, JournalFault>
    requires { size < 10000 }
{
    let found = records(alloc, disk, 20000)?;
    let record = found.as_slice();
    let is_whole = record.starts_with(b"12345678") && record.ends_with(b"\x07\x07|");
    Ok(is_whole && record.len() == 9 + size)
}

#[test]
fn a_body_of_4_kib_takes_two_writes_and_two_syncs(rt: HostRuntime) -> Result<(), Fail> {
    // Three calls begin the journal, and the one behind those of the record fails.
    on_disk(&rt, rt.alloc(), 8, Trial::Body(2))?;
    on_disk(&rt, rt.alloc(), 8, Trial::Body(4096))?;
    // A longer one goes out from where it lies: four writes and two syncs.
    on_disk(&rt, rt.alloc(), 10, Trial::Body(4097))
}

/// Three bytes in file 0, synced; then the first is opened as a gate.
fn opened(disk: &mut MemoryDisk) -> Result<(), Failed> {
    disk.write_at(0, 0, b"\x00ab")?;
    disk.sync(0)?;
    open_gate(disk, 0, 0)
}

/// File 0 in the image after so many calls, in a buffer of nines.
fn first_bytes(alloc: Global, disk: &MemoryDisk, calls: usize, fill: u8) -> Result<[u8; 4], Fail> {
    let mut image = disk.image(alloc, calls, Choice::Fill(fill))?;
    let mut buf = [9; 4];
    image.read(0, 0, &mut buf)?;
    Ok(buf)
}

/// The image after so many calls of `opened` has this first byte in file 0, and the other two.
fn shows_gate(
    rt: &impl Abort,
    alloc: Global,
    disk: &MemoryDisk,
    row: &(usize, u8, u8),
) -> Result<(), Fail> {
    let (calls, fill, gate) = *row;
    let bytes = first_bytes(alloc, disk, calls, fill)?;
    assert!(rt; bytes == [gate, b'a', b'b', 9]);
    Ok(())
}

fn shows_gates(rt: &impl Abort, alloc: Global, disk: &MemoryDisk) -> Result<(), Fail> {
    for row in &GATES {
        shows_gate(rt, alloc, disk, row)?;
    }
    Ok(())
}

fn opens(rt: &impl Abort, disk: &mut MemoryDisk, done: bool) {
    let is_open = opened(disk).is_ok();
    assert!(rt; is_open == done);
}

/// So many calls, what stands where nothing is settled, and the gate that is left.
static GATES: [(usize, u8, u8); 5] = [(2, 7, 0), (3, 7, 7), (3, 1, 1), (4, 7, 1), (9, 7, 1)];

#[test]
fn a_gate_is_open_or_closed(rt: HostRuntime) -> Result<(), Fail> {
    on_disk(&rt, rt.alloc(), 0, Trial::Gate)
}

#[test]
fn a_failing_call_opens_no_gate(rt: HostRuntime) -> Result<(), Fail> {
    for call in 1..5u64 {
        on_disk(&rt, rt.alloc(), call, Trial::NoGate)?;
    }
    Ok(())
}

/// Whether an image of the disk holds one of these. None where there was no memory to say so.
fn is_in_image(alloc: Global, disk: &MemoryDisk, before: &[u8], after: &[u8]) -> Option<bool> {
    let mut image = disk.image(alloc, 99, Choice::Fill(1)).ok()?;
    is_in_files(alloc, &mut image, before, after)
}

/// Whether the files of the disk do.
fn is_in_files(alloc: Global, disk: &mut MemoryDisk, before: &[u8], after: &[u8]) -> Option<bool> {
    is_among(records(alloc, disk, 64), before, after)
}

/// How many records were acknowledged, and whether the files of the disk and an image of it hold these, or one
/// more. None where there was no memory to say so.
fn made_and_left(alloc: Global, disk: &mut MemoryDisk) -> Option<(u64, bool)> {
    let acknowledged = made(disk)?;
    let (before, after) = allowed(acknowledged);
    let in_image = is_in_image(alloc, disk, before, after)?;
    let in_files = is_in_files(alloc, disk, before, after)?;
    Some((u64::from(acknowledged), in_image && in_files))
}

fn with_any_memory(alloc: Global) -> Option<(u64, bool)> {
    let mut disk = MemoryDisk::new(alloc, &[]).ok()?;
    made_and_left(alloc, &mut disk)
}

/// Whether these records were read. None for a fault of the disk or want of memory, which are not damage.
fn is_among(found: Result<Bytes, JournalFault>, before: &[u8], after: &[u8]) -> Option<bool> {
    match found {
        Ok(found) => Some(found.as_slice() == before || found.as_slice() == after),
        Err(JournalFault::Damaged { at: _ }) => Some(false),
        Err(JournalFault::DiskFault) => None,
        Err(JournalFault::NoMemory) => None,
    }
}

// `checks/failing_trials_table` runs these two with each allocation failing in turn: the first passes
// whichever it is, and the second where there is none.
#[test]
fn want_of_memory_is_no_damage(rt: HostRuntime) {
    is_right_or_unknown(&rt, with_any_memory(rt.alloc()));
}

#[test]
fn with_memory_each_record_is_read(rt: HostRuntime) {
    ends(&rt, with_any_memory(rt.alloc()), 2);
}
