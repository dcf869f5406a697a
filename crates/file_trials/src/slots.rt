//! Images and their selections over such a disk.

ghost use Rattle.std.specs.Prelude.{◌≡◌, ◌<◌, ◌≤◌, ℕ, List, length, IsTrue, IfSome, IfOk, OnOk};
ghost use Rattle.disk_model.specs.DiskSeen.{file_in};
ghost use Rattle.image_slots.specs.Selections.{drafted_by};
ghost use Rattle.image_slots.specs.Slotted.{AreOn};

use disk_model::Disk;
use image_slots::{DraftFault, Ready, SlotFault, SlotLimits, Slots};
use memory_disk::{Choice, MemoryDisk};
use nmc_base::NoMemory;
use std::alloc::Global;
use std::process::Abort;
use std::test::Fail;

/// The place of the first gate, behind `abc`.
const AT: u64 = 3;

const LIMITS: SlotLimits = SlotLimits {
    selections: 2,
    image: 10,
};

const FIRST: &[u8] = b"12345";

const SECOND: &[u8] = b"67";

/// Makes file 0 without a selection, and opens the slots.
fn begun<D: Disk>(alloc: Global, disk: &mut D) -> Option<Slots>
    ensures { IsTrue D.tells → IfSome result (λ slots. (front : List ℕ) × AreOn front slots (file_in (D.seen disk.new) 0)) }
{
    if disk.write_at(0, 0, b"abc\x00").is_err() || disk.sync(0).is_err() {
        return None;
    }
    Slots::open(alloc, disk, AT, LIMITS).ok()
}

/// Drafts an image in two pieces.
fn drafts<D: Disk>(disk: &mut D, slots: &mut Slots, image: &[u8]) -> Result<Ready, DraftFault>
    requires some { 0 < length image.now }
    requires on_disk { IsTrue D.tells → (front : List ℕ) × AreOn front slots.old (file_in (D.seen disk.old) 0) }
    ensures one_more { OnOk result (slots.new.count < slots.new.limits.selections) }
    ensures area { IfOk result (λ ready. ready ≡ drafted_by slots.new.count) }
    ensures on_disk { IsTrue D.tells → OnOk result ((front : List ℕ) × AreOn front slots.new (file_in (D.seen disk.new) 0)) }
{
    let mut draft = slots.begin(disk, image.len() as u64)?;
    draft.piece(disk, &image[..1])?;
    draft.piece(disk, &image[1..])?;
    let ready = draft.finish(disk)?;
    Ok(ready)
}

/// Saves an image, and says how many selections there are then.
fn saves<D: Disk>(disk: &mut D, slots: &mut Slots, image: &[u8]) -> Result<u32, DraftFault>
    requires some { 0 < length image.now }
    requires on_disk { IsTrue D.tells → (front : List ℕ) × AreOn front slots.old (file_in (D.seen disk.old) 0) }
    ensures { IsTrue D.tells → OnOk result ((front : List ℕ) × AreOn front slots.new (file_in (D.seen disk.new) 0)) }
{
    let ready = drafts(disk, slots, image)?;
    let count = slots.select(disk, ready)?;
    Ok(count)
}

/// Makes two selections, as far as the disk lets it; says how many were acknowledged.
fn made<D: Disk>(alloc: Global, disk: &mut D) -> Option<u32> {
    let mut slots = begun(alloc, disk)?;
    match saves(disk, &mut slots, FIRST) {
        Ok(_) => {}
        Err(_) => return Some(0),
    }
    match saves(disk, &mut slots, SECOND) {
        Ok(count) => Some(count),
        Err(_) => Some(1),
    }
}

/// The slots of the disk, opened anew.
fn opened<D: Disk>(alloc: Global, disk: &mut D) -> Result<Slots, SlotFault> {
    match disk.sync(0) {
        Ok(()) => Slots::open(alloc, disk, AT, LIMITS),
        Err(_) => Err(SlotFault::DiskFault),
    }
}

/// The area that so many selections select, and what it has then.
fn area_of(count: u32) -> (u8, &'static [u8]) {
    match count {
        0 => (1, b""),
        1 => (2, b"\x05\x00\x00\x00\x00\x00\x00\x0012345\x00"),
        _ => (1, b"\x02\x00\x00\x00\x00\x00\x00\x0067\x00"),
    }
}

/// Whether a file has these bytes.
fn has(disk: &mut MemoryDisk, file: u8, want: &[u8]) -> bool
    requires { file < 3 }
{
    let mut buf = [0; 20];
    match disk.read(file, 0, &mut buf) {
        Ok(count) => &buf[..count] == want,
        Err(_) => false,
    }
}

/// Whether that area has these bytes.
fn is_area(disk: &mut MemoryDisk, slots: &Slots) -> bool {
    let (file, bytes) = area_of(slots.count());
    slots.selected() == file && has(disk, slots.selected(), bytes)
}

/// How many selections the disk has. None where it is damaged, or the area selected is not whole.
fn found(alloc: Global, disk: &mut MemoryDisk) -> Option<u32> {
    match opened(alloc, disk) {
        Ok(slots) => {
            if is_area(disk, &slots) {
                Some(slots.count())
            } else {
                None
            }
        }
        Err(_) => None,
    }
}

/// How many selections this image has.
fn left(
    alloc: Global,
    disk: &MemoryDisk,
    calls: usize,
    choice: Choice,
) -> Result<Option<u32>, NoMemory> {
    let mut image = disk.image(alloc, calls, choice)?;
    Ok(found(alloc, &mut image))
}

/// The choices of the images.
static CHOICES: [Choice; 4] = [Choice::Old, Choice::New, Choice::Fill(0), Choice::Fill(1)];

/// Each choice leaves one of these numbers of selections.
fn leaves(
    rt: &impl Abort,
    alloc: Global,
    disk: &MemoryDisk,
    calls: usize,
    either: (u32, u32),
) -> Result<(), Fail> {
    for choice in &CHOICES {
        let count = left(alloc, disk, calls, *choice)?;
        assert!(rt; count == Some(either.0) || count == Some(either.1));
    }
    Ok(())
}

/// So many selections are acknowledged. None where they were not begun.
fn acknowledges(rt: &impl Abort, alloc: Global, disk: &mut MemoryDisk, count: Option<u32>) {
    let made = made(alloc, disk);
    assert!(rt; made == count);
}

/// The numbers of calls, from the first of them to the last, and the numbers of selections of which a stop leaves one.
static STOPS: [(usize, usize, u32, u32); 5] = [
    (2, 12, 0, 0),
    // the first gate is opened
    (13, 13, 0, 1),
    (14, 22, 1, 1),
    (23, 23, 1, 2),
    // the last number is above those of all calls
    (24, 25, 2, 2),
];

fn leaves_each(rt: &impl Abort, alloc: Global, disk: &MemoryDisk) -> Result<(), Fail> {
    for (first, last, before, after) in &STOPS {
        for calls in *first..=*last {
            leaves(rt, alloc, disk, calls, (*before, *after))?;
        }
    }
    Ok(())
}

#[test]
fn each_stop_leaves_the_selections_before_or_after(rt: HostRuntime) -> Result<(), Fail> {
    let mut disk = MemoryDisk::new(rt.alloc(), &[])?;
    acknowledges(&rt, rt.alloc(), &mut disk, Some(2));
    leaves_each(&rt, rt.alloc(), &disk)
}

/// This call fails, when so many selections were acknowledged; none where the slots weren't opened.
fn fails(
    rt: &impl Abort,
    alloc: Global,
    call: u64,
    acknowledged: Option<u32>,
    most: u32,
) -> Result<(), Fail> {
    let mut disk = MemoryDisk::new(alloc, &[call])?;
    acknowledges(rt, alloc, &mut disk, acknowledged);
    leaves(rt, alloc, &disk, 99, (acknowledged.unwrap_or(0), most))
}

/// From the first call that fails to the last: how many selections were acknowledged, and how many there are then at most. Two calls
/// open the slots; a draft begins with a cut and a write of the length.
static FAILURES: [(u64, u64, Option<u32>, u32); 3] = [
    (3, 4, None, 0),
    (5, 14, Some(0), 1),
    (15, 24, Some(1), 2),
];

#[test]
fn each_failing_call_leaves_the_selections_before_or_after(rt: HostRuntime) -> Result<(), Fail> {
    for (first, last, acknowledged, most) in &FAILURES {
        for call in *first..=*last {
            fails(&rt, rt.alloc(), call, *acknowledged, *most)?;
        }
    }
    Ok(())
}

/// Why no draft of so many bytes is begun behind so many selections, or None.
fn refusal(disk: &mut MemoryDisk, count: u32, image: u64) -> Option<DraftFault>
    requires { count ≤ 2 }
{
    Slots::at(AT, count, LIMITS).begin(disk, image).err()
}

fn refuses(rt: &impl Abort, disk: &mut MemoryDisk, row: &(u32, u64, Option<DraftFault>)) {
    let (count, image, want) = row;
    let fault = refusal(disk, (*count).min(2), *image);
    assert!(rt; fault == *want);
}

/// So many selections, so many bytes, and the limit that a draft would pass.
static LIMITS_PASSED: [(u32, u64, Option<DraftFault>); 4] = [
    (1, 10, None),
    (1, 11, Some(DraftFault::ImageLimit)),
    (2, 10, Some(DraftFault::CheckpointLimit)),
    (2, 11, Some(DraftFault::CheckpointLimit)),
];

#[test]
fn limits_are_passed_in_their_order(rt: HostRuntime) -> Result<(), Fail> {
    let mut disk = MemoryDisk::new(rt.alloc(), &[])?;
    for row in &LIMITS_PASSED {
        refuses(&rt, &mut disk, row);
    }
    Ok(())
}

/// How many selections a file of these bytes has, or the place of its damage.
fn selections_of(alloc: Global, bytes: &[u8]) -> Result<Result<u32, u64>, Fail> {
    let mut disk = MemoryDisk::new(alloc, &[])?;
    disk.write_at(0, 0, bytes)?;
    match opened(alloc, &mut disk) {
        Ok(slots) => Ok(Ok(slots.count())),
        Err(SlotFault::Damaged { at }) => Ok(Err(at)),
        Err(_) => Ok(Err(0)),
    }
}

fn reads_row(rt: &impl Abort, alloc: Global, row: &(&[u8], Result<u32, u64>)) -> Result<(), Fail> {
    let (bytes, want) = row;
    let count = selections_of(alloc, bytes)?;
    assert!(rt; count == *want);
    Ok(())
}

static FILES: [(&[u8], Result<u32, u64>); 9] = [
    (b"ab", Err(3)),
    (b"abc", Err(3)),
    (b"abc\x02", Ok(0)),
    (b"abc\x01\x01\x00\x00\x00\x02\x00", Ok(1)),
    // the gate behind it is missing
    (b"abc\x01\x01\x00\x00\x00\x02", Err(3)),
    // the first selection names area 1
    (b"abc\x01\x01\x00\x00\x00\x01\x00", Err(3)),
    // it has a byte too many
    (b"abc\x01\x02\x00\x00\x00\x02\x02\x00", Err(3)),
    // the second names the area of the first
    (
        b"abc\x01\x01\x00\x00\x00\x02\x01\x01\x00\x00\x00\x02\x00",
        Err(9),
    ),
    // there are three
    (
        b"abc\x01\x01\x00\x00\x00\x02\x01\x01\x00\x00\x00\x01\x01\x01\x00\x00\x00\x02\x00",
        Err(15),
    ),
];

#[test]
fn selections_and_damage(rt: HostRuntime) -> Result<(), Fail> {
    for row in &FILES {
        reads_row(&rt, rt.alloc(), row)?;
    }
    Ok(())
}
