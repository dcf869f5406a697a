//! A save in slices behind the first block, with the disconnect of it between two slices.

ghost use Rattle.std.specs.Prelude.{◌≡◌, ℕ, ◌+◌, ◌<◌, ◌≤◌, List, length, Bool, IfSome, IsTrue};
ghost use Rattle.chain_commands.specs.RunState.{longest_area};
ghost use Rattle.disk_model.specs.Moments.{Files};
ghost use Rattle.name_store.specs.Stored.{IsOn};
ghost use Rattle.name_store.specs.declared.slice_steps.TheConstants.{LONGEST_SLICE};
ghost use Rattle.file_trials.specs.Slices.{IsGoing, GoesOn};

use super::files::has;
use super::first_block::FIRST_HASH;
use super::life::{
    Answer, BASE_TIP, FIRST_TIP, Found, connect, finds, gets, leaves_either, let_go, look_at, make,
};
use disk_model::Disk;
use index_commands::ChainCommand;
use memory_disk::MemoryDisk;
use name_store::{DraftOutcome, LONGEST_SLICE, Outcome, SliceOutcome, SlicedDraft, Store};
use nmc_base::{Bytes, Hash32, NoMemory, Steps};
use std::alloc::Global;
use std::marker::Brand;
use std::process::Abort;
use std::sync::ledger::{Blank, Ledger};
use std::test::Fail;

/// Begins a save of this image.
fn begin<D: Disk>(store: Store, disk: &mut D, image: &[u8]) -> Option<(Store, SlicedDraft)>
    requires on_disk { IsTrue D.tells → IsOn store (D.seen disk.old).moments.now }
    ensures { IfSome result (λ begun. IsGoing D.tells image.now 0 begun.0 begun.1 (D.seen disk.new).moments.now) }
{
    match store.begin_draft(disk, image.len() as u64) {
        DraftOutcome::Begun(store, draft) => Some((store, draft)),
        DraftOutcome::Refused(store, _) => {
            let_go(Some(store));
            None
        }
        DraftOutcome::Faulted => None,
    }
}

/// The next slice of this image, of which so many bytes are written.
fn slice<D: Disk>(
    begun: (Store, SlicedDraft),
    disk: &mut D,
    image: &[u8],
    written: usize,
    most: usize,
) -> SliceOutcome
    requires going { IsGoing D.tells image.now written begun.0 begun.1 (D.seen disk.old).moments.now }
    requires within { written ≤ length image.now }
    requires some { 1 ≤ most }
    requires few { most ≤ LONGEST_SLICE }
    ensures { GoesOn D.tells image.now (written + most) (D.seen disk.new).moments.now result }
{
    let end = image.len().min(written + most);
    begun.0.slice(disk, begun.1, &image[written..end], most)
}

/// The save that goes on, if it does.
fn going(outcome: SliceOutcome) -> Option<(Store, SlicedDraft)>
    ensures { (tells : Bool) (image : List ℕ) (written : ℕ) (files : Files) → GoesOn tells image written files outcome → IfSome result (λ begun. IsGoing tells image written begun.0 begun.1 files) }
{
    match outcome {
        SliceOutcome::Written(store, draft) => Some((store, draft)),
        SliceOutcome::Selected(store, _) => {
            let_go(Some(store));
            None
        }
        SliceOutcome::AreaLimit(store) => {
            let_go(Some(store));
            None
        }
        SliceOutcome::Faulted => None,
    }
}

/// Disconnects the first block beside the save.
fn disconnect<D: Disk, L: Ledger>(
    begun: (Store, SlicedDraft),
    alloc: Global,
    disk: &mut D,
    blank: Blank,
) -> Option<(Store, SlicedDraft)>
    requires on_disk { IsTrue D.tells → IsOn begun.0 (D.seen disk.old).moments.now }
    requires name { blank.name ≡ L.name }
    requires parts { blank.parts ≡ L.parts }
    requires some { 0 < blank.parts }
    ensures { (image : List ℕ) (written : ℕ) → IsGoing D.tells image written begun.0 begun.1 (D.seen disk.old).moments.now
        → IfSome result (λ behind. IsGoing D.tells image written behind.0 behind.1 (D.seen disk.new).moments.now) }
{
    let (store, draft) = begun;
    let mut steps = Steps::<L>::new(blank);
    let command = ChainCommand::Disconnect(Hash32(FIRST_HASH));
    match store.execute(alloc, disk, command, &mut steps) {
        Outcome::Done(store, _) => Some((store, draft)),
        Outcome::Refused(store, _) => {
            let_go(Some(store));
            None
        }
        Outcome::NoMemory(store) => {
            let_go(Some(store));
            None
        }
        Outcome::Faulted => None,
    }
}

/// The number of the save that was selected.
fn number_of(outcome: SliceOutcome) -> Option<u64> {
    match outcome {
        SliceOutcome::Selected(store, number) => {
            let_go(Some(store));
            Some(number)
        }
        SliceOutcome::Written(store, _) => {
            let_go(Some(store));
            None
        }
        SliceOutcome::AreaLimit(store) => {
            let_go(Some(store));
            None
        }
        SliceOutcome::Faulted => None,
    }
}

/// The image of the index behind the first block: its magic, version and network, the base's height and hash, one record of the block's
/// hash without an operation and an expired coin, no coin and no name.
const IMAGE: [u8; 94] = [
    0x4e, 0x4d, 0x43, 0x49, 0x02, 0x01, 0x00, 0x00, 0x00, 0x00, 0x00, 0x00, 0x00, 0x00, 0x00, 0x00,
    0x00, 0x00, 0x00, 0x00, 0x00, 0x00, 0x00, 0x00, 0x00, 0x00, 0x00, 0x00, 0x00, 0x00, 0x00, 0x00,
    0x00, 0x00, 0x00, 0x00, 0x00, 0x00, 0x00, 0x00, 0x00, 0x00, 0x01, 0x00, 0x00, 0x00, 0x6f, 0xe2,
    0x8c, 0x0a, 0xb6, 0xf1, 0xb3, 0x72, 0xc1, 0xa6, 0xa2, 0x46, 0xae, 0x63, 0xf7, 0x4f, 0x93, 0x1e,
    0x83, 0x65, 0xe1, 0x5a, 0x08, 0x9c, 0x68, 0xd6, 0x19, 0x00, 0x00, 0x00, 0x00, 0x00, 0x00, 0x00,
    0x00, 0x00, 0x00, 0x00, 0x00, 0x00, 0x00, 0x00, 0x00, 0x00, 0x00, 0x00, 0x00, 0x00,
];

/// Saves the store, of this image, in slices of 40, 54 and 38 bytes, with the disconnect behind the first of them. Says the number of the save.
fn save_in_slices<D: Disk, L: Ledger>(
    store: Store,
    alloc: Global,
    disk: &mut D,
    image: &[u8],
    blank: Blank,
) -> Option<u64>
    requires on_disk { IsTrue D.tells → IsOn store (D.seen disk.old).moments.now }
    requires name { blank.name ≡ L.name }
    requires parts { blank.parts ≡ L.parts }
    requires some { 0 < blank.parts }
    requires size { length image.now ≡ 94 }
{
    let begun = begin(store, disk, image)?;
    let begun = going(slice(begun, disk, image, 0, 40))?;
    let begun = disconnect::<D, L>(begun, alloc, disk, blank)?;
    let begun = going(slice(begun, disk, image, 40, 54))?;
    number_of(slice(begun, disk, image, 94, 38))
}

/// Opens the files behind the first block, and saves the store so.
fn save_opened<D: Disk>(alloc: Global, disk: &mut D) -> Option<u64> {
    match Store::open(alloc, disk) {
        Ok(store) => save_in_slices::<D, Brand>(store, alloc, disk, &IMAGE, Blank::new(1)),
        Err(_) => None,
    }
}

/// Lives on the disk to the end of the save. Says its number.
fn live<D: Disk>(alloc: Global, disk: &mut D) -> Option<u64> {
    if make(disk) != Answer::Done(BASE_TIP) || connect(alloc, disk) != Answer::Done(FIRST_TIP) {
        return None;
    }
    save_opened(alloc, disk)
}

/// The saved area: the length 94 and the image; and the record of the disconnect, of the length 33, behind it.
fn area(alloc: Global) -> Result<Bytes, NoMemory> {
    let mut area = Bytes::copy_of(alloc, &[0x5e, 0, 0, 0, 0, 0, 0, 0])?;
    area.extend(&IMAGE)?;
    area.extend(&[1, 33, 0, 0, 0, 2])?;
    area.extend(&FIRST_HASH)?;
    area.extend(&[0])?;
    Ok(area)
}

/// The last slice of a save of this image, of which nothing is written, in an area that has no more bytes than `longest`.
fn whole_within<D: Disk>(
    begun: (Store, SlicedDraft),
    disk: &mut D,
    image: &[u8],
    longest: u64,
) -> SliceOutcome
    requires going { IsGoing D.tells image.now 0 begun.0 begun.1 (D.seen disk.old).moments.now }
    requires size { length image.now ≡ 94 }
    requires longest { longest ≤ longest_area }
{
    begun.0.slice_within(disk, begun.1, image, 94, longest)
}

/// Saves the store of the files in one slice, in an area that has no more bytes than `longest`. Says the number of the save.
fn save_within<D: Disk>(alloc: Global, disk: &mut D, longest: u64) -> Option<u64>
    requires { longest ≤ longest_area }
{
    match Store::open(alloc, disk) {
        Ok(store) => {
            let begun = begin(store, disk, &IMAGE)?;
            number_of(whole_within(begun, disk, &IMAGE, longest))
        }
        Err(_) => None,
    }
}

/// The saved area has 103 bytes: it isn't selected where 102 are the most.
fn ends_within(rt: &impl Abort, alloc: Global, disk: &mut MemoryDisk) {
    gets(rt, make(disk), Answer::Done(BASE_TIP));
    gets(rt, connect(alloc, disk), Answer::Done(FIRST_TIP));
    let number = save_within(alloc, disk, 102);
    assert!(rt; number.is_none(), "{number:?}");
    finds(rt, alloc, disk, Found::First);
    let number = save_within(alloc, disk, 103);
    assert!(rt; number == Some(1), "{number:?}");
    finds(rt, alloc, disk, Found::First);
}

#[test]
fn a_save_in_slices_has_room_up_to_its_limit(rt: HostRuntime) -> Result<(), Fail> {
    let mut disk = MemoryDisk::new(rt.alloc(), &[])?;
    ends_within(&rt, rt.alloc(), &mut disk);
    Ok(())
}

/// The numbers of calls, from the first of them to the last, and the two of which a stop after so many calls leaves one.
static STOPS: [(usize, usize, Found, Found); 3] = [
    // the block is connected; the save is begun, and the first slice written
    (26, 42, Found::First, Found::First),
    // while the block is disconnected
    (43, 45, Found::First, Found::Base),
    // the other slices are written, and the save is selected; the last number is above those of all calls
    (46, 56, Found::Base, Found::Base),
];

fn leaves_each(rt: &impl Abort, alloc: Global, disk: &MemoryDisk) -> Result<(), Fail> {
    for (first, last, before, after) in &STOPS {
        for calls in *first..=*last {
            leaves_either(rt, alloc, disk, calls, (*before, *after))?;
        }
    }
    Ok(())
}

/// The save was selected, and the area has the image and the record of the disconnect.
fn saves(rt: &impl Abort, alloc: Global, disk: &mut MemoryDisk) -> Result<(), Fail> {
    let number = live(alloc, disk);
    assert!(rt; number == Some(1), "{number:?}");
    let area = area(alloc)?;
    let is_so = has(disk, 2, area.as_slice())?;
    assert!(rt; is_so);
    finds(rt, alloc, disk, Found::Base);
    Ok(())
}

#[test]
fn a_disconnect_between_slices_stands_behind_the_image(rt: HostRuntime) -> Result<(), Fail> {
    let mut disk = MemoryDisk::new(rt.alloc(), &[])?;
    saves(&rt, rt.alloc(), &mut disk)?;
    leaves_each(&rt, rt.alloc(), &disk)
}

/// The calls from the save's beginning on that may fail, and the two of which the files are one then.
static FAILURES: [(u64, u64, Found, Found); 3] = [
    (40, 42, Found::First, Found::First),
    (43, 46, Found::First, Found::Base),
    (47, 55, Found::Base, Found::Base),
];

/// On a disk of which this call fails, no save is selected, or its answer is lost.
fn fails_at(rt: &impl Abort, alloc: Global, call: u64, either: (Found, Found)) -> Result<(), Fail> {
    let mut disk = MemoryDisk::new(alloc, &[call])?;
    let is_lost = live(alloc, &mut disk).is_none();
    assert!(rt; is_lost, "call {call}");
    leaves_either(rt, alloc, &disk, 99, either)?;
    let found = look_at(alloc, &mut disk);
    assert!(rt; found == either.0 || found == either.1, "{found:?}");
    Ok(())
}

#[test]
fn each_failing_call_of_a_save_in_slices(rt: HostRuntime) -> Result<(), Fail> {
    for (first, last, before, after) in &FAILURES {
        for call in *first..=*last {
            fails_at(&rt, rt.alloc(), call, (*before, *after))?;
        }
    }
    Ok(())
}
