//! Areas, images and commands at the limits of their lengths, which the lower calls are given: each limit is passed by one byte.

ghost use Rattle.std.specs.Prelude.{◌≡◌, ◌<◌, ◌≤◌, IsTrue};
ghost use Rattle.image_slots.specs.Slotted.{farthest};
ghost use Rattle.chain_commands.specs.RunState.{longest_area};
ghost use Rattle.name_store.specs.Stored.{IsOn};

use super::files::{first_area, holds};
use super::first_block::FIRST_BLOCK;
use super::life::{
    Answer, BASE_TIP, FIRST_TIP, Found, answer_of, connect, finds, gets, let_go, make,
};
use chain_state::{Chain, Refusal};
use disk_model::Disk;
use image_files::{ReadFault, SaveFault, read_length, save_index};
use image_slots::{SlotLimits, Slots};
use index_commands::ChainCommand;
use memory_disk::MemoryDisk;
use name_store::Store;
use nmc_base::Steps;
use std::alloc::Global;
use std::marker::Brand;
use std::process::Abort;
use std::sync::ledger::{Blank, Ledger};
use std::test::Fail;

// ---- a command

/// Connects the first block to a store that is on the disk, whose area has no more bytes than `longest`.
fn connect_within<D: Disk, L: Ledger>(
    store: Store,
    alloc: Global,
    disk: &mut D,
    longest: u64,
    blank: Blank,
) -> (Option<Store>, Answer)
    requires on_disk { IsTrue D.tells → IsOn store (D.seen disk.old).moments.now }
    requires longest { longest ≤ longest_area }
    requires name { blank.name ≡ L.name }
    requires parts { blank.parts ≡ L.parts }
    requires some { 0 < blank.parts }
{
    let mut steps = Steps::<L>::new(blank);
    let command = ChainCommand::Connect(&FIRST_BLOCK);
    answer_of(store.execute_within(alloc, disk, command, longest, &mut steps))
}

/// Connects the first block to the store that the files of the disk are, within this length.
fn connects<D: Disk>(alloc: Global, disk: &mut D, longest: u64) -> Answer
    requires { longest ≤ longest_area }
{
    match Store::open(alloc, disk) {
        Ok(store) => {
            let (left, answer) = connect_within::<D, Brand>(
                store,
                alloc,
                disk,
                longest,
                Blank::new(1),
            );
            let_go(left);
            answer
        }
        Err(fault) => Answer::NotOpened(fault),
    }
}

/// An area of 299 bytes has no room for the block, and stays as it is.
fn refuses(rt: &impl Abort, alloc: Global, disk: &mut MemoryDisk) -> Result<(), Fail> {
    gets(rt, make(disk), Answer::Done(BASE_TIP));
    gets(
        rt,
        connects(alloc, disk, 299),
        Answer::Refused(Refusal::JournalFull),
    );
    holds(rt, disk, &[0; 9])?;
    gets(rt, connects(alloc, disk, 300), Answer::Done(FIRST_TIP));
    let area = first_area(alloc, 0)?;
    holds(rt, disk, area.as_slice())
}

#[test]
fn an_area_has_room_up_to_its_limit(rt: HostRuntime) -> Result<(), Fail> {
    let mut disk = MemoryDisk::new(rt.alloc(), &[])?;
    refuses(&rt, rt.alloc(), &mut disk)
}

// ---- an image

/// The place of the first gate of the selections behind the header.
const SELECTIONS: u64 = 58;

/// Saves this index behind the header, where an image has no more bytes than `longest`. Says how many selections there are then.
fn save_within<D: Disk>(
    alloc: Global,
    disk: &mut D,
    index: &Chain,
    longest: u64,
) -> Result<u32, SaveFault>
    requires { longest ≤ farthest }
{
    let limits = SlotLimits {
        selections: 2,
        image: longest,
    };
    if disk.sync(0).is_err() {
        return Err(SaveFault::DiskFault);
    }
    match Slots::open(alloc, disk, SELECTIONS, limits) {
        Ok(mut slots) => Ok(save_index(alloc, disk, &mut slots, index)?.number),
        Err(_) => Err(SaveFault::DiskFault),
    }
}

/// Saves the index of the files so.
fn saves<D: Disk>(alloc: Global, disk: &mut D, longest: u64) -> Result<u32, SaveFault>
    requires { longest ≤ farthest }
{
    match Store::open(alloc, disk) {
        Ok(store) => {
            let saved = save_within(alloc, disk, store.chain(), longest);
            let_go(Some(store));
            saved
        }
        Err(_) => Err(SaveFault::DiskFault),
    }
}

fn saves_so(
    rt: &impl Abort,
    alloc: Global,
    disk: &mut MemoryDisk,
    longest: u64,
    want: Result<u32, SaveFault>,
)
    requires { longest ≤ farthest }
{
    let saved = saves(alloc, disk, longest);
    assert!(rt; saved == want, "{saved:?}");
}

/// The length of the image in file 2, where none has more bytes than `longest`.
fn reads_so(rt: &impl Abort, disk: &mut MemoryDisk, longest: u64, want: Result<u64, ReadFault>) {
    let length = read_length(disk, longest, 2);
    assert!(rt; length == want, "{length:?}");
}

/// The image of the index behind the first block has 94 bytes.
fn images(rt: &impl Abort, alloc: Global, disk: &mut MemoryDisk) {
    gets(rt, make(disk), Answer::Done(BASE_TIP));
    gets(rt, connect(alloc, disk), Answer::Done(FIRST_TIP));
    saves_so(rt, alloc, disk, 93, Err(SaveFault::ImageLimit));
    finds(rt, alloc, disk, Found::First);
    saves_so(rt, alloc, disk, 94, Ok(1));
    reads_so(rt, disk, 93, Err(ReadFault::Damaged { at: 0 }));
    reads_so(rt, disk, 94, Ok(94));
}

#[test]
fn an_image_has_room_up_to_its_limit(rt: HostRuntime) -> Result<(), Fail> {
    let mut disk = MemoryDisk::new(rt.alloc(), &[])?;
    images(&rt, rt.alloc(), &mut disk);
    Ok(())
}
