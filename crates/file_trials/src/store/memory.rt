//! The life of a store where memory is wanting: a store that is handed back gets the command again.

ghost use Rattle.std.specs.Prelude.{◌≡◌, ◌<◌, IsTrue};
ghost use Rattle.name_store.specs.Stored.{IsOn};

use super::first_block::{FIRST_BLOCK, FIRST_HASH};
use super::life::{
    Answer, BASE_TIP, FIRST_TIP, Found, answer_of, connect, disconnect, found_in, let_go, look_at,
    make,
};
use crate::comparing::{ends, is_right_or_unknown};
use disk_model::Disk;
use index_commands::ChainCommand;
use memory_disk::{Choice, MemoryDisk};
use name_store::{CreateFault, OpenFault, Outcome, Store};
use nmc_base::{Hash32, Steps};
use std::alloc::Global;
use std::marker::Brand;
use std::sync::ledger::{Blank, Ledger};

/// Connects the first block to a store that is on the disk, and to the one that is handed back for want of memory.
fn connect_twice<D: Disk, L: Ledger>(
    store: Store,
    alloc: Global,
    disk: &mut D,
    blank: Blank,
) -> (Option<Store>, Answer)
    requires on_disk { IsTrue D.tells → IsOn store (D.seen disk.old).moments.now }
    requires name { blank.name ≡ L.name }
    requires parts { blank.parts ≡ L.parts }
    requires some { 0 < blank.parts }
{
    let mut steps = Steps::<L>::new(blank);
    let command = ChainCommand::Connect(&FIRST_BLOCK);
    match store.execute(alloc, disk, command, &mut steps) {
        Outcome::NoMemory(again) => answer_of(again.execute(alloc, disk, command, &mut steps)),
        outcome => answer_of(outcome),
    }
}

/// Disconnects the first block likewise.
fn disconnect_twice<D: Disk, L: Ledger>(
    store: Store,
    alloc: Global,
    disk: &mut D,
    blank: Blank,
) -> (Option<Store>, Answer)
    requires on_disk { IsTrue D.tells → IsOn store (D.seen disk.old).moments.now }
    requires name { blank.name ≡ L.name }
    requires parts { blank.parts ≡ L.parts }
    requires some { 0 < blank.parts }
{
    let mut steps = Steps::<L>::new(blank);
    let command = ChainCommand::Disconnect(Hash32(FIRST_HASH));
    match store.execute(alloc, disk, command, &mut steps) {
        Outcome::NoMemory(again) => answer_of(again.execute(alloc, disk, command, &mut steps)),
        outcome => answer_of(outcome),
    }
}

/// Saves a store that is on the disk, and the one that is handed back for want of memory.
fn save_twice<D: Disk>(store: Store, alloc: Global, disk: &mut D) -> (Option<Store>, Answer)
    requires on_disk { IsTrue D.tells → IsOn store (D.seen disk.old).moments.now }
{
    match store.save(alloc, disk) {
        Outcome::NoMemory(again) => answer_of(again.save(alloc, disk)),
        outcome => answer_of(outcome),
    }
}

fn connect_again<D: Disk>(alloc: Global, disk: &mut D) -> Answer {
    match Store::open(alloc, disk) {
        Ok(store) => {
            let (left, answer) = connect_twice::<D, Brand>(store, alloc, disk, Blank::new(1));
            let_go(left);
            answer
        }
        Err(OpenFault::NoMemory) => connect(alloc, disk),
        Err(fault) => Answer::NotOpened(fault),
    }
}

fn disconnect_again<D: Disk>(alloc: Global, disk: &mut D) -> Answer {
    match Store::open(alloc, disk) {
        Ok(store) => {
            let (left, answer) = disconnect_twice::<D, Brand>(store, alloc, disk, Blank::new(1));
            let_go(left);
            answer
        }
        Err(OpenFault::NoMemory) => disconnect(alloc, disk, Hash32(FIRST_HASH)),
        Err(fault) => Answer::NotOpened(fault),
    }
}

fn save<D: Disk>(alloc: Global, disk: &mut D) -> Answer {
    match Store::open(alloc, disk) {
        Ok(store) => {
            let (left, answer) = save_twice(store, alloc, disk);
            let_go(left);
            answer
        }
        Err(fault) => Answer::NotOpened(fault),
    }
}

fn save_again<D: Disk>(alloc: Global, disk: &mut D) -> Answer {
    match save(alloc, disk) {
        Answer::NotOpened(OpenFault::NoMemory) => save(alloc, disk),
        answer => answer,
    }
}

/// How many of the three commands and the save between them were done, and what the last one that was begun got.
fn live_again<D: Disk>(alloc: Global, disk: &mut D) -> (u8, Answer) {
    let answer = make(disk);
    if answer != Answer::Done(BASE_TIP) {
        return (0, answer);
    }
    let answer = connect_again(alloc, disk);
    if answer != Answer::Done(FIRST_TIP) {
        return (1, answer);
    }
    let answer = save_again(alloc, disk);
    if answer != Answer::Saved(1) {
        return (2, answer);
    }
    let answer = disconnect_again(alloc, disk);
    if answer != Answer::Done(BASE_TIP) {
        return (3, answer);
    }
    (4, answer)
}

/// Whether the life came to its end, or a call of the disk found no memory.
fn is_end_or_fault(end: (u8, Answer)) -> bool {
    match end.1 {
        Answer::Done(_) => end.0 == 4,
        Answer::Faulted => true,
        Answer::NotOpened(fault) => fault == OpenFault::DiskFault,
        Answer::NotMade(fault) => fault == CreateFault::DiskFault,
        _ => false,
    }
}

/// Whether the files are what so many of them leave, or one more. None where there was no memory to say so.
fn is_left(found: Found, done: u8) -> Option<bool> {
    match found {
        // whatever is done, the base may be there: before the block, or where it was disconnected
        Found::Base => Some(true),
        Found::First => Some(1 <= done && done <= 3),
        Found::Other(_) => Some(false),
        Found::Not(OpenFault::Uninitialised) => Some(done == 0),
        Found::Not(OpenFault::Damaged { .. }) => Some(false),
        Found::Not(OpenFault::DiskFault | OpenFault::NoMemory) => None,
    }
}

/// How many of them were done, and whether the files of the disk and an image of it are what these leave, or
/// one more. None where there was no memory to say so.
fn lived_again(alloc: Global, disk: &mut MemoryDisk) -> Option<(u64, bool)> {
    let end = live_again(alloc, disk);
    let image = found_in(alloc, disk, 99, Choice::Fill(1)).ok()?;
    let in_image = is_left(image, end.0)?;
    let in_files = is_left(look_at(alloc, disk), end.0)?;
    let is_right = is_end_or_fault(end) && in_image && in_files;
    Some((u64::from(end.0), is_right))
}

fn with_any_memory(alloc: Global) -> Option<(u64, bool)> {
    let mut disk = MemoryDisk::new(alloc, &[]).ok()?;
    lived_again(alloc, &mut disk)
}

// `checks/failing_trials_table` runs these two with each allocation failing in turn: the first passes
// whichever it is, and the second where there is none.
#[test]
fn a_store_without_memory_stands_as_before(rt: HostRuntime) {
    is_right_or_unknown(&rt, with_any_memory(rt.alloc()));
}

#[test]
fn with_memory_each_command_is_done(rt: HostRuntime) {
    ends(&rt, with_any_memory(rt.alloc()), 4);
}
