//! The life of a store on a disk: its files are made, the first block is connected, and disconnected again. Files are opened
//! for each command, and the store is let go behind it.

ghost use Rattle.std.specs.Prelude.{◌≡◌, ◌<◌, IsTrue};
ghost use Rattle.name_store.specs.Stored.{IsOn};

use super::first_block::{FIRST_BLOCK, FIRST_HASH};
use super::making::made;
use chain_state::{BackRefusal, Refusal};
use disk_model::Disk;
use index_commands::{ChainCommand, CommandRefusal};
use memory_disk::{Choice, MemoryDisk};
use name_store::{CreateFault, OpenFault, Outcome, SaveRefusal, Store};
use nmc_base::{Hash32, NoMemory, Steps, Tip};
use std::alloc::Global;
use std::marker::Brand;
use std::process::Abort;
use std::sync::ledger::{Blank, Ledger};
use std::test::Fail;

/// What came of a command or a save, or of making the files.
#[derive(Clone, Copy, Debug, PartialEq, Eq)]
pub(super) enum Answer {
    /// It was done, and the tip is this.
    Done(Tip),
    /// The index was saved, and this is the number of the save.
    Saved(u64),
    Refused(Refusal),
    RefusedBack(BackRefusal),
    RefusedSave(SaveRefusal),
    NoMemory,
    /// The disk failed in the command.
    Faulted,
    NotOpened(OpenFault),
    NotMade(CreateFault),
    /// The base's host is none.
    NoHost,
}

/// What files are found to be.
#[derive(Clone, Copy, Debug, PartialEq, Eq)]
pub(super) enum Found {
    /// Those of a store without a block.
    Base,
    /// Those of a store whose tip is the first block.
    First,
    /// Those of a store with another tip, of this height.
    Other(u32),
    /// They are not opened.
    Not(OpenFault),
}

pub(super) const BASE_TIP: Tip = Tip {
    height: 0,
    hash: Hash32([0; 32]),
};

pub(super) const FIRST_TIP: Tip = Tip {
    height: 1,
    hash: Hash32(FIRST_HASH),
};

fn of_tip(tip: Tip) -> Found {
    if tip == BASE_TIP {
        return Found::Base;
    }
    if tip == FIRST_TIP {
        return Found::First;
    }
    Found::Other(tip.height)
}

/// Lets a store go, if there is one.
pub(super) fn let_go(store: Option<Store>) {
    if let Some(store) = store {
        store.let_go();
    }
}

/// What the files of the disk are found to be.
pub(super) fn look_at<D: Disk>(alloc: Global, disk: &mut D) -> Found {
    match Store::open(alloc, disk) {
        Ok(store) => {
            let found = of_tip(store.chain().tip());
            let_go(Some(store));
            found
        }
        Err(fault) => Found::Not(fault),
    }
}

impl From<CommandRefusal> for Answer {
    fn from(refusal: CommandRefusal) -> Self {
        match refusal {
            CommandRefusal::Connect(refusal) => Answer::Refused(refusal),
            CommandRefusal::Disconnect(refusal) => Answer::RefusedBack(refusal),
        }
    }
}

impl From<SaveRefusal> for Answer {
    fn from(refusal: SaveRefusal) -> Self {
        Answer::RefusedSave(refusal)
    }
}

impl From<Tip> for Answer {
    fn from(tip: Tip) -> Self {
        Answer::Done(tip)
    }
}

impl From<u64> for Answer {
    fn from(number: u64) -> Self {
        Answer::Saved(number)
    }
}

/// The store that is handed back, if any, and the answer.
pub(super) fn answer_of<T: Into<Answer>, R: Into<Answer>>(
    outcome: Outcome<T, R>,
) -> (Option<Store>, Answer) {
    match outcome {
        Outcome::Done(store, told) => (Some(store), told.into()),
        Outcome::Refused(store, refusal) => (Some(store), refusal.into()),
        Outcome::NoMemory(store) => (Some(store), Answer::NoMemory),
        Outcome::Faulted => (None, Answer::Faulted),
    }
}

/// Connects the first block to a store that is on the disk.
fn connect_to<D: Disk, L: Ledger>(
    store: Store,
    alloc: Global,
    disk: &mut D,
    blank: Blank,
) -> (Option<Store>, Answer)
    requires on_disk { IsTrue D.tells → IsOn store (D.seen disk.old).moments.now }
    requires name { blank.name ≡ L.name }
    requires parts { blank.parts ≡ L.parts }
    requires some { 0 < blank.parts }
{
    let mut steps = Steps::<L>::new(blank);
    answer_of(store.execute(alloc, disk, ChainCommand::Connect(&FIRST_BLOCK), &mut steps))
}

/// Disconnects the block of this hash from a store that is on the disk.
fn disconnect_from<D: Disk, L: Ledger>(
    store: Store,
    alloc: Global,
    disk: &mut D,
    hash: Hash32,
    blank: Blank,
) -> (Option<Store>, Answer)
    requires on_disk { IsTrue D.tells → IsOn store (D.seen disk.old).moments.now }
    requires name { blank.name ≡ L.name }
    requires parts { blank.parts ≡ L.parts }
    requires some { 0 < blank.parts }
{
    let mut steps = Steps::<L>::new(blank);
    let command = ChainCommand::Disconnect(hash);
    answer_of(store.execute(alloc, disk, command, &mut steps))
}

/// Connects the first block to the store that the files of the disk are.
pub(super) fn connect<D: Disk>(alloc: Global, disk: &mut D) -> Answer {
    match Store::open(alloc, disk) {
        Ok(store) => {
            let (left, answer) = connect_to::<D, Brand>(store, alloc, disk, Blank::new(1));
            let_go(left);
            answer
        }
        Err(fault) => Answer::NotOpened(fault),
    }
}

/// Disconnects the block of this hash from the store that the files of the disk are.
pub(super) fn disconnect<D: Disk>(alloc: Global, disk: &mut D, hash: Hash32) -> Answer {
    match Store::open(alloc, disk) {
        Ok(store) => {
            let (left, answer) = disconnect_from::<D, Brand>(
                store,
                alloc,
                disk,
                hash,
                Blank::new(1),
            );
            let_go(left);
            answer
        }
        Err(fault) => Answer::NotOpened(fault),
    }
}

/// Makes the files of the base.
pub(super) fn make<D: Disk>(disk: &mut D) -> Answer {
    match made(disk, 0) {
        Some(Ok(())) => Answer::Done(BASE_TIP),
        Some(Err(fault)) => Answer::NotMade(fault),
        None => Answer::NoHost,
    }
}

/// Lives on the disk: how many of the three were done, and what the last one that was begun got.
pub(super) fn live<D: Disk>(alloc: Global, disk: &mut D) -> (u8, Answer) {
    let answer = make(disk);
    if answer != Answer::Done(BASE_TIP) {
        return (0, answer);
    }
    let answer = connect(alloc, disk);
    if answer != Answer::Done(FIRST_TIP) {
        return (1, answer);
    }
    let answer = disconnect(alloc, disk, Hash32(FIRST_HASH));
    if answer != Answer::Done(BASE_TIP) {
        return (2, answer);
    }
    (3, answer)
}

/// What a crash after so many of the calls leaves by this choice.
pub(super) fn found_in(
    alloc: Global,
    disk: &MemoryDisk,
    calls: usize,
    choice: Choice,
) -> Result<Found, NoMemory> {
    let mut image = disk.image(alloc, calls, choice)?;
    Ok(look_at(alloc, &mut image))
}

/// Whether that is one of two.
fn is_either(
    alloc: Global,
    disk: &MemoryDisk,
    calls: usize,
    choice: Choice,
    either: (Found, Found),
) -> Result<bool, NoMemory> {
    let found = found_in(alloc, disk, calls, choice)?;
    Ok(found == either.0 || found == either.1)
}

/// Whether it is so whatever byte is filled in: a closed gate, an open one, or a part of a length.
fn each_fill_is_either(
    alloc: Global,
    disk: &MemoryDisk,
    calls: usize,
    either: (Found, Found),
) -> Result<bool, NoMemory> {
    for byte in 0..=255 {
        if !is_either(alloc, disk, calls, Choice::Fill(byte), either)? {
            return Ok(false);
        }
    }
    Ok(true)
}

/// Whether it is so by each choice.
fn each_is_either(
    alloc: Global,
    disk: &MemoryDisk,
    calls: usize,
    either: (Found, Found),
) -> Result<bool, NoMemory> {
    let is_so = is_either(alloc, disk, calls, Choice::Old, either)?
        && is_either(alloc, disk, calls, Choice::New, either)?;
    Ok(is_so && each_fill_is_either(alloc, disk, calls, either)?)
}

/// What a crash after so many of the calls leaves is one of two by each choice.
pub(super) fn leaves_either(
    rt: &impl Abort,
    alloc: Global,
    disk: &MemoryDisk,
    calls: usize,
    either: (Found, Found),
) -> Result<(), Fail> {
    let is_so = each_is_either(alloc, disk, calls, either)?;
    assert!(rt; is_so, "after {calls} calls");
    Ok(())
}

/// The life on the disk ends so.
pub(super) fn lives(rt: &impl Abort, alloc: Global, disk: &mut MemoryDisk, end: (u8, Answer)) {
    let lived = live(alloc, disk);
    assert!(rt; lived == end, "{lived:?}");
}

/// The files of the disk are found to be this.
pub(super) fn finds(rt: &impl Abort, alloc: Global, disk: &mut MemoryDisk, want: Found) {
    let found = look_at(alloc, disk);
    assert!(rt; found == want, "{found:?}");
}

/// A command got this answer.
pub(super) fn gets(rt: &impl Abort, answer: Answer, want: Answer) {
    assert!(rt; answer == want, "{answer:?}");
}
