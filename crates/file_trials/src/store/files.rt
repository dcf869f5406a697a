//! The bytes of the files, and what commands get that are refused.

ghost use Rattle.std.specs.Prelude.{◌<◌};

use super::first_block::{FIRST_BLOCK, FIRST_HASH};
use super::life::{
    Answer, BASE_TIP, FIRST_TIP, Found, connect, disconnect, finds, gets, let_go, make,
};
use super::making::{HEADER, made};
use chain_state::{BackRefusal, Refusal};
use disk_model::{Disk, Failed};
use memory_disk::MemoryDisk;
use name_store::{CreateFault, OpenFault, Store};
use nmc_base::{Bytes, HIGHEST_HEIGHT, Hash32, NoMemory};
use std::alloc::Global;
use std::process::Abort;
use std::test::Fail;

/// Whether the file has these bytes, and no more.
pub(super) fn has<D: Disk>(disk: &mut D, file: u8, bytes: &[u8]) -> Result<bool, Failed>
    requires { file < 3 }
{
    let mut found = [0; 400];
    let count = disk.read(file, 0, &mut found)?;
    Ok(&found[..count] == bytes)
}

/// Whether the files are those of the base with this area.
fn has_files<D: Disk>(disk: &mut D, area: &[u8]) -> Result<bool, Failed> {
    Ok(has(disk, 0, &HEADER)? && has(disk, 1, area)? && has(disk, 2, &[])?)
}

/// The three files are those of the base with this area.
pub(super) fn holds(rt: &impl Abort, disk: &mut MemoryDisk, area: &[u8]) -> Result<(), Fail> {
    let is_so = has_files(disk, area)?;
    assert!(rt; is_so);
    Ok(())
}

/// The area of the first block: no image; an open gate, the length 286, the head 1 and the block; and the last byte, a gate.
pub(super) fn first_area(alloc: Global, last: u8) -> Result<Bytes, NoMemory> {
    let mut area = Bytes::copy_of(alloc, &[0, 0, 0, 0, 0, 0, 0, 0, 1, 0x1e, 1, 0, 0, 1])?;
    area.extend(&FIRST_BLOCK)?;
    area.extend(&[last])?;
    Ok(area)
}

/// The same with the disconnect behind it: the length 33, the head 2 and the hash.
fn area_there_and_back(alloc: Global) -> Result<Bytes, NoMemory> {
    let mut area = first_area(alloc, 1)?;
    area.extend(&[33, 0, 0, 0, 2])?;
    area.extend(&FIRST_HASH)?;
    area.extend(&[0])?;
    Ok(area)
}

fn holds_first(rt: &impl Abort, alloc: Global, disk: &mut MemoryDisk) -> Result<(), Fail> {
    let area = first_area(alloc, 0)?;
    holds(rt, disk, area.as_slice())
}

fn holds_both(rt: &impl Abort, alloc: Global, disk: &mut MemoryDisk) -> Result<(), Fail> {
    let area = area_there_and_back(alloc)?;
    holds(rt, disk, area.as_slice())
}

fn commands(rt: &impl Abort, alloc: Global, disk: &mut MemoryDisk) -> Result<(), Fail> {
    gets(rt, make(disk), Answer::Done(BASE_TIP));
    gets(rt, connect(alloc, disk), Answer::Done(FIRST_TIP));
    holds_first(rt, alloc, disk)?;
    gets(
        rt,
        disconnect(alloc, disk, Hash32(FIRST_HASH)),
        Answer::Done(BASE_TIP),
    );
    holds_both(rt, alloc, disk)
}

#[test]
fn each_command_has_its_record(rt: HostRuntime) -> Result<(), Fail> {
    let mut disk = MemoryDisk::new(rt.alloc(), &[])?;
    commands(&rt, rt.alloc(), &mut disk)
}

/// A block that doesn't follow the first, a hash that isn't the tip's, and a disconnect of the base, leave the files.
fn refusals(rt: &impl Abort, alloc: Global, disk: &mut MemoryDisk) -> Result<(), Fail> {
    let tip = Hash32(FIRST_HASH);
    gets(rt, make(disk), Answer::Done(BASE_TIP));
    gets(
        rt,
        disconnect(alloc, disk, tip),
        Answer::RefusedBack(BackRefusal::AtBase),
    );
    holds(rt, disk, &[0; 9])?;
    gets(rt, connect(alloc, disk), Answer::Done(FIRST_TIP));
    gets(
        rt,
        connect(alloc, disk),
        Answer::Refused(Refusal::NotOnTip { tip }),
    );
    let other = disconnect(alloc, disk, Hash32([0; 32]));
    gets(rt, other, Answer::RefusedBack(BackRefusal::NotTip { tip }));
    holds_first(rt, alloc, disk)
}

#[test]
fn refused_commands_leave_the_files(rt: HostRuntime) -> Result<(), Fail> {
    let mut disk = MemoryDisk::new(rt.alloc(), &[])?;
    refusals(&rt, rt.alloc(), &mut disk)
}

/// The greatest height takes no block.
fn highest(rt: &impl Abort, alloc: Global, disk: &mut MemoryDisk) -> Result<(), Fail> {
    let is_made = made(disk, HIGHEST_HEIGHT) == Some(Ok(()));
    assert!(rt; is_made);
    gets(
        rt,
        connect(alloc, disk),
        Answer::Refused(Refusal::HeightLimit),
    );
    finds(rt, alloc, disk, Found::Other(2_000_000_000));
    Ok(())
}

#[test]
fn the_highest_base_takes_no_block(rt: HostRuntime) -> Result<(), Fail> {
    let mut disk = MemoryDisk::new(rt.alloc(), &[])?;
    highest(&rt, rt.alloc(), &mut disk)
}

fn write_both(disk: &mut MemoryDisk, header: &[u8], area: &[u8]) -> Result<(), Failed> {
    disk.write_at(0, 0, header)?;
    disk.write_at(1, 0, area)
}

/// A disk with these two files.
pub(super) fn disk_of(alloc: Global, header: &[u8], area: &[u8]) -> Result<MemoryDisk, Fail> {
    let mut disk = MemoryDisk::new(alloc, &[])?;
    write_both(&mut disk, header, area)?;
    Ok(disk)
}

/// The wire form of the host that the files of the disk tell, or why they aren't opened.
fn is_host<D: Disk>(alloc: Global, disk: &mut D, wire: &[u8]) -> Result<bool, OpenFault> {
    match Store::open(alloc, disk) {
        Ok(store) => {
            let is_so = store.host().wire() == wire;
            let_go(Some(store));
            Ok(is_so)
        }
        Err(fault) => Err(fault),
    }
}

fn tells_host(rt: &impl Abort, alloc: Global, disk: &mut MemoryDisk) {
    let is_told = is_host(alloc, disk, b"\x02ns\x07example\x00");
    assert!(rt; is_told == Ok(true), "{is_told:?}");
}

/// A disk with the files of the first block, and this last byte.
fn disk_of_first(alloc: Global, last: u8) -> Result<MemoryDisk, Fail> {
    let area = first_area(alloc, last)?;
    disk_of(alloc, &HEADER, area.as_slice())
}

#[test]
fn files_are_opened(rt: HostRuntime) -> Result<(), Fail> {
    let mut disk = disk_of_first(rt.alloc(), 0)?;
    finds(&rt, rt.alloc(), &mut disk, Found::First);
    tells_host(&rt, rt.alloc(), &mut disk);
    Ok(())
}

#[test]
fn an_open_gate_at_the_end_is_damage(rt: HostRuntime) -> Result<(), Fail> {
    let mut disk = disk_of_first(rt.alloc(), 1)?;
    let damaged = OpenFault::Damaged { file: 1, at: 299 };
    finds(&rt, rt.alloc(), &mut disk, Found::Not(damaged));
    Ok(())
}
