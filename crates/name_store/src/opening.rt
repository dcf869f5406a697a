//! Opens the files: the index that they hold.

ghost use Rattle.std.specs.Prelude.{◌≡◌, ◌<◌, ◌≤◌, ℕ, IsTrue, IfOk, OnOk};
ghost use Rattle.disk_model.specs.FileState.{IsSettled};
ghost use Rattle.disk_model.specs.Moments.{EachMoment};
ghost use Rattle.disk_model.specs.Changes.{Unchanged, KeepsSettled};
ghost use Rattle.disk_model.specs.DiskSeen.{Ends, EndsWith, bytes_in, file_in};
ghost use Rattle.nmc_base.specs.Heights.{highest};
ghost use Rattle.chain_commands.specs.RunState.{longest_area};
ghost use Rattle.name_store.specs.Opening.{AreaAnswer, OpenAnswer, IsSynced};
ghost use Rattle.name_store.specs.declared.limits.TheConstants.{EMPTY_AREA};

use crate::faults::OpenFault;
use crate::header::read_header;
use crate::limits::SLOT_LIMITS;
use crate::store::Store;
use disk_model::{Disk, Failed};
use image_files::read_image;
use image_slots::Slots;
use index_commands::{Followed, LONGEST_AREA, follow_commands};
use nmc_base::Base;
use std::alloc::Global;

/// Syncs the three files.
fn sync_all<D: Disk>(disk: &mut D) -> Result<(), Failed>
    ensures synced { IsTrue D.tells → OnOk result (IsSynced (D.seen disk.old) (D.seen disk.new)) }
    ensures time { IsTrue D.tells → EachMoment (KeepsSettled (D.seen disk.old).moments.now) (D.seen disk.old).moments (D.seen disk.new).moments }
    ensures reads { (D.seen disk.new).changes ≡ (D.seen disk.old).changes }
    ensures ends { Ends (D.seen disk.old) (D.seen disk.new) result }
{
    disk.sync(0)?;
    disk.sync(1)?;
    disk.sync(2)?;
    Ok(())
}

/// The index behind all commands of the selected area, and the length of the area.
fn read_area<D: Disk>(
    alloc: Global,
    disk: &mut D,
    file: u8,
    base: Base,
) -> Result<Followed, OpenFault>
    requires file { file < 3 }
    requires low { base.height ≤ highest }
    requires settled { IsTrue D.tells → IsSettled (file_in (D.seen disk.old) file) }
    ensures answer { IsTrue D.tells → AreaAnswer D.tells base file (bytes_in (D.seen disk.old) file) result }
    ensures length { IfOk result (λ followed. (EMPTY_AREA ≤ followed.length) × (followed.length ≤ longest_area)) }
    ensures time { IsTrue D.tells → EachMoment (Unchanged (D.seen disk.old).moments.now) (D.seen disk.old).moments (D.seen disk.new).moments }
    ensures reads { (D.seen disk.new).changes ≡ (D.seen disk.old).changes }
    ensures ends { EndsWith OpenFault.DiskFault (D.seen disk.old) (D.seen disk.new) result }
{
    let (index, gate) = match read_image(alloc, disk, file, &base) {
        Ok(begun) => begun,
        Err(fault) => return Err(OpenFault::of_image(file, fault)),
    };
    match follow_commands(alloc, disk, file, gate, index, LONGEST_AREA) {
        Ok(followed) => Ok(followed),
        Err(fault) => Err(OpenFault::of_journal(file, fault)),
    }
}

impl Store {
    /// The store of the files, which were synced: the header, its selections, and what the selected area holds.
    fn read<D: Disk>(alloc: Global, disk: &mut D) -> Result<Store, OpenFault>
        requires settled { IsTrue D.tells → (file : ℕ) → file < 3 → IsSettled (file_in (D.seen disk.old) file) }
        ensures answer { IsTrue D.tells → OpenAnswer (bytes_in (D.seen disk.old)) (D.seen disk.new).moments.now result }
        ensures time { IsTrue D.tells → EachMoment (Unchanged (D.seen disk.old).moments.now) (D.seen disk.old).moments (D.seen disk.new).moments }
        ensures reads { (D.seen disk.new).changes ≡ (D.seen disk.old).changes }
        ensures ends { EndsWith OpenFault.DiskFault (D.seen disk.old) (D.seen disk.new) result }
    {
        let header = match read_header(disk) {
            Ok(header) => header,
            Err(fault) => return Err(fault),
        };
        let slots = match Slots::open(alloc, disk, header.selections, SLOT_LIMITS) {
            Ok(slots) => slots,
            Err(fault) => return Err(OpenFault::of_slots(fault)),
        };
        match read_area(alloc, disk, slots.selected(), header.base) {
            Ok(followed) => Ok(Store::of(followed.index, header.host, slots, followed.length)),
            Err(fault) => Err(fault),
        }
    }

    /// Opens the files: syncs them, reads the image of the selected area, and follows the commands behind it. Without a selection, and
    /// where the image is empty, they begin at the base.
    ///
    /// It asks for no write and no cut, and what was settled is settled at each moment. At Ok each of the three files is settled,
    /// and reads give what they gave. Memory is taken for the index, for one record or value at a time, and for a buffer.
    pub fn open<D: Disk>(alloc: Global, disk: &mut D) -> Result<Store, OpenFault>
        ensures answer { IsTrue D.tells → OpenAnswer (bytes_in (D.seen disk.old)) (D.seen disk.new).moments.now result }
        ensures synced { IsTrue D.tells → OnOk result (IsSynced (D.seen disk.old) (D.seen disk.new)) }
        ensures time { IsTrue D.tells → EachMoment (KeepsSettled (D.seen disk.old).moments.now) (D.seen disk.old).moments (D.seen disk.new).moments }
        ensures reads { (D.seen disk.new).changes ≡ (D.seen disk.old).changes }
        ensures ends { EndsWith OpenFault.DiskFault (D.seen disk.old) (D.seen disk.new) result }
    {
        match sync_all(disk) {
            Ok(()) => Store::read(alloc, disk),
            Err(fault) => Err(OpenFault::from(fault)),
        }
    }
}
