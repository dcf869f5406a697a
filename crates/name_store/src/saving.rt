//! A whole save: the image of the index is written and selected.

ghost use Rattle.std.specs.Prelude.{◌≡◌, IsTrue};
ghost use Rattle.chain_commands.specs.Saving.{IsSaved};
ghost use Rattle.name_store.specs.Outcomes.{IfUndone, LeavesDisk, KeepsOn};
ghost use Rattle.name_store.specs.Saves.{Saves, SavesOn, SparesSelected};
ghost use Rattle.name_store.specs.Stored.{IsOn};

use crate::store::{Outcome, Store};
use disk_model::Disk;
use image_files::{SaveFault, save_index};
use std::alloc::Global;

/// Why an index is not saved.
#[derive(Clone, Copy, Debug, PartialEq, Eq)]
pub enum SaveRefusal {
    /// 2^32 - 1 saves were selected already.
    CheckpointLimit,

    /// The image of the index is longer than 2^37 bytes.
    ImageLimit,
}

impl Store {
    /// Saves the index: writes its image to the area that isn't selected, syncs that and selects it. From then on the files need none
    /// of the blocks that were connected so far. Says how many saves were selected since the files were made.
    ///
    /// `CheckpointLimit` comes first, then want of memory, then `ImageLimit`; then the disk wasn't asked. Memory is taken for the order of
    /// coins and names, 16 bytes for each, and given back. A crash at any moment leaves files that stand for the run state before or after.
    /// The area that was selected before stays as it was.
    pub fn save<D: Disk>(self, alloc: Global, disk: &mut D) -> Outcome<u64, SaveRefusal>
        requires on_disk { IsTrue D.tells → IsOn self (D.seen disk.old).moments.now }
        ensures saves { Saves self result }
        ensures on_index { SavesOn self result }
        ensures undone { IfUndone (disk.new ≡ disk.old) result }
        ensures leaves { LeavesDisk D.tells (SparesSelected self) (D.seen disk.old) (D.seen disk.new) result }
        ensures kept { KeepsOn D.tells self IsSaved (D.seen disk.old) (D.seen disk.new) result }
    {
        let Store {
            chain,
            host,
            mut slots,
            area,
        } = self;
        match save_index(alloc, disk, &mut slots, &chain) {
            Ok(saved) => {
                let store = Store::of(chain, host, slots, 9 + saved.image);
                Outcome::Done(store, u64::from(saved.number))
            }
            Err(SaveFault::CheckpointLimit) => {
                let store = Store::of(chain, host, slots, area);
                Outcome::Refused(store, SaveRefusal::CheckpointLimit)
            }
            Err(SaveFault::ImageLimit) => {
                let store = Store::of(chain, host, slots, area);
                Outcome::Refused(store, SaveRefusal::ImageLimit)
            }
            Err(SaveFault::NoMemory) => Outcome::NoMemory(Store::of(chain, host, slots, area)),
            Err(SaveFault::DiskFault) => {
                Store::of(chain, host, slots, area).let_go();
                Outcome::Faulted
            }
        }
    }
}
