//! The beginning of a save in slices: its draft beside the store.

ghost use Rattle.std.specs.Prelude.{◌≡◌, IsTrue};
ghost use Rattle.name_store.specs.Slicing.{BeginAnswer, IfRefused, LeavesBegun};
ghost use Rattle.name_store.specs.Stored.{IsOn};

use crate::saving::SaveRefusal;
use crate::store::Store;
use disk_model::Disk;
use image_slots::{Draft, DraftFault};
use std::marker::Model;

/// A save in slices that runs: the draft of its image and of the records behind it, and the length of the selected area in bytes when it
/// was begun. Dropped, it gives the save up.
#[derive(Drop)]
pub struct SlicedDraft {
    pub(crate) draft: Draft,
    pub(crate) from: u64,
}

impl Model for SlicedDraft {
    ghost use Rattle.name_store.specs.Drafting.{Drafting};

    ghost Value = { Drafting };

    ghost view = { λ d. record { draft = d.draft; from = d.from } };
}

/// What came of beginning a save in slices. A store that is handed back is as it was. A fault of the disk hands none back: open the
/// files again.
#[derive(Drop)]
pub enum DraftOutcome {
    Begun(Store, SlicedDraft),
    Refused(Store, SaveRefusal),
    Faulted,
}

impl Store {
    /// How many saves were selected since the files were made.
    pub fn selections(&self) -> u32
        ensures { result ≡ self.now.slots.count }
    {
        self.slots.count()
    }

    /// Begins a save in slices, of an image of so many bytes: empties the area that isn't selected, and writes the image's length there.
    ///
    /// `CheckpointLimit` comes first, then `ImageLimit`; then the disk wasn't asked. No other file changes at any moment, so whatever a
    /// crash leaves stands for the run state still. It takes no memory.
    pub fn begin_draft<D: Disk>(self, disk: &mut D, image: u64) -> DraftOutcome
        requires on_disk { IsTrue D.tells → IsOn self (D.seen disk.old).moments.now }
        ensures answer { BeginAnswer self image result }
        ensures undone { IfRefused (disk.new ≡ disk.old) result }
        ensures leaves { LeavesBegun D.tells self (D.seen disk.old) (D.seen disk.new) result }
    {
        let mut store = self;
        match store.slots.begin(disk, image) {
            Ok(draft) => {
                let from = store.area;
                DraftOutcome::Begun(store, SlicedDraft { draft, from })
            }
            Err(DraftFault::CheckpointLimit) => {
                DraftOutcome::Refused(store, SaveRefusal::CheckpointLimit)
            }
            Err(DraftFault::ImageLimit) => DraftOutcome::Refused(store, SaveRefusal::ImageLimit),
            Err(DraftFault::DiskFault) => {
                store.let_go();
                DraftOutcome::Faulted
            }
        }
    }
}
