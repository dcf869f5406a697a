//! Saves in slices: the bridge beside a draft of its index.

ghost use Rattle.std.specs.Prelude.{◌≡◌, ◌≤◌, ◌-◌, length, min, IsTrue};
ghost use Rattle.name_store.specs.Drafting.{IsDraftOf};
ghost use Rattle.name_store.specs.Slicing.{BeginAnswer, IfRefused, LeavesBegun, HasNext, SliceAnswer, IfAtLimit, StandsBehind, LeavesSlice, KeepsSliced};
ghost use Rattle.name_store.specs.Stored.{IsOn};
ghost use Rattle.name_store.specs.declared.slice_steps.TheConstants.{LONGEST_SLICE};
ghost use Rattle.bridge_core.specs.Slicing.{draft_of, slice_of, KeepsDraftAnswers, KeepsSliceAnswers};

use crate::bridge::Bridge;
use disk_model::Disk;
use name_store::{DraftOutcome, SaveRefusal, SliceOutcome, SlicedDraft};

/// What came of the begin of a save in slices: a draft, or a refusal, both with the bridge as it was. A fault of the disk has ended it: then
/// open the files again.
#[derive(Drop)]
pub enum DraftTurned {
    Begun(Bridge, SlicedDraft),
    Refused(Bridge, SaveRefusal),
    Ended,
}

/// What came of a slice. A fault of the disk has ended the bridge: then open the files again.
#[derive(Drop)]
pub enum SliceTurned {
    /// There is more to write.
    Written(Bridge, SlicedDraft),
    /// All was written and selected. So many saves were selected since the files were made.
    Selected(Bridge, u64),
    /// The area would be longer than 2^42 bytes: the save was given up.
    AreaLimit(Bridge),
    Ended,
}

impl Bridge {
    /// How many saves were selected since the files were made.
    pub fn selections(&self) -> u32
        ensures { result ≡ self.now.store.slots.count }
    {
        self.store.selections()
    }

    /// Begins a save in slices, of an image of so many bytes: empties the area that isn't selected, and writes the image's length there.
    ///
    /// What the store says of it holds here, and the answers that are kept stay.
    pub fn begin_draft<D: Disk>(self, disk: &mut D, image: u64) -> DraftTurned
        requires on_disk { IsTrue D.tells → IsOn self.store (D.seen disk.old).moments.now }
        ensures answer { BeginAnswer self.store image (draft_of result) }
        ensures undone { IfRefused (disk.new ≡ disk.old) (draft_of result) }
        ensures leaves { LeavesBegun D.tells self.store (D.seen disk.old) (D.seen disk.new) (draft_of result) }
        ensures answers { KeepsDraftAnswers self.answers result }
    {
        let Bridge { store, desk } = self;
        match store.begin_draft(disk, image) {
            DraftOutcome::Begun(store, draft) => DraftTurned::Begun(Bridge { store, desk }, draft),
            DraftOutcome::Refused(store, refusal) => {
                DraftTurned::Refused(Bridge { store, desk }, refusal)
            }
            DraftOutcome::Faulted => DraftTurned::Ended,
        }
    }

    /// Writes the next slice of a save that was begun on this bridge: so many bytes of what is left, or all of it, and then selects its area.
    ///
    /// What the store says of it holds here, and the answers that are kept stay.
    pub fn slice<D: Disk>(
        self,
        disk: &mut D,
        draft: SlicedDraft,
        piece: &[u8],
        most: usize,
    ) -> SliceTurned
        requires on_disk { IsTrue D.tells → IsOn self.store (D.seen disk.old).moments.now }
        requires is_draft { IsDraftOf self.store draft }
        requires some { 1 ≤ most }
        requires few { most ≤ LONGEST_SLICE }
        requires piece { length piece.now ≡ min most (draft.draft.image - draft.draft.written) }
        requires next { IsTrue D.tells → HasNext self.store draft piece.now (D.seen disk.old).moments.now }
        ensures answer { SliceAnswer self.store draft most (slice_of result) }
        ensures undone { IfAtLimit (disk.new ≡ disk.old) (slice_of result) }
        ensures leaves { LeavesSlice D.tells self.store draft piece.now (D.seen disk.old) (D.seen disk.new) (slice_of result) }
        ensures stands { StandsBehind self.store draft (slice_of result) }
        ensures kept { IsTrue D.tells → KeepsSliced self.store draft piece.now most (D.seen disk.old) (D.seen disk.new) (slice_of result) }
        ensures answers { KeepsSliceAnswers self.answers result }
    {
        let Bridge { store, desk } = self;
        match store.slice(disk, draft, piece, most) {
            SliceOutcome::Written(store, draft) => {
                SliceTurned::Written(Bridge { store, desk }, draft)
            }
            SliceOutcome::Selected(store, number) => {
                SliceTurned::Selected(Bridge { store, desk }, number)
            }
            SliceOutcome::AreaLimit(store) => SliceTurned::AreaLimit(Bridge { store, desk }),
            SliceOutcome::Faulted => SliceTurned::Ended,
        }
    }
}
