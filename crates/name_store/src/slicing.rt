//! A slice of a save: so many bytes more are written, and behind the last one the area is selected.

ghost use Rattle.std.specs.Prelude.{◌≡◌, ◌<◌, ◌≤◌, ◌-◌, length, min, IsTrue};
ghost use Rattle.chain_commands.specs.RunState.{longest_area};
ghost use Rattle.name_store.specs.Drafting.{IsDraftOf, left_of, length_with};
ghost use Rattle.name_store.specs.Slicing.{HasNext, SliceAnswer, SliceAnswerWithin, IfAtLimit, StandsBehind, LeavesSlice, KeepsSliced};
ghost use Rattle.name_store.specs.Stored.{IsOn};
ghost use Rattle.name_store.specs.declared.slice_steps.TheConstants.{LONGEST_SLICE};

use crate::drafting::SlicedDraft;
use crate::limits::EMPTY_AREA;
use crate::slice_steps::{write_last, write_next};
use crate::store::Store;
use disk_model::Disk;
use index_commands::LONGEST_AREA;

/// What came of a slice. A store that is handed back with `Written` or `AreaLimit` is as it was. A fault of the disk hands none back: open
/// the files again.
#[derive(Drop)]
pub enum SliceOutcome {
    /// There is more to write.
    Written(Store, SlicedDraft),

    /// All was written and selected. So many saves were selected since the files were made.
    Selected(Store, u64),

    /// The area would be longer than 2^42 bytes: the save was given up.
    AreaLimit(Store),
    Faulted,
}

impl Store {
    /// The slice that writes so many bytes, fewer than are left.
    fn write_slice<D: Disk>(
        self,
        disk: &mut D,
        draft: SlicedDraft,
        piece: &[u8],
        most: usize,
    ) -> SliceOutcome
        requires on_disk { IsTrue D.tells → IsOn self (D.seen disk.old).moments.now }
        requires is_draft { IsDraftOf self draft }
        requires some { 1 ≤ most }
        requires few { most ≤ LONGEST_SLICE }
        requires more { most < left_of self draft }
        requires piece { length piece.now ≡ min most (draft.draft.image - draft.draft.written) }
        requires next { IsTrue D.tells → HasNext self draft piece.now (D.seen disk.old).moments.now }
        ensures answer { SliceAnswer self draft most result }
        ensures undone { IfAtLimit (disk.new ≡ disk.old) result }
        ensures leaves { LeavesSlice D.tells self draft piece.now (D.seen disk.old) (D.seen disk.new) result }
        ensures stands { StandsBehind self draft result }
        ensures kept { IsTrue D.tells → KeepsSliced self draft piece.now most (D.seen disk.old) (D.seen disk.new) result }
    {
        let SlicedDraft { mut draft, from } = draft;
        match write_next(disk, &mut draft, from, self.slots.selected(), piece, most) {
            Ok(()) => SliceOutcome::Written(self, SlicedDraft { draft, from }),
            Err(_) => {
                self.let_go();
                SliceOutcome::Faulted
            }
        }
    }

    /// The slice that ends the save: it writes all that is left, so many bytes, and selects the area.
    fn end_slices<D: Disk>(
        self,
        disk: &mut D,
        draft: SlicedDraft,
        piece: &[u8],
        count: usize,
        most: usize,
    ) -> SliceOutcome
        requires on_disk { IsTrue D.tells → IsOn self (D.seen disk.old).moments.now }
        requires is_draft { IsDraftOf self draft }
        requires few { most ≤ LONGEST_SLICE }
        requires all { count ≡ left_of self draft }
        requires last { count ≤ most }
        requires within { length_with self draft ≤ longest_area }
        requires piece { length piece.now ≡ min most (draft.draft.image - draft.draft.written) }
        requires next { IsTrue D.tells → HasNext self draft piece.now (D.seen disk.old).moments.now }
        ensures answer { SliceAnswer self draft most result }
        ensures undone { IfAtLimit (disk.new ≡ disk.old) result }
        ensures leaves { LeavesSlice D.tells self draft piece.now (D.seen disk.old) (D.seen disk.new) result }
        ensures stands { StandsBehind self draft result }
        ensures kept { IsTrue D.tells → KeepsSliced self draft piece.now most (D.seen disk.old) (D.seen disk.new) result }
    {
        let Store {
            chain,
            host,
            mut slots,
            area,
        } = self;
        let SlicedDraft { draft, from } = draft;
        let whole = draft.image() + (area - from);
        match write_last(disk, &mut slots, draft, from, piece, count) {
            Ok(number) => {
                let store = Store::of(chain, host, slots, EMPTY_AREA + whole);
                SliceOutcome::Selected(store, u64::from(number))
            }
            Err(_) => {
                Store::of(chain, host, slots, area).let_go();
                SliceOutcome::Faulted
            }
        }
    }

    /// Writes the next slice of a save that was begun on this store: so many bytes of what is left, or all of it. What is left is the rest of
    /// the image, of which the piece is the next, and then the records of the commands that were accepted since, as the selected area has them.
    ///
    /// Exactly where no more than so many bytes are left, the slice ends the save. Then it writes them and selects the area, so that from
    /// then on the files need none of the blocks that were connected before the beginning; or, where the area with the records since would be
    /// longer than 2^42 bytes, it gives the save up and the disk isn't asked. It takes no memory.
    ///
    /// A crash at any moment of a slice that ends the save leaves files that stand for the run state before or after, of another slice for
    /// the one before. The selected area stays as it was.
    pub fn slice<D: Disk>(
        self,
        disk: &mut D,
        draft: SlicedDraft,
        piece: &[u8],
        most: usize,
    ) -> SliceOutcome
        requires on_disk { IsTrue D.tells → IsOn self (D.seen disk.old).moments.now }
        requires is_draft { IsDraftOf self draft }
        requires some { 1 ≤ most }
        requires few { most ≤ LONGEST_SLICE }
        requires piece { length piece.now ≡ min most (draft.draft.image - draft.draft.written) }
        requires next { IsTrue D.tells → HasNext self draft piece.now (D.seen disk.old).moments.now }
        ensures answer { SliceAnswer self draft most result }
        ensures undone { IfAtLimit (disk.new ≡ disk.old) result }
        ensures leaves { LeavesSlice D.tells self draft piece.now (D.seen disk.old) (D.seen disk.new) result }
        ensures stands { StandsBehind self draft result }
        ensures kept { IsTrue D.tells → KeepsSliced self draft piece.now most (D.seen disk.old) (D.seen disk.new) result }
    {
        self.slice_within(disk, draft, piece, most, LONGEST_AREA)
    }

    /// The same, where an area has no more bytes than `longest`.
    pub fn slice_within<D: Disk>(
        self,
        disk: &mut D,
        draft: SlicedDraft,
        piece: &[u8],
        most: usize,
        longest: u64,
    ) -> SliceOutcome
        requires on_disk { IsTrue D.tells → IsOn self (D.seen disk.old).moments.now }
        requires is_draft { IsDraftOf self draft }
        requires some { 1 ≤ most }
        requires few { most ≤ LONGEST_SLICE }
        requires longest { longest ≤ longest_area }
        requires piece { length piece.now ≡ min most (draft.draft.image - draft.draft.written) }
        requires next { IsTrue D.tells → HasNext self draft piece.now (D.seen disk.old).moments.now }
        ensures answer { SliceAnswerWithin longest self draft most result }
        ensures undone { IfAtLimit (disk.new ≡ disk.old) result }
        ensures leaves { LeavesSlice D.tells self draft piece.now (D.seen disk.old) (D.seen disk.new) result }
        ensures stands { StandsBehind self draft result }
        ensures kept { IsTrue D.tells → KeepsSliced self draft piece.now most (D.seen disk.old) (D.seen disk.new) result }
    {
        let whole = draft.draft.image() + (self.area - draft.from);
        let left = whole - draft.draft.written();
        if (most as u64) < left {
            return self.write_slice(disk, draft, piece, most);
        }
        let area = EMPTY_AREA + whole;
        if area > longest {
            return SliceOutcome::AreaLimit(self);
        }
        self.end_slices(disk, draft, piece, left as usize, most)
    }
}
