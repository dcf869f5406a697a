//! A save in slices: what runs of it, and its next slice.

ghost use Rattle.std.specs.Prelude.{◌≡◌};
ghost use Rattle.name_lister.specs.Saver as savers;

use name_store::{LONGEST_SLICE, SlicedDraft};
use sliced_save::Slices;

/// A save in slices that runs: the draft of its image, and the text that is still to be given out into it.
#[derive(Drop)]
pub(crate) struct Saving {
    pub(crate) draft: SlicedDraft,
    pub(crate) slices: Slices,
}

/// How many bytes a slice has that was asked for with this number.
pub(crate) fn slice_size(asked: u32) -> usize
    ensures { result ≡ savers.slice_size asked }
{
    (asked as usize).max(1).min(LONGEST_SLICE)
}
