//! Making an area with an image, where no selection counts yet.
ghost use Rattle.std.specs.Prelude.{◌≡◌, ◌<◌, ◌≤◌, length, IsTrue, OnOk};
ghost use Rattle.disk_model.specs.Moments.{EachMoment};
ghost use Rattle.disk_model.specs.Changes.{LeavesOthers};
ghost use Rattle.disk_model.specs.DiskSeen.{Ends, file_in};
ghost use Rattle.image_slots.specs.Slotted.{farthest};
ghost use Rattle.image_files.specs.Saving.{HasImage};

use crate::drafting::write_draft;
use disk_model::{Disk, Failed};
use image_slots::begin_draft;
use image_writer::ImageText;

/// Makes the area in this file: writes the image of this text, which has so many bytes, and a closed gate behind it, and syncs the file.
/// What the file had before is lost.
///
/// No other file changes at any moment. It takes no memory.
pub fn make_image<'a, D: Disk>(
    disk: &mut D,
    file: u8,
    text: ImageText<'a>,
    size: u64,
) -> Result<(), Failed>
    requires file { file < 3 }
    requires short { size ≤ farthest }
    requires whole { size ≡ length text }
    ensures made { IsTrue D.tells → OnOk result (HasImage text.entry (file_in (D.seen disk.new) file)) }
    ensures others { IsTrue D.tells → EachMoment (LeavesOthers file (D.seen disk.old).moments.now) (D.seen disk.old).moments (D.seen disk.new).moments }
    ensures ends { Ends (D.seen disk.old) (D.seen disk.new) result }
{
    let draft = begin_draft(disk, file, size)?;
    write_draft(disk, draft, text)?;
    Ok(())
}
