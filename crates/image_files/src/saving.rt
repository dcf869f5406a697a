//! A save of an index: its image is drafted and selected.
ghost use Rattle.std.specs.Prelude.{◌≡◌, ℕ, ◌-◌, ◌^◌, List, length, min, IsTrue, IfOk, IsErrOf};
ghost use Rattle.disk_model.specs.DiskSeen.{file_in};
ghost use Rattle.image_slots.specs.Selections.{selections_file};
ghost use Rattle.image_slots.specs.Slotted.{AreOn};
ghost use Rattle.image_files.specs.SavingIndex.{IsTextOfIndex, TextAnswer, SavesIndex};

use crate::saved::{SaveFault, Saved};
use crate::writing::write_image;
use chain_state::Chain;
use disk_model::{Disk, Failed};
use image_slots::Slots;
use image_writer::{ImageText, image_len, image_text};
use nmc_base::NoMemory;
use std::alloc::Global;

/// The text of the index.
fn index_text<'a>(alloc: Global, index: &'a Chain) -> Result<ImageText<'a>, NoMemory>
    ensures { IfOk result (λ text. IsTextOfIndex index.now text) }
{
    image_text(alloc, index.base(), index.parts())
}

/// The length of the text of the index, or 2^64 - 1 where it is greater.
fn index_len(index: &Chain) -> u64
    ensures { (text : List ℕ) → IsTextOfIndex index.now text → result ≡ min (length text) (2 ^ 64 - 1) }
{
    image_len(index.base(), index.parts())
}

/// The text of the index and its length, where there is room for such an image.
fn text_to_save<'a>(
    alloc: Global,
    slots: &Slots,
    index: &'a Chain,
) -> Result<(ImageText<'a>, u64), SaveFault>
    ensures { TextAnswer index.now slots.now result }
{
    let limits = slots.limits();
    if slots.count() >= limits.selections {
        return Err(SaveFault::CheckpointLimit);
    }
    let text = index_text(alloc, index)?;
    let image = index_len(index);
    if image > limits.image {
        return Err(SaveFault::ImageLimit);
    }
    Ok((text, image))
}

/// Saves an index: writes its image to the area that is not selected, syncs that and selects it.
///
/// A crash at any moment leaves the old selection and its area, or the new one with the whole image in its area. Memory is taken for
/// the order of coins and names, 16 bytes for each, before the disk is asked. After a fault of the disk, give up the slots and open
/// the files again; the other errors leave them as they were.
pub fn save_index<D: Disk>(
    alloc: Global,
    disk: &mut D,
    slots: &mut Slots,
    index: &Chain,
) -> Result<Saved, SaveFault>
    requires on_disk { IsTrue D.tells → (front : List ℕ) × AreOn front slots.old (file_in (D.seen disk.old) selections_file) }
    ensures saves { SavesIndex D.tells index.now slots.old slots.new (D.seen disk.old) (D.seen disk.new) result }
    ensures at_limit { IsErrOf result SaveFault.CheckpointLimit → disk.new ≡ disk.old }
    ensures too_long { IsErrOf result SaveFault.ImageLimit → disk.new ≡ disk.old }
    ensures no_memory { IsErrOf result SaveFault.NoMemory → disk.new ≡ disk.old }
{
    let (text, image) = text_to_save(alloc, slots, index)?;
    match write_image(disk, slots, text, image) {
        Ok(number) => Ok(Saved { number, image }),
        Err(Failed) => Err(SaveFault::DiskFault),
    }
}
