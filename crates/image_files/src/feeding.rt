//! Feeding the image of an area to a loader, piece by piece.
ghost use Rattle.std.specs.Prelude.{◌≡◌, ◌+◌, ◌<◌, ◌≤◌, ◌^◌, List, ℕ, [], ◌++◌, length, IsTrue, IsFalse};
ghost use Rattle.disk_model.specs.DiskSeen.{bytes_in};
ghost use Rattle.state_image.specs.Loading.{HasRead};
ghost use Rattle.image_files.specs.Reading.{HasFed, Feeds, FeedsPiece, FeedsImage};

use crate::fault::{LENGTH_SIZE, ReadFault};
use disk_model::Disk;
use state_image::Loader;

/// So many bytes are read at once.
const PIECE: usize = 65536;

/// Feeds a piece of an image.
fn feed(loader: &mut Loader, bytes: &[u8]) -> Result<(), ReadFault>
    requires room { loader.old.fed + length bytes.now ≤ loader.old.total }
    requires few { loader.old.total ≤ 2 ^ 37 }
    requires read { (text : List ℕ) × HasRead text loader.old }
    ensures feeds { (text : List ℕ) → HasRead text loader.old → Feeds (text ++ bytes.now) loader.new result }
    ensures fed { loader.new.fed ≡ loader.old.fed + length bytes.now }
    ensures total { loader.new.total ≡ loader.old.total }
{
    match loader.piece(bytes) {
        Ok(()) => Ok(()),
        Err(fault) => Err(ReadFault::of_image(fault)),
    }
}

/// Feeds the next piece of the image, of which so many bytes were fed and so many are left, by way of the buffer. Says how many bytes
/// it had.
fn feed_piece<D: Disk>(
    disk: &mut D,
    file: u8,
    loader: &mut Loader,
    buffer: &mut [u8],
    fed: u64,
    left: u64,
) -> Result<u64, ReadFault>
    requires file { file < 3 }
    requires room { 0 < length buffer.old }
    requires fed { loader.old.fed ≡ fed }
    requires left { 0 < left }
    requires total { fed + left ≡ loader.old.total }
    requires few { loader.old.total ≤ 2 ^ 37 }
    requires inside { IsTrue D.tells → 9 + (fed + left) ≤ length (bytes_in (D.seen disk.old) file) }
    requires has_fed { HasFed D.tells (bytes_in (D.seen disk.old) file) loader.old }
    ensures { FeedsPiece D.tells file left loader.old loader.new (D.seen disk.old) (D.seen disk.new) result }
{
    let read = disk.read(file, LENGTH_SIZE + fed, buffer)?;
    let count = left.min(read as u64);
    // The file was longer when its length was asked for.
    if count == 0 {
        return Err(ReadFault::Damaged { at: 0 });
    }
    feed(loader, &buffer[..count as usize])?;
    Ok(count)
}

/// Feeds the image of so many bytes to a loader to which nothing was fed yet.
pub fn feed_image<D: Disk>(
    disk: &mut D,
    file: u8,
    loader: &mut Loader,
    image: u64,
) -> Result<(), ReadFault>
    requires file { file < 3 }
    requires worked { IsFalse (D.seen disk.old).failed }
    requires inside { IsTrue D.tells → 9 + image ≤ length (bytes_in (D.seen disk.old) file) }
    requires total { loader.old.total ≡ image }
    requires few { image ≤ 2 ^ 37 }
    requires none { HasRead [] loader.old }
    ensures { FeedsImage D.tells file image loader.new (D.seen disk.old) (D.seen disk.new) result }
{
    let mut buffer = [0; PIECE];
    let mut fed = 0;
    'pieces: while fed < image {
        fed += feed_piece(disk, file, loader, &mut buffer, fed, image - fed)?;
    }
    Ok(())
}
