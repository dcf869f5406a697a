//! The front of an area: the length of the image with which it begins.
ghost use Rattle.std.specs.Prelude.{◌≡◌, ◌↔◌, ◌<◌, IsTrue};
ghost use Rattle.std.specs.Int.{w64, from_le_bytes, to_le_bytes};
ghost use Rattle.image_files.specs.Fronts.{LiesInside};
ghost use Rattle.image_files.specs.Reading.{ReadsLength};

use crate::fault::ReadFault;
use disk_model::Disk;

/// An area without an image has so many bytes at least: a length, and a gate behind it.
const SHORTEST: u64 = 9;

/// Whether an image of so many bytes, no more than `longest`, and a gate behind it, lie inside a file of this size.
fn lies_inside(longest: u64, image: u64, size: u64) -> bool
    ensures { IsTrue result ↔ LiesInside longest image size }
{
    size >= SHORTEST && image <= longest && image <= size - SHORTEST
}

/// The number of a length's bytes.
fn length_of(bytes: &[u8; 8]) -> u64
    ensures value { result ≡ from_le_bytes w64 bytes.now }
    ensures bytes { to_le_bytes w64 result ≡ bytes.now }
{
    u64::from_le_bytes(*bytes)
}

/// The length in bytes of the image with which the area in this file begins. Where it is above `longest`, the area is damaged at its first byte,
/// as it is where the image and a gate behind it don't lie inside the file.
pub fn read_length<D: Disk>(disk: &mut D, longest: u64, file: u8) -> Result<u64, ReadFault>
    requires { file < 3 }
    ensures { ReadsLength D.tells longest file (D.seen disk.old) (D.seen disk.new) result }
{
    let size = disk.len(file)?;
    let mut bytes = [0; 8];
    disk.read(file, 0, &mut bytes)?;
    let image = length_of(&bytes);
    if !lies_inside(longest, image, size) {
        return Err(ReadFault::Damaged { at: 0 });
    }
    Ok(image)
}
