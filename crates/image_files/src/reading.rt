//! Reading the image of an area.
ghost use Rattle.std.specs.Prelude.{◌≤◌, ◌<◌};
ghost use Rattle.nmc_base.specs.declared.limits.TheConstants.{HIGHEST_HEIGHT};
ghost use Rattle.image_files.specs.Reading.{ReadsImage};

use crate::fault::{LENGTH_SIZE, ReadFault};
use crate::front::read_length;
use crate::loading::begin_index;
use chain_state::Chain;
use disk_model::Disk;
use nmc_base::Base;
use std::alloc::Global;

/// No image has more bytes: 2^37.
const LONGEST_IMAGE: u64 = 1 << 37;

/// Reads the image with which the area in this file begins: its index, and the place of the gate behind it. An image of length 0
/// stands for the index of the base alone.
///
/// `Damaged` comes exactly where the area begins with no index of this base, and is its first damage. It asks for no write and no cut.
/// Memory is taken for the index and for one value of the image at a time, and none for a length that stands in the file.
pub fn read_image<D: Disk>(
    alloc: Global,
    disk: &mut D,
    file: u8,
    base: &Base,
) -> Result<(Chain, u64), ReadFault>
    requires file { file < 3 }
    requires low { base.now.height ≤ HIGHEST_HEIGHT }
    ensures { ReadsImage D.tells file base.now (D.seen disk.old) (D.seen disk.new) result }
{
    let image = read_length(disk, LONGEST_IMAGE, file)?;
    match begin_index(alloc, disk, file, image, base) {
        Ok(chain) => Ok((chain, LENGTH_SIZE + image)),
        Err(fault) => Err(fault),
    }
}
