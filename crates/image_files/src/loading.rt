//! The index with which an area begins.
ghost use Rattle.std.specs.Prelude.{◌≡◌, ◌+◌, ◌<◌, ◌≤◌, ◌^◌, List, ℕ, length, IsTrue, IsFalse, IfOk, IfErr, IsErrOf};
ghost use Rattle.disk_model.specs.DiskSeen.{bytes_in};
ghost use Rattle.nmc_base.specs.declared.limits.TheConstants.{HIGHEST_HEIGHT};
ghost use Rattle.state_image.specs.Answers.{AreSoundParts};
ghost use Rattle.state_image.specs.Loading.{HasRead};
ghost use Rattle.chain_state.specs.Chain.{IsAtBase};
ghost use Rattle.image_files.specs.Reading.{IsChainOn, IndexAnswer, LoadsIndex, BeginsIndex};

use crate::fault::{LENGTH_SIZE, ReadFault};
use crate::feeding::feed_image;
use chain_state::{Chain, Parts};
use disk_model::Disk;
use nmc_base::Base;
use state_image::{Loader, let_go};
use std::alloc::Global;

/// The chain of parts that were read with their base, where this is the base.
fn chain_on(read: Base, parts: Parts, base: &Base) -> Result<Chain, ReadFault>
    requires { AreSoundParts read parts }
    ensures { IsChainOn read parts base.now result }
{
    if read != *base {
        let_go(parts);
        return Err(ReadFault::Damaged { at: LENGTH_SIZE });
    }
    Ok(Chain::from_parts(read, parts))
}

/// The index of the image that was fed to the loader.
fn end_loading(loader: Loader, base: &Base) -> Result<Chain, ReadFault>
    requires all { loader.fed ≡ loader.total }
    requires few { loader.total ≤ 2 ^ 37 }
    requires read { (text : List ℕ) × HasRead text loader }
    ensures answer { (text : List ℕ) → HasRead text loader → IndexAnswer base.now text result }
    ensures no_disk { IsErrOf result ReadFault.DiskFault → ⊥ }
{
    match loader.finish() {
        Ok((read, parts)) => chain_on(read, parts, base),
        Err(fault) => Err(ReadFault::of_image(fault)),
    }
}

/// The index of the image of so many bytes with which the area in this file begins.
fn load_index<D: Disk>(
    alloc: Global,
    disk: &mut D,
    file: u8,
    image: u64,
    base: &Base,
) -> Result<Chain, ReadFault>
    requires file { file < 3 }
    requires worked { IsFalse (D.seen disk.old).failed }
    requires few { image ≤ 2 ^ 37 }
    requires inside { IsTrue D.tells → 9 + image ≤ length (bytes_in (D.seen disk.old) file) }
    ensures { LoadsIndex D.tells file image base.now (D.seen disk.old) (D.seen disk.new) result }
{
    let mut loader = Loader::new(alloc, image)?;
    match feed_image(disk, file, &mut loader, image) {
        Ok(()) => end_loading(loader, base),
        Err(fault) => {
            loader.let_go();
            Err(fault)
        }
    }
}

/// The index of the base alone.
fn index_at_base(alloc: Global, base: &Base) -> Result<Chain, ReadFault>
    requires { base.now.height ≤ HIGHEST_HEIGHT }
    ensures ok { IfOk result (λ index. IsAtBase base.now index) }
    ensures err { IfErr result (λ fault. fault ≡ ReadFault.NoMemory) }
{
    match Chain::at_base(alloc, *base) {
        Ok(chain) => Ok(chain),
        Err(_) => Err(ReadFault::NoMemory),
    }
}

/// The index with which the area in this file begins, whose image has so many bytes. Nothing is read where it has none, so the last
/// call of the disk worked.
pub fn begin_index<D: Disk>(
    alloc: Global,
    disk: &mut D,
    file: u8,
    image: u64,
    base: &Base,
) -> Result<Chain, ReadFault>
    requires file { file < 3 }
    requires low { base.now.height ≤ HIGHEST_HEIGHT }
    requires worked { IsFalse (D.seen disk.old).failed }
    requires few { image ≤ 2 ^ 37 }
    requires inside { IsTrue D.tells → 9 + image ≤ length (bytes_in (D.seen disk.old) file) }
    ensures { BeginsIndex D.tells file image base.now (D.seen disk.old) (D.seen disk.new) result }
{
    if image == 0 {
        return index_at_base(alloc, base);
    }
    load_index(alloc, disk, file, image, base)
}
