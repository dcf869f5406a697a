//! Making the area of a start list's index.
ghost use Rattle.std.specs.Prelude.{◌≡◌, ◌<◌, ◌≤◌, [], IsTrue, IsFalse, OnOk, IfOk, IsErrOf};
ghost use Rattle.disk_model.specs.Moments.{EachMoment};
ghost use Rattle.disk_model.specs.Changes.{LeavesOthers};
ghost use Rattle.disk_model.specs.DiskSeen.{EndsWith, file_in};
ghost use Rattle.nmc_base.specs.declared.limits.TheConstants.{HIGHEST_HEIGHT};
ghost use Rattle.chain_names.specs.Log.{Log};
ghost use Rattle.chain_names.specs.Tables.{AreCoinsFilled};
ghost use Rattle.name_store.specs.MakingSteps.{first_area};
ghost use Rattle.name_store.specs.Starting.{IsStartIndex, HasCoin, HasShortText, IsStartImage, HasStartArea};

use crate::faults::CreateFromFault;
use crate::limits::FIRST_AREA;
use crate::making_steps::make_area;
use disk_model::Disk;
use image_files::make_image;
use image_writer::{ImageText, image_len, image_text};
use name_coins::Coins;
use name_tables::Parts;
use nmc_base::{Base, NoMemory, Steps};
use std::alloc::Global;
use std::marker::Brand;
use std::sync::ledger::{Blank, Ledger};

/// Whether there is a coin. Nobody reads the step that it takes.
fn finds_coin<L: Ledger>(coins: &Coins, blank: Blank) -> bool
    requires filled { AreCoinsFilled coins.now }
    requires name { blank.name ≡ L.name }
    requires parts { blank.parts ≡ L.parts }
    requires some { 0 < blank.parts }
    ensures some { IsTrue result → HasCoin coins.now }
    ensures none { IsFalse result → coins.now ≡ [] }
{
    let mut steps = Steps::<L>::new(blank);
    coins.item(0, &mut steps).is_some()
}

/// Whether there is a coin.
fn has_coin(coins: &Coins) -> bool
    requires { AreCoinsFilled coins.now }
    ensures some { IsTrue result → HasCoin coins.now }
    ensures none { IsFalse result → coins.now ≡ [] }
{
    finds_coin::<Brand>(coins, Blank::new(1))
}

/// The text of a start list's index, and its length.
fn start_image<'a>(
    alloc: Global,
    base: &'a Base,
    parts: &'a Parts,
) -> Result<(ImageText<'a>, u64), NoMemory>
    requires low { base.now.height ≤ HIGHEST_HEIGHT }
    requires start { (start : Log) × IsStartIndex base.now start parts.now }
    requires short { HasShortText base.now parts.now }
    ensures { IfOk result (λ image. IsStartImage base.now parts.now image.0 image.1) }
{
    let text = image_text(alloc, base, parts)?;
    Ok((text, image_len(base, parts)))
}

/// Makes the area with the image of a start list's index. The list has makes.
fn make_start_image<D: Disk>(
    alloc: Global,
    disk: &mut D,
    base: &Base,
    parts: &Parts,
) -> Result<(), CreateFromFault>
    requires low { base.now.height ≤ HIGHEST_HEIGHT }
    requires start { (start : Log) × IsStartIndex base.now start parts.now }
    requires short { HasShortText base.now parts.now }
    requires makes { HasCoin parts.now.coins }
    ensures made { IsTrue D.tells → (start : Log) → IsStartIndex base.now start parts.now → OnOk result (HasStartArea base.now start (file_in (D.seen disk.new) first_area)) }
    ensures other { IsErrOf result CreateFromFault.Initialised → ⊥ }
    ensures no_memory { IsErrOf result CreateFromFault.NoMemory → disk.new ≡ disk.old }
    ensures others { IsTrue D.tells → EachMoment (LeavesOthers first_area (D.seen disk.old).moments.now) (D.seen disk.old).moments (D.seen disk.new).moments }
    ensures ends { EndsWith CreateFromFault.DiskFault (D.seen disk.old) (D.seen disk.new) result }
{
    let (text, size) = start_image(alloc, base, parts)?;
    make_image(disk, FIRST_AREA, text, size)?;
    Ok(())
}

/// Makes the area of a start list's index: with its image where the list has makes, and else without one.
///
/// Memory is taken before the first write.
pub fn make_start<D: Disk>(
    alloc: Global,
    disk: &mut D,
    base: &Base,
    parts: &Parts,
) -> Result<(), CreateFromFault>
    requires low { base.now.height ≤ HIGHEST_HEIGHT }
    requires start { (start : Log) × IsStartIndex base.now start parts.now }
    requires short { HasShortText base.now parts.now }
    ensures made { IsTrue D.tells → (start : Log) → IsStartIndex base.now start parts.now → OnOk result (HasStartArea base.now start (file_in (D.seen disk.new) first_area)) }
    ensures other { IsErrOf result CreateFromFault.Initialised → ⊥ }
    ensures no_memory { IsErrOf result CreateFromFault.NoMemory → disk.new ≡ disk.old }
    ensures others { IsTrue D.tells → EachMoment (LeavesOthers first_area (D.seen disk.old).moments.now) (D.seen disk.old).moments (D.seen disk.new).moments }
    ensures ends { EndsWith CreateFromFault.DiskFault (D.seen disk.old) (D.seen disk.new) result }
{
    if has_coin(&parts.coins) {
        return make_start_image(alloc, disk, base, parts);
    }
    make_area(disk)?;
    Ok(())
}
