//! Images of tables, read and refused.

ghost use Rattle.std.specs.Prelude.{◌≡◌, ◌<◌, ◌≤◌, IfOk, length};
ghost use Rattle.nmc_base.specs.declared.limits.TheConstants.{LONGEST_NAME, LONGEST_VALUE};
ghost use Rattle.chain_names.specs.Limits.{IsNameCoin, IsWithinLimitsOp};
ghost use Rattle.chain_names.specs.Tables.{AreCoinsFilled};
ghost use Rattle.table_trials.specs.Images.{AreShort, IsSmallRecord};

use crate::coins::put;
use crate::outputs::output;
use chain_names::{Change, ChangeRoom, Coin, HeldCoin, Item, KeptOp, Undo};
use name_coins::Coins;
use name_table::Table;
use nmc_base::{Boxed, Bytes, CompactBytes, Hash20, Hash32, NoMemory, Profile, RoomyList, Steps};
use states_below::is_image_sound;
use std::alloc::Global;
use std::marker::Brand;
use std::process::Abort;
use std::sync::ledger::{Blank, Ledger};
use std::test::Fail;

/// In which of its fields an image differs from others. All have their tip at 100 and their base at 99: the name d/a has a
/// value of height 90 from the output 1, and block 100 updated it by the output 2; d/b had its last value from the output 3,
/// and that expired with block 100.
struct Image {
    /// The registration height of the value of height 90.
    began: u32,
    /// That of the update.
    goes_on: u32,
    /// The height of the coin at the output 2.
    made: u32,
    /// Whether there is a coin at the output 1.
    is_unspent: bool,
    /// The height of the value of d/b.
    left: u32,
    /// Whether the coin that expired is one of d/b, and not one of d/a.
    is_own: bool,
}

const SOUND: Image = Image {
    began: 90,
    goes_on: 90,
    made: 100,
    is_unspent: false,
    left: 71,
    is_own: true,
};

/// The first alone is sound.
static IMAGES: [Image; 8] = [
    SOUND,
    // the value at the base doesn't begin its registration
    Image {
        began: 89,
        goes_on: 89,
        ..SOUND
    },
    // the update doesn't go on with the registration before it
    Image {
        goes_on: 100,
        ..SOUND
    },
    // the coin isn't that of the last value
    Image { made: 99, ..SOUND },
    // what the update spent is there
    Image {
        is_unspent: true,
        ..SOUND
    },
    // expired one block before
    Image { left: 70, ..SOUND },
    // not expired yet
    Image { left: 72, ..SOUND },
    // the coin that is put back isn't that of its name's last value
    Image {
        is_own: false,
        ..SOUND
    },
];

/// The coin of a name.
fn named(alloc: Global, name: &[u8], height: u32) -> Result<Coin, NoMemory>
    requires { length name.now ≤ LONGEST_NAME }
    ensures { IfOk result (λ coin. IsNameCoin coin) }
{
    let name = CompactBytes::copy_of(alloc, name)?;
    Ok(Coin::Named { name, height })
}

/// A value of this height from the output of this number.
pub(crate) fn value(
    alloc: Global,
    height: u32,
    registered: u32,
    number: u8,
) -> Result<Item, NoMemory>
    ensures { IfOk result (λ item. length item.value ≤ LONGEST_VALUE) }
{
    let value = Bytes::copy_of(alloc, b"{}")?;
    Ok(Item {
        height,
        registered,
        at: output(number, 0),
        value,
    })
}

/// Gives the name a value more.
fn push<L: Ledger>(
    names: &mut Table,
    name: &[u8],
    item: Item,
    steps: &mut Steps<L>,
) -> Result<(), NoMemory>
    requires name { length name.now ≤ LONGEST_NAME }
    requires value { length item.value ≤ LONGEST_VALUE }
    ensures { AreShort names.old → AreShort names.new }
{
    names.place(name, 1, steps)?;
    names.push(name, item, steps);
    Ok(())
}

fn histories<L: Ledger>(
    alloc: Global,
    image: &Image,
    steps: &mut Steps<L>,
) -> Result<Table, NoMemory>
    ensures { IfOk result (λ names. AreShort names) }
{
    let mut names = Table::new(alloc)?;
    push(&mut names, b"d/a", value(alloc, 90, image.began, 1)?, steps)?;
    push(
        &mut names,
        b"d/a",
        value(alloc, 100, image.goes_on, 2)?,
        steps,
    )?;
    push(
        &mut names,
        b"d/b",
        value(alloc, image.left, image.left, 3)?,
        steps,
    )?;
    Ok(names)
}

fn coins_of<L: Ledger>(
    alloc: Global,
    image: &Image,
    steps: &mut Steps<L>,
) -> Result<Coins, NoMemory>
    ensures { IfOk result (λ coins. AreCoinsFilled coins) }
{
    let mut coins = Coins::new(alloc)?;
    put(
        &mut coins,
        output(2, 0),
        named(alloc, b"d/a", image.made)?,
        steps,
    )?;
    if image.is_unspent {
        let hash = Hash20([7; 20]);
        put(
            &mut coins,
            output(1, 0),
            Coin::New { hash, height: 50 },
            steps,
        )?;
    }
    Ok(coins)
}

/// The update of block 100.
fn update(alloc: Global, image: &Image) -> Result<KeptOp, NoMemory>
    ensures { IfOk result (λ op. IsWithinLimitsOp op) }
{
    let room = ChangeRoom::new(alloc)?;
    let before = Boxed::new(alloc, value(alloc, 90, image.began, 1)?)?;
    let change = Change {
        spent: output(1, 0),
        coin: named(alloc, b"d/a", 90)?,
        name: CompactBytes::copy_of(alloc, b"d/a")?,
        before: Some(before),
    };
    Ok(room.update(output(2, 0), change))
}

/// The coin that expired with block 100.
fn gone(alloc: Global, image: &Image) -> Result<HeldCoin, NoMemory>
    ensures { IfOk result (λ held. IsNameCoin held.coin) }
{
    let coin = if image.is_own {
        named(alloc, b"d/b", image.left)?
    } else {
        named(alloc, b"d/a", image.left)?
    };
    Ok(HeldCoin {
        at: output(3, 0),
        coin,
    })
}

fn record_of(alloc: Global, image: &Image) -> Result<Undo, NoMemory>
    ensures { IfOk result (λ undo. IsSmallRecord undo) }
{
    let mut ops = RoomyList::new(alloc);
    let mut expired = RoomyList::new(alloc);
    ops.reserve(1)?;
    expired.reserve(1)?;
    ops.push(update(alloc, image)?);
    expired.push(gone(alloc, image)?);
    Ok(Undo {
        block: Hash32([0xb0; 32]),
        ops,
        expired,
    })
}

fn is_sound<L: Ledger>(alloc: Global, image: &Image, blank: Blank) -> Result<bool, NoMemory>
    requires name { blank.name ≡ L.name }
    requires parts { blank.parts ≡ L.parts }
    requires some { 0 < blank.parts }
{
    let mut steps = Steps::<L>::new(blank);
    let coins = coins_of(alloc, image, &mut steps)?;
    let names = histories(alloc, image, &mut steps)?;
    let undos = [record_of(alloc, image)?];
    match coins.item(4, &mut steps) {
        // There are two at most.
        Some(_) => Ok(false),
        None => is_image_sound(alloc, Profile::Regtest, 99, 100, &undos, &coins, &names),
    }
}

/// What is found of each image, as long as memory is left.
fn are_told(rt: &impl Abort, alloc: Global) -> Result<(), NoMemory> {
    for (row, image) in IMAGES.iter().enumerate() {
        let found = is_sound::<Brand>(alloc, image, Blank::new(1))?;
        assert!(rt; found == (row == 0), "row {row}: {found}");
    }
    Ok(())
}

#[test]
fn an_image_is_judged_or_memory_is_wanted(rt: HostRuntime) -> Result<(), Fail> {
    let _told = are_told(&rt, rt.alloc());
    Ok(())
}

#[test]
fn with_memory_each_image_is_judged(rt: HostRuntime) -> Result<(), Fail> {
    are_told(&rt, rt.alloc())?;
    Ok(())
}
