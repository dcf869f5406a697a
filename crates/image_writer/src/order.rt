//! The coins and the names of a table, in the order in which an image lists them.

ghost use Rattle.std.specs.Prelude.{◌≡◌, [], map, IfOk, OnOk};
ghost use Rattle.std.specs.List.{AllByRecursion, IsDistinct};
ghost use Rattle.std.specs.Map.{keys_of};
ghost use Rattle.std.specs.Str.{bytes_eq};
ghost use Rattle.chain_names.specs.Points.{same_point};
ghost use Rattle.chain_names.specs.Tables.{AreNamesFilled};
ghost use Rattle.name_tables.specs.Parts.{tables_of};
ghost use Rattle.name_tables.specs.Tables.{AreFilled};
ghost use Rattle.image_writer.specs.Ordered.{held_in, ListsCoins, ListsNames};
ghost use Rattle.image_writer.specs.Places.{held_at, history_at, name_at, IsCoinAt, IsNameAt};
ghost use Rattle.image_writer.specs.Whole.{ListsParts, HasCoins, HasNames};

use crate::front::front_of;
use crate::listed::{CoinPlace, Listed, NamePlace};
use crate::places::{FilledCoins, name_in, name_order, quick_name_order};
use name_table::Table;
use name_tables::Parts;
use nmc_base::NoMemory;
use std::alloc::Global;

/// How many coins there are.
fn count_coins(coins: &FilledCoins) -> Result<usize, NoMemory> {
    for place in 0..u32::MAX {
        if coins.item(place).is_none() {
            return Ok(place as usize);
        }
    }
    // A place has 32 bits.
    Err(NoMemory)
}

/// Lists the coins, in the order of their places.
fn collect_coins(coins: &FilledCoins, listed: &mut Vec<CoinPlace>) -> Result<(), NoMemory>
    requires empty { listed.old.items ≡ [] }
    ensures coins { OnOk result (map (held_at coins.now) listed.new.items ≡ held_in coins.now) }
    ensures there { OnOk result (AllByRecursion (IsCoinAt coins.now) listed.new.items) }
    ensures distinct { OnOk result (IsDistinct same_point (keys_of coins.now)) }
{
    for place in 0..u32::MAX {
        match coins.item(place) {
            Some((at, _)) => listed.push(CoinPlace {
                front: front_of(&at.txid.0),
                place,
            })?,
            None => return Ok(()),
        }
    }
    // A place has 32 bits.
    Err(NoMemory)
}

/// The coins, in the order of their outpoints. It takes 8 bytes for each.
fn coins_in_order(alloc: Global, coins: &FilledCoins) -> Result<Vec<CoinPlace>, NoMemory>
    ensures { IfOk result (λ listed. HasCoins coins.now listed.items) }
{
    let count = count_coins(coins)?;
    let mut listed = Vec::with_capacity(alloc, count)?;
    collect_coins(coins, &mut listed)?;
    // Quick, and then proved: the second sort finds all in order, in one comparison for each.
    listed.sort_unstable_by(|a, b| coins.quick_order(a, b));
    listed.sort_unstable_by(|a, b| coins.order(a, b));
    Ok(listed)
}

/// How many names there are.
fn count_names(names: &Table) -> Result<usize, NoMemory> {
    for place in 0..u32::MAX {
        if name_in(names, place).is_none() {
            return Ok(place as usize);
        }
    }
    // A place has 32 bits.
    Err(NoMemory)
}

/// Lists the names, in the order of their places.
fn collect_names(names: &Table, listed: &mut Vec<NamePlace>) -> Result<(), NoMemory>
    requires { listed.old.items ≡ [] }
    ensures names { OnOk result (map (name_at names.now) listed.new.items ≡ keys_of names.now) }
    ensures there { OnOk result (AllByRecursion (IsNameAt names.now) listed.new.items) }
    ensures distinct { OnOk result (IsDistinct bytes_eq (keys_of names.now)) }
{
    for place in 0..u32::MAX {
        match name_in(names, place) {
            Some(name) => listed.push(NamePlace {
                front: front_of(name),
                place,
            })?,
            None => return Ok(()),
        }
    }
    // A place has 32 bits.
    Err(NoMemory)
}

/// The names, in the order of their bytes. It takes 12 bytes for each.
fn names_in_order(alloc: Global, names: &Table) -> Result<Vec<NamePlace>, NoMemory>
    requires { AreNamesFilled names.now }
    ensures { IfOk result (λ listed. HasNames names.now listed.items) }
{
    let count = count_names(names)?;
    let mut listed = Vec::with_capacity(alloc, count)?;
    collect_names(names, &mut listed)?;
    // Quick, and then proved: the second sort finds all in order, in one comparison for each.
    listed.sort_unstable_by(|a, b| quick_name_order(names, a, b));
    listed.sort_unstable_by(|a, b| name_order(names, a, b));
    Ok(listed)
}

/// The coins and names of these parts, in order.
pub(crate) fn list_parts<'a>(alloc: Global, parts: &'a Parts) -> Result<Listed<'a>, NoMemory>
    requires { AreFilled (tables_of parts.now) }
    ensures { IfOk result (λ listed. ListsParts parts.now listed) }
{
    let coin_table = FilledCoins::new(&parts.coins);
    let coins = coins_in_order(alloc, &coin_table)?;
    let names = names_in_order(alloc, &parts.names)?;
    Ok(Listed {
        coins,
        names,
        coin_table,
        name_table: &parts.names,
    })
}
