//! How long an image gets.

ghost use Rattle.std.specs.Prelude.{◌≡◌, ℕ, ◌+◌, ◌-◌, ◌^◌, ◌<◌, List, length, min};
ghost use Rattle.std.specs.List.{flat_map, IsDistinct};
ghost use Rattle.std.specs.Map.{keys_of};
ghost use Rattle.std.specs.Str.{bytes_eq};
ghost use Rattle.name_tables.specs.Parts.{newest_first, tables_of};
ghost use Rattle.name_tables.specs.Tables.{maps_by, AreFilled};
ghost use Rattle.chain_names.specs.Points.{same_point};
ghost use Rattle.chain_names.specs.Tables.{AreCoinsFilled};
ghost use Rattle.undo_records.specs.declared.version.Version.TheVariants.{Two};
ghost use Rattle.undo_records.specs.Text.{held_text};
ghost use Rattle.image_grammar.specs.Text.{history_text, IsStateText};
ghost use Rattle.image_writer.specs.Lengths.{capped, AddsParts};
ghost use Rattle.image_writer.specs.Ordered.{held_in, histories_in};

use crate::lengths::{add_held, add_history, add_undos};
use crate::widths::read_hash;
use name_coins::Coins;
use name_table::Table;
use name_tables::Parts;
use nmc_base::{Base, Steps};
use std::marker::Brand;
use std::sync::ledger::{Blank, Ledger};

/// The length of the coins.
fn add_coins<L: Ledger>(total: u64, coins: &Coins, steps: &mut Steps<L>) -> u64
    requires { AreCoinsFilled coins.now }
    ensures length { result ≡ capped (total + length (flat_map held_text (held_in coins.now))) }
    ensures distinct { IsDistinct same_point (keys_of coins.now) }
{
    let mut sum = total;
    for i in 0..usize::MAX {
        match coins.item(i, steps) {
            Some((at, coin)) => sum = add_held(sum, *at, coin),
            None => return sum,
        }
    }
    // Each coin has a byte at least.
    u64::MAX
}

/// The length of the names with their items.
fn add_names<L: Ledger>(total: u64, names: &Table, steps: &mut Steps<L>) -> u64
    ensures length { result ≡ capped (total + length (flat_map (history_text Two) (histories_in names.now))) }
    ensures distinct { IsDistinct bytes_eq (keys_of names.now) }
{
    let mut sum = total;
    for i in 0..usize::MAX {
        match names.entry_at(i, steps) {
            Some((name, items)) => sum = add_history(sum, name, items),
            None => return sum,
        }
    }
    // Each name has a byte at least.
    u64::MAX
}

/// The length of all. Nobody reads the steps that it takes.
fn add_parts<L: Ledger>(total: u64, parts: &Parts, blank: Blank) -> u64
    requires filled { AreFilled (tables_of parts.now) }
    requires name { blank.name ≡ L.name }
    requires parts { blank.parts ≡ L.parts }
    requires some { 0 < blank.parts }
    ensures { AddsParts parts.now total result }
{
    let mut steps = Steps::<L>::new(blank);
    let undos = add_undos(total, parts.undos.as_slice());
    let coins = add_coins(undos, &parts.coins, &mut steps);
    add_names(coins, &parts.names, &mut steps)
}

/// The length of the text of the image of an index, in version 2, or 2^64 - 1 where it is greater. It takes no memory, and goes
/// once over all that the parts hold.
pub fn image_len(base: &Base, parts: &Parts) -> u64
    requires { AreFilled (tables_of parts.now) }
    ensures { (text : List ℕ) → IsStateText Two base.now (newest_first parts.now.undos.items) (maps_by (tables_of parts.now)) text → result ≡ min (length text) (2 ^ 64 - 1) }
{
    read_hash(base.hash);
    // The head has 42 bytes, and each of the three counts has 4.
    add_parts::<Brand>(54, parts, Blank::new(1))
}
