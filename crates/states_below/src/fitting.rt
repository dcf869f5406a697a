//! Whether coins and items are those that an operation made.

ghost use Rattle.std.specs.Prelude.{◌≡◌, Some};
ghost use Rattle.std.specs.Option.{option_copied};
ghost use Rattle.chain_names.specs.Tables as tables;
ghost use Rattle.chain_names.specs.Coins as coins;
ghost use Rattle.states_below.specs.Tests as tests;

use chain_names::{Coin, Item};
use nmc_base::{Boxed, OutPoint};

/// Whether it is a commitment of this height.
pub(crate) fn is_new_at(coin: Option<&Coin>, tip: u32) -> bool
    ensures { result ≡ tests.is_new_at tip (option_copied coin.entry) }
{
    match coin {
        None => false,
        Some(Coin::New { height, .. }) => *height == tip,
        Some(Coin::Named { .. }) => false,
    }
}

/// Whether it is a name's coin of this height.
pub(crate) fn is_named_at(coin: Option<&Coin>, tip: u32) -> bool
    ensures { result ≡ tables.is_named_at tip (option_copied coin.entry) }
{
    match coin {
        None => false,
        Some(Coin::New { .. }) => false,
        Some(Coin::Named { height, .. }) => *height == tip,
    }
}

/// Whether the two are the same.
fn same_item(a: &Item, b: &Item) -> bool
    ensures { result ≡ tests.same_item a.now b.now }
{
    a.height == b.height
        && a.registered == b.registered
        && a.at == b.at
        && a.value.as_slice() == b.value.as_slice()
}

fn same_entry(a: Option<&Item>, b: &Option<Boxed<Item>>) -> bool
    ensures { result ≡ tests.same_entry (option_copied a.entry) b.now }
{
    match a {
        None => b.is_none(),
        Some(a) => match b {
            None => false,
            Some(b) => same_item(a, b.as_ref()),
        },
    }
}

/// Whether it is of this height and outpoint, and of a registration that began at this height.
fn is_made_item(item: &Item, tip: u32, registered: u32, made: &OutPoint) -> bool
    ensures { result ≡ tests.is_made_item tip registered made.now (Some item.now) }
{
    item.height == tip && item.registered == registered && item.at == *made
}

/// The last item.
pub(crate) fn entry_of(items: &[Item]) -> Option<&Item>
    ensures { option_copied result ≡ coins.entry_of items.now }
{
    match items.split_last() {
        None => None,
        Some((last, _)) => Some(last),
    }
}

/// Whether the last item is the one made, and the one before it is this.
pub(crate) fn ends_so(
    items: &[Item],
    tip: u32,
    registered: u32,
    made: &OutPoint,
    before: &Option<Boxed<Item>>,
) -> bool
    ensures { result ≡ tests.ends_so tip registered made.now before.now items.now }
{
    match items.split_last() {
        None => false,
        Some((last, front)) => {
            is_made_item(last, tip, registered, made) && same_entry(entry_of(front), before)
        }
    }
}

/// Whether there is an item, and it is of this height and outpoint.
pub(crate) fn is_item_at(item: Option<&Item>, made: u32, point: &OutPoint) -> bool
    ensures { result ≡ tests.is_item_at made point.now (option_copied item.entry) }
{
    match item {
        None => false,
        Some(item) => item.height == made && item.at == *point,
    }
}
