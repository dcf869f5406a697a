//! Coins in their table: put, found, taken out, walked.

ghost use Rattle.std.specs.Prelude.{◌≡◌, ◌<◌};
ghost use Rattle.chain_names.specs.Tables.{AreCoinsFilled};

use crate::outputs::output;
use name_coins::{Coin, Coins};
use nmc_base::{Hash20, NoMemory, OutPoint, Steps};
use std::alloc::Global;
use std::marker::Brand;
use std::process::Abort;
use std::sync::ledger::{Blank, Ledger};
use std::test::Fail;

/// Gives the outpoint a place, and puts the coin there.
pub(crate) fn put<L: Ledger>(
    coins: &mut Coins,
    at: OutPoint,
    coin: Coin,
    steps: &mut Steps<L>,
) -> Result<(), NoMemory>
    ensures { AreCoinsFilled coins.old → AreCoinsFilled coins.new }
{
    coins.place(at, steps)?;
    coins.put(&at, coin, steps);
    Ok(())
}

/// Puts a commitment of this height at the outpoint.
fn commit_to<L: Ledger>(
    coins: &mut Coins,
    at: OutPoint,
    height: u32,
    steps: &mut Steps<L>,
) -> Result<(), NoMemory>
    ensures { AreCoinsFilled coins.old → AreCoinsFilled coins.new }
{
    let hash = Hash20([7; 20]);
    put(coins, at, Coin::New { hash, height }, steps)
}

fn commit_to_two<L: Ledger>(coins: &mut Coins, steps: &mut Steps<L>) -> Result<(), NoMemory>
    ensures { AreCoinsFilled coins.old → AreCoinsFilled coins.new }
{
    commit_to(coins, output(2, 256), 5, steps)?;
    commit_to(coins, output(1, 256), 6, steps)
}

fn height_of(coin: Option<&Coin>) -> Option<u32> {
    match coin {
        Some(Coin::New { height, .. }) => Some(*height),
        _ => None,
    }
}

fn are_two<L: Ledger>(rt: &impl Abort, coins: &Coins, steps: &mut Steps<L>) {
    assert!(rt; height_of(coins.get(&output(2, 256), steps)) == Some(5));
    assert!(rt; height_of(coins.get(&output(1, 256), steps)) == Some(6));
    assert!(rt; height_of(coins.get(&output(0, 256), steps)).is_none());
}

/// The outpoint of the i-th place, and the height of its coin.
fn item_at<L: Ledger>(coins: &Coins, i: usize, steps: &mut Steps<L>) -> Option<(OutPoint, u32)>
    requires { AreCoinsFilled coins.now }
{
    let (at, coin) = coins.item(i, steps)?;
    Some((*at, height_of(Some(coin))?))
}

/// A walk meets each coin once, in the order in which their places were made.
fn are_in_order<L: Ledger>(rt: &impl Abort, coins: &Coins, steps: &mut Steps<L>)
    requires { AreCoinsFilled coins.now }
{
    assert!(rt; item_at(coins, 0, steps) == Some((output(2, 256), 5)));
    assert!(rt; item_at(coins, 1, steps) == Some((output(1, 256), 6)));
    assert!(rt; coins.item(2, steps).is_none());
}

fn two_coins<L: Ledger>(rt: &impl Abort, alloc: Global, blank: Blank) -> Result<(), NoMemory>
    requires name { blank.name ≡ L.name }
    requires parts { blank.parts ≡ L.parts }
    requires some { 0 < blank.parts }
{
    let mut steps = Steps::<L>::new(blank);
    let mut coins = Coins::new(alloc)?;
    let made = commit_to_two(&mut coins, &mut steps);
    are_two(rt, &coins, &mut steps);
    are_in_order(rt, &coins, &mut steps);
    made
}

#[test]
fn coins_by_outpoint(rt: HostRuntime) -> Result<(), Fail> {
    two_coins::<Brand>(&rt, rt.alloc(), Blank::new(1))?;
    Ok(())
}
