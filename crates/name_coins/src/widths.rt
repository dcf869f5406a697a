//! That coins are as wide as their fields.

ghost use Rattle.chain_names.specs.declared.coin.Coin.TheVariants.{New};
ghost use Rattle.chain_names.specs.Measured.{IsMeasuredCoin};

use chain_names::Coin;
use nmc_base::{Hash20, OutPoint};

/// A commitment is as wide as its fields.
fn read_commitment(at: OutPoint, hash: Hash20, height: u32)
    ensures { IsMeasuredCoin at (New hash height) }
{}

/// A coin and its outpoint are as wide as their fields, which a proof knows of fields that are read.
pub(crate) fn read_widths(at: OutPoint, coin: &Coin)
    ensures { IsMeasuredCoin at coin.now }
{
    match coin {
        Coin::New { hash, height } => read_commitment(at, *hash, *height),
        Coin::Named { height, .. } => {
            let _height = *height;
        }
    }
}
