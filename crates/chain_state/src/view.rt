//! The tables as the rules on names look at them.

ghost use Rattle.std.specs.Prelude.{◌≡◌, ◌≤◌, List, ℕ, Some};
ghost use Rattle.chain_names.specs.declared.coin.Item.{Item};
ghost use Rattle.chain_names.specs.Coins.{entry_of};
ghost use Rattle.chain_names.specs.Tables.{names_in};
ghost use Rattle.nmc_base.specs.Heights.{highest};
ghost use Rattle.name_tables.specs.Tables.{maps_by};

use chain_names::Coin;
use name_rules::{CoinRef, NameView};
use name_tables::Tables;
use nmc_base::{OutPoint, Steps};
use std::sync::ledger::Ledger;

/// The tables as the rules look at them. No value in them is of a greater height than the greatest.
#[derive(Drop)]
pub(crate) struct View<'a> {
    pub(crate) tables: &'a Tables,
    ghost low_names: { (name : List ℕ) (item : Item) → entry_of (names_in tables.now.names name) ≡ Some item → item.height ≤ highest },
}

impl<'a> NameView for View<'a> {
    ghost maps = { λ v. maps_by v.tables.now };

    fn coin<L: Ledger>(&self, at: &OutPoint, steps: &mut Steps<L>) -> Option<CoinRef<'_>> {
        match self.tables.coins.get(at, steps)? {
            Coin::New { hash, height } => Some(CoinRef::New {
                hash,
                height: *height,
            }),
            Coin::Named { name, height } => Some(CoinRef::Named {
                name: name.as_slice(),
                height: *height,
            }),
        }
    }

    fn entry_height<L: Ledger>(&self, name: &[u8], steps: &mut Steps<L>) -> Option<u32> {
        let item = self.tables.names.last(name, steps)?;
        Some(item.height)
    }
}
