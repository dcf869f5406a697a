//! The state below some blocks, without a change of the tables.

ghost use Rattle.std.specs.Prelude.{◌≡◌, IfOk, OnOk};
ghost use Rattle.chain_names.specs.Changes.{moved_back};
ghost use Rattle.chain_names.specs.Tables.{coins_in, names_in};
ghost use Rattle.states_below.specs.Tests as tests;
ghost use Rattle.states_below.specs.Undoing.{maps_below, Tried, TriedAll};

use crate::coins_below::CoinsBelow;
use crate::fitting::{ends_so, is_named_at, is_new_at};
use crate::names_below::NamesBelow;
use chain_names::{Coin, Item, KeptOp, OpParts};
use name_coins::Coins;
use name_table::Table;
use nmc_base::{Boxed, NoMemory, OutPoint};
use std::alloc::Global;

/// The state below some blocks.
#[derive(Drop)]
pub(crate) struct Below<'a> {
    pub(crate) coins: CoinsBelow<'a>,
    pub(crate) names: NamesBelow<'a>,
}

impl<'a> Below<'a> {
    /// The state of the tables themselves.
    pub(crate) fn new(alloc: Global, coins: &'a Coins, names: &'a Table) -> Below<'a>
        ensures maps { maps_below result ≡ record { coins = coins_in coins.entry.now; names = names_in names.entry.now } }
        ensures coins { result.coins.under ≡ coins.entry }
        ensures names { result.names.under ≡ names.entry }
    {
        Below {
            coins: CoinsBelow::new(alloc, coins),
            names: NamesBelow::new(alloc, names),
        }
    }

    fn fits_move(
        &self,
        tip: u32,
        registered: u32,
        made: &OutPoint,
        spent: &OutPoint,
        name: &[u8],
        before: &Option<Boxed<Item>>,
    ) -> bool
        ensures { result ≡ tests.fits_move tip registered made.now spent.now name.now before.now (maps_below self.now) }
    {
        is_named_at(self.coins.get(made), tip)
            && self.coins.get(spent).is_none()
            && ends_so(self.names.history(name), tip, registered, made, before)
    }

    fn fits_update(
        &self,
        tip: u32,
        made: &OutPoint,
        spent: &OutPoint,
        name: &[u8],
        before: &Option<Boxed<Item>>,
    ) -> bool
        ensures { result ≡ tests.fits_update tip made.now spent.now name.now before.now (maps_below self.now) }
    {
        match before {
            None => false,
            Some(item) => {
                self.fits_move(tip, item.as_ref().registered, made, spent, name, before)
            }
        }
    }

    fn move_back(
        &mut self,
        alloc: Global,
        made: &OutPoint,
        spent: &OutPoint,
        coin: &'a Coin,
        name: &[u8],
    ) -> Result<(), NoMemory>
        ensures moved { OnOk result (maps_below self.new ≡ moved_back (maps_below self.old) made.now spent.now coin.entry.now name.now) }
        ensures table { self.new.coins.under ≡ self.old.coins.under }
    {
        self.coins.set(made, None)?;
        self.coins.set(spent, Some(coin))?;
        self.names.pop(alloc, name)
    }

    /// Undoes an operation at the tip's height, if it fits. Where memory runs out, it may be undone in part.
    pub(crate) fn undo(&mut self, alloc: Global, op: &'a KeptOp, tip: u32) -> Result<bool, NoMemory>
        ensures tried { IfOk result (λ fits. Tried tip op.entry.now (maps_below self.old) (maps_below self.new) fits) }
        ensures table { self.new.coins.under ≡ self.old.coins.under }
    {
        match op.parts() {
            OpParts::New { made } => {
                if !is_new_at(self.coins.get(made), tip) {
                    return Ok(false);
                }
                self.coins.set(made, None)?;
                Ok(true)
            }
            OpParts::First { made, change } => {
                let name = change.name.as_slice();
                if !self.fits_move(tip, tip, made, &change.spent, name, &change.before) {
                    return Ok(false);
                }
                self.move_back(alloc, made, &change.spent, &change.coin, name)?;
                Ok(true)
            }
            OpParts::Update { made, change } => {
                let name = change.name.as_slice();
                if !self.fits_update(tip, made, &change.spent, name, &change.before) {
                    return Ok(false);
                }
                self.move_back(alloc, made, &change.spent, &change.coin, name)?;
                Ok(true)
            }
        }
    }

    /// Undoes operations from the last to the first, as long as they fit.
    pub(crate) fn undo_all(
        &mut self,
        alloc: Global,
        ops: &'a [KeptOp],
        tip: u32,
    ) -> Result<bool, NoMemory>
        ensures tried { IfOk result (λ fit. TriedAll tip ops.entry.now (maps_below self.old) (maps_below self.new) fit) }
        ensures table { self.new.coins.under ≡ self.old.coins.under }
    {
        let mut rest = ops;
        while let Some((op, more)) = rest.split_last() {
            if !self.undo(alloc, op, tip)? {
                return Ok(false);
            }
            rest = more;
        }
        Ok(true)
    }
}
