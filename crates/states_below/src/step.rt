//! Whether what one record touches is sound.

ghost use Rattle.std.specs.Prelude.{◌≡◌, suc, ◌≤◌, IfOk, OnOk};
ghost use Rattle.std.specs.Option.{option_copied};
ghost use Rattle.nmc_base.specs.Expiry.{is_expired};
ghost use Rattle.nmc_base.specs.Heights.{highest};
ghost use Rattle.chain_names.specs.Coins as coins;
ghost use Rattle.chain_names.specs.Fits.{with_restored};
ghost use Rattle.chain_names.specs.Seen.{seen_undo};
ghost use Rattle.states_below.specs.StepTests as tests;
ghost use Rattle.states_below.specs.StepTests.{Stepped};
ghost use Rattle.states_below.specs.Tests.{is_item_at};
ghost use Rattle.states_below.specs.Undoing.{maps_below};

use crate::below::Below;
use crate::fitting::{entry_of, is_item_at};
use chain_names::{Coin, HeldCoin, KeptOp, OpParts, Undo};
use nmc_base::{NoMemory, OutPoint, Profile};
use std::alloc::Global;

/// Whether a name that was changed at one height is expired at another.
fn expired(profile: Profile, made: u32, height: u32) -> bool
    requires { height ≤ suc highest }
    ensures { result ≡ is_expired profile made height }
{
    made <= height && profile.expired(made, height)
}

/// Whether the coin is expired in the block after the tip's, and not in the tip's.
fn expires_now(profile: Profile, tip: u32, coin: &Coin) -> bool
    requires { tip ≤ highest }
    ensures { result ≡ tests.expires_now profile tip coin.now }
{
    match coin {
        Coin::New { .. } => false,
        Coin::Named { height, .. } => {
            !expired(profile, *height, tip) && expired(profile, *height, tip + 1)
        }
    }
}

/// Whether it is the coin of this name, of this height.
fn is_coin_of(coin: Option<&Coin>, name: &[u8], made: u32) -> bool
    ensures { result ≡ tests.is_coin_of name.now made (option_copied coin.entry) }
{
    match coin {
        None => false,
        Some(Coin::New { .. }) => false,
        Some(
            Coin::Named {
                name: other,
                height,
            },
        ) => other.as_slice() == name && *height == made,
    }
}

impl<'a> Below<'a> {
    fn just_expired(&self, profile: Profile, tip: u32, held: &HeldCoin) -> bool
        requires { tip ≤ highest }
        ensures { result ≡ tests.just_expired profile tip (maps_below self.now) held.now }
    {
        self.coins.get(&held.at).is_none() && expires_now(profile, tip, &held.coin)
    }

    fn all_just_expired(&self, profile: Profile, tip: u32, helds: &[HeldCoin]) -> bool
        requires { tip ≤ highest }
        ensures { result ≡ tests.all_by (tests.just_expired profile tip (maps_below self.now)) helds.now }
    {
        let mut rest = helds;
        while let [held, more @ ..] = rest {
            if !self.just_expired(profile, tip, held) {
                return false;
            }
            rest = more;
        }
        true
    }

    /// Whether the name's last item, where it stands in the next block, has its coin.
    pub(crate) fn has_its_coin(&self, profile: Profile, tip: u32, name: &[u8]) -> bool
        requires { tip ≤ highest }
        ensures { result ≡ tests.has_its_coin profile tip (maps_below self.now) name.now }
    {
        match entry_of(self.names.history(name)) {
            None => true,
            Some(item) => {
                expired(profile, item.height, tip + 1)
                    || is_coin_of(self.coins.get(&item.at), name, item.height)
            }
        }
    }

    /// Whether the name's last item is of this height and outpoint.
    fn is_last(&self, name: &[u8], made: u32, point: &OutPoint) -> bool
        ensures { result ≡ is_item_at made point.now (coins.entry_of ((maps_below self.now).names name.now)) }
    {
        is_item_at(entry_of(self.names.history(name)), made, point)
    }

    fn not_asked(&self, profile: Profile, tip: u32, point: &OutPoint, coin: &Coin) -> bool
        requires { tip ≤ highest }
        ensures { result ≡ tests.not_asked_coin profile tip (maps_below self.now) point.now coin.now }
    {
        match coin {
            Coin::New { .. } => true,
            Coin::Named { name, height } => {
                *height == tip
                    || !self.is_last(name.as_slice(), *height, point)
                    || expired(profile, *height, tip + 1)
            }
        }
    }

    fn op_before(&self, profile: Profile, tip: u32, op: &KeptOp) -> bool
        requires { tip ≤ highest }
        ensures { result ≡ tests.op_before profile tip (maps_below self.now) op.now }
    {
        match op.parts() {
            OpParts::New { .. } => true,
            OpParts::First { change, .. } => {
                self.has_its_coin(profile, tip, change.name.as_slice())
                    && self.not_asked(profile, tip, &change.spent, &change.coin)
            }
            OpParts::Update { change, .. } => {
                self.has_its_coin(profile, tip, change.name.as_slice())
                    && self.not_asked(profile, tip, &change.spent, &change.coin)
            }
        }
    }

    fn all_before(&self, profile: Profile, tip: u32, ops: &[KeptOp]) -> bool
        requires { tip ≤ highest }
        ensures { result ≡ tests.all_by (tests.op_before profile tip (maps_below self.now)) ops.now }
    {
        let mut rest = ops;
        while let [op, more @ ..] = rest {
            if !self.op_before(profile, tip, op) {
                return false;
            }
            rest = more;
        }
        true
    }

    fn point_stands(&self, profile: Profile, tip: u32, point: &OutPoint) -> bool
        requires { tip ≤ highest }
        ensures { result ≡ tests.point_stands profile tip (maps_below self.now) point.now }
    {
        match self.coins.get(point) {
            None => true,
            Some(Coin::New { .. }) => true,
            Some(Coin::Named { name, height }) => {
                !expired(profile, *height, tip) && self.is_last(name.as_slice(), *height, point)
            }
        }
    }

    fn op_after(&self, profile: Profile, tip: u32, op: &KeptOp) -> bool
        requires { tip ≤ highest }
        ensures { result ≡ tests.op_after profile tip (maps_below self.now) op.now }
    {
        match op.parts() {
            OpParts::New { .. } => true,
            OpParts::First { change, .. } => self.point_stands(profile, tip, &change.spent),
            OpParts::Update { change, .. } => self.point_stands(profile, tip, &change.spent),
        }
    }

    fn all_after(&self, profile: Profile, tip: u32, ops: &[KeptOp]) -> bool
        requires { tip ≤ highest }
        ensures { result ≡ tests.all_by (tests.op_after profile tip (maps_below self.now)) ops.now }
    {
        let mut rest = ops;
        while let [op, more @ ..] = rest {
            if !self.op_after(profile, tip, op) {
                return false;
            }
            rest = more;
        }
        true
    }

    fn all_held_after(&self, profile: Profile, tip: u32, helds: &[HeldCoin]) -> bool
        requires { tip ≤ highest }
        ensures { result ≡ tests.all_by (tests.held_after profile tip (maps_below self.now)) helds.now }
    {
        let mut rest = helds;
        while let [held, more @ ..] = rest {
            if !self.point_stands(profile, tip, &held.at) {
                return false;
            }
            rest = more;
        }
        true
    }

    /// Puts the coins that expired back.
    fn restore(&mut self, helds: &'a [HeldCoin]) -> Result<(), NoMemory>
        ensures back { OnOk result (maps_below self.new ≡ with_restored helds.entry.now (maps_below self.old)) }
        ensures table { self.new.coins.under ≡ self.old.coins.under }
    {
        let mut rest = helds;
        while let Some((held, more)) = rest.split_last() {
            self.coins.set(&held.at, Some(&held.coin))?;
            rest = more;
        }
        Ok(())
    }

    /// Undoes the tip's record, if all that is looked at fits.
    pub(crate) fn step(
        &mut self,
        alloc: Global,
        profile: Profile,
        tip: u32,
        undo: &'a Undo,
    ) -> Result<bool, NoMemory>
        requires { tip ≤ highest }
        ensures stepped { IfOk result (λ fits. Stepped profile tip (seen_undo undo.entry.now) (maps_below self.old) (maps_below self.new) fits) }
        ensures table { self.new.coins.under ≡ self.old.coins.under }
    {
        let ops = undo.ops.as_slice();
        let helds = undo.expired.as_slice();
        if !self.all_just_expired(profile, tip, helds) {
            return Ok(false);
        }
        if !self.all_before(profile, tip, ops) {
            return Ok(false);
        }
        self.restore(helds)?;
        if !self.undo_all(alloc, ops, tip)? {
            return Ok(false);
        }
        Ok(self.all_after(profile, tip, ops) && self.all_held_after(profile, tip, helds))
    }
}
