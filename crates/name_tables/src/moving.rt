//! A name that moves to another output, with its new value.

ghost use Rattle.std.specs.Prelude.{◌≡◌, ℕ, ◌+◌, ◌≤◌, true, None, Some, IfOk, OnOk, OnErr};
ghost use Rattle.chain_names.specs.declared.coin.Coin.{Coin};
ghost use Rattle.chain_names.specs.Coins.{entry_of};
ghost use Rattle.chain_names.specs.Tables.{coins_in, coin_places, names_in, name_places, room_in, queued_in, queue_places, queue_of, is_named_at, AreNamesFilled};
ghost use Rattle.name_tables.specs.Tables.{HoldSame};
ghost use Rattle.name_tables.specs.Moving.{registered_by, given, MayHavePlaces, Shifts, ShiftsBack};
ghost use Rattle.name_tables.specs.MovingSteps.{IsCopied, HasPlaces, MovesName};

use crate::tables::Tables;
use chain_names::{Coin, Item};
use nmc_base::{Boxed, Bytes, CompactBytes, NoMemory, OutPoint, Steps};
use std::alloc::Global;
use std::sync::ledger::Ledger;

/// How a name moves.
#[derive(Clone, Copy)]
pub enum Move {
    /// It is opened: its registration begins.
    Opening,
    /// It is given another value: its registration goes on.
    Update,
}

impl Move {
    /// The height at which the registration of the value began that a block of this height gives, behind the value before.
    fn registered(self, before: &Option<Boxed<Item>>, height: u32) -> u32
        ensures { result ≡ registered_by self before.now height }
    {
        match (self, before) {
            (Move::Update, Some(item)) => item.as_ref().registered,
            _ => height,
        }
    }
}

/// What a name's move needs of its own: the name for the new coin and for what is left, the new value, and the one before.
#[derive(Drop)]
struct Copies {
    own: CompactBytes,
    kept: CompactBytes,
    item: Item,
    before: Option<Boxed<Item>>,
}

/// What a name's move leaves: the coin that was spent, a copy of the name, and the value that it had before.
#[derive(Drop)]
pub struct Shift {
    pub coin: Coin,
    pub name: CompactBytes,
    pub before: Option<Boxed<Item>>,
}

impl Tables {
    /// A copy of a name's entry.
    fn entry_copy<L: Ledger>(
        &self,
        alloc: Global,
        name: &[u8],
        steps: &mut Steps<L>,
    ) -> Result<Option<Boxed<Item>>, NoMemory>
        ensures copy { IfOk result (λ before. before ≡ entry_of (names_in self.now.names name.now)) }
        ensures cost { steps.new ≡ steps.old + 1 }
    {
        match self.names.last(name, steps) {
            None => Ok(None),
            Some(item) => {
                let value = Bytes::copy_of(alloc, item.value.as_slice())?;
                let copy = Item {
                    height: item.height,
                    registered: item.registered,
                    at: item.at,
                    value,
                };
                Ok(Some(Boxed::new(alloc, copy)?))
            }
        }
    }

    /// The copies that a name's move needs.
    fn copies<L: Ledger>(
        &self,
        alloc: Global,
        kind: Move,
        made: OutPoint,
        name: &[u8],
        value: &[u8],
        height: u32,
        steps: &mut Steps<L>,
    ) -> Result<Copies, NoMemory>
        ensures copied { IfOk result (λ copies. IsCopied self.now name.now (given kind (entry_of (names_in self.now.names name.now)) height made value.now) copies) }
        ensures cost { steps.new ≤ steps.old + 1 }
    {
        let own = CompactBytes::copy_of(alloc, name)?;
        let kept = CompactBytes::copy_of(alloc, name)?;
        let value = Bytes::copy_of(alloc, value)?;
        let before = self.entry_copy(alloc, name, steps)?;
        let item = Item {
            height,
            registered: kind.registered(&before, height),
            at: made,
            value,
        };
        Ok(Copies {
            own,
            kept,
            item,
            before,
        })
    }

    /// Makes the places that a name's next output needs. Where memory runs out, those of the outpoint may stay; the
    /// name has none that it hadn't.
    fn make_places<L: Ledger>(
        &mut self,
        made: &OutPoint,
        name: &[u8],
        height: u32,
        steps: &mut Steps<L>,
    ) -> Result<(), NoMemory>
        ensures same { HoldSame self.old self.new }
        ensures ok { OnOk result (HasPlaces self.old self.new made.now name.now height) }
        ensures err { OnErr result (MayHavePlaces self.old self.new made.now height) }
        ensures cost { steps.new ≤ steps.old + 3 }
    {
        self.coins.place(*made, steps)?;
        self.queue.place(height, *made, steps)?;
        self.names.place(name, 1, steps)
    }

    /// Moves a name from an outpoint to that of its new value, whose places are there.
    fn move_name<L: Ledger>(
        &mut self,
        spent: &OutPoint,
        name: &[u8],
        copies: Copies,
        steps: &mut Steps<L>,
    ) -> Shift
        requires queue { queued_in self.old.queue ≡ queue_of (coins_in self.old.coins) }
        requires held { (coin : Coin) × (coins_in self.old.coins spent.now ≡ Some coin) }
        requires fresh { coins_in self.old.coins copies.item.at ≡ None }
        requires place { coin_places self.old.coins copies.item.at ≡ true }
        requires row { queue_places self.old.queue copies.item.height copies.item.at ≡ true }
        requires named { name_places self.old.names name.now ≡ true }
        requires room { 1 ≤ room_in self.old.names name.now }
        ensures moves { MovesName self.old self.new spent.now name.now copies result }
        ensures cost { steps.new ≤ steps.old + 5 }
    {
        let coin = match self.take_coin(spent, steps) {
            Some(coin) => coin,
            None => unreachable!(),
        };
        let Copies {
            own,
            kept,
            item,
            before,
        } = copies;
        let name_coin = Coin::Named {
            name: own,
            height: item.height,
        };
        self.put_coin(&item.at, name_coin, steps);
        self.names.push(name, item, steps);
        Shift {
            coin,
            name: kept,
            before,
        }
    }

    /// Moves a name from an outpoint to another one, in a block of this height, and gives it a value. Where memory
    /// runs out, nothing is done but that places for the new outpoint may stay.
    pub fn shift<L: Ledger>(
        &mut self,
        alloc: Global,
        kind: Move,
        spent: &OutPoint,
        made: &OutPoint,
        name: &[u8],
        value: &[u8],
        height: u32,
        steps: &mut Steps<L>,
    ) -> Result<Shift, NoMemory>
        requires queue { queued_in self.old.queue ≡ queue_of (coins_in self.old.coins) }
        requires held { (coin : Coin) × (coins_in self.old.coins spent.now ≡ Some coin) }
        requires fresh { coins_in self.old.coins made.now ≡ None }
        ensures ok { let item = given kind (entry_of (names_in self.old.names name.now)) height made.now value.now in IfOk result (λ s. Shifts self.old self.new spent.now name.now item s) }
        ensures same { OnErr result (HoldSame self.old self.new) }
        ensures err { OnErr result (MayHavePlaces self.old self.new made.now height) }
        ensures cost { steps.new ≤ steps.old + 9 }
    {
        let copies = self.copies(alloc, kind, *made, name, value, height, steps)?;
        self.make_places(made, name, height, steps)?;
        Ok(self.move_name(spent, name, copies, steps))
    }

    /// Moves a name back to the outpoint that was spent, and takes its last value away.
    pub fn shift_back<L: Ledger>(
        &mut self,
        spent: &OutPoint,
        coin: Coin,
        made: &OutPoint,
        name: &[u8],
        steps: &mut Steps<L>,
    )
        requires queue { queued_in self.old.queue ≡ queue_of (coins_in self.old.coins) }
        requires free { coins_in self.old.coins spent.now ≡ None }
        requires place { coin_places self.old.coins spent.now ≡ true }
        requires row { (height : ℕ) → is_named_at height (Some coin) ≡ true → queue_places self.old.queue height spent.now ≡ true }
        requires names { AreNamesFilled self.old.names }
        ensures back { ShiftsBack self.old self.new spent.now coin made.now name.now }
        ensures cost { steps.new ≤ steps.old + 6 }
    {
        drop(self.take_coin(made, steps));
        drop(self.names.pop(name, steps));
        self.names.unplace(name, steps);
        self.put_coin(spent, coin, steps);
    }
}
