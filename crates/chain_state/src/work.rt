//! Work on the tables for one block, which can be undone.

ghost use Rattle.std.specs.Prelude.{◌≡◌, ◌+◌, ◌*◌, ◌≤◌, ◌∷◌, [], length, None, Some, IfOk, OnOk, OnErr};
ghost use Rattle.chain_names.specs.declared.undo.UndoOp.TheVariants.{New as undo_new};
ghost use Rattle.chain_names.specs.declared.coin.Coin.{Coin};
ghost use Rattle.chain_names.specs.Coins.{entry_of, opened, updated};
ghost use Rattle.chain_names.specs.Tables.{coins_in, names_in, queued_in, queue_of};
ghost use Rattle.name_tables.specs.Moving.{given};
ghost use Rattle.chain_names.specs.Changes.{back_op, back_ops, moved, moved_back};
ghost use Rattle.name_tables.specs.Tables.{HoldSame, AreFilled};
ghost use Rattle.name_tables.specs.Tables.{maps_by};
ghost use Rattle.chain_state.specs.Work.{IsWork, Advances, Halts, ShiftsOnly, GoesBack, Undoes, maps_before, with_commitment, with_op, undo_of_opening, undo_of_update};

use chain_names::{Change, ChangeRoom, Coin, KeptOp, UndoOp};
use name_tables::{Move, Shift, Tables};
use nmc_base::{Hash20, NoMemory, OutPoint, RoomyList, Steps};
use std::alloc::Global;
use std::sync::ledger::Ledger;

/// Work on the tables for one block.
#[derive(Drop)]
pub(crate) struct Work {
    pub(crate) tables: Tables,
    /// What undoes the work, from its beginning on.
    pub(crate) ops: RoomyList<KeptOp>,
    /// Outpoints whose places may be empty, beside those that the operations spent.
    pub(crate) empty: RoomyList<OutPoint>,
    /// The height of the block.
    pub(crate) height: u32,
}

/// What a name's move away from this output left.
fn change_of(spent: OutPoint, shift: Shift) -> Change
    ensures { result ≡ record { spent = spent; coin = shift.coin; name = shift.name; before = shift.before } }
{
    Change {
        spent,
        coin: shift.coin,
        name: shift.name,
        before: shift.before,
    }
}

impl Work {
    /// A commitment is made.
    pub(crate) fn commit_to<L: Ledger>(
        &mut self,
        made: OutPoint,
        hash: Hash20,
        steps: &mut Steps<L>,
    ) -> Result<(), NoMemory>
        requires work { IsWork self.old }
        requires fresh { coins_in self.old.tables.coins made ≡ None }
        ensures ok { OnOk result (Advances self.old self.new (undo_new made ∷ []) (with_commitment (maps_by self.old.tables) self.old.height made hash)) }
        ensures err { OnErr result (Halts self.old self.new) }
        ensures cost { OnOk result (steps.new ≤ steps.old + 2) }
    {
        let room = self.ops.len().checked_add(2).ok_or(NoMemory)?;
        self.empty.reserve(room)?;
        self.ops.reserve(1)?;
        self.tables.coins.place(made, steps)?;
        let height = self.height;
        self.tables
            .coins
            .put(&made, Coin::New { hash, height }, steps);
        self.ops.push(KeptOp::commitment(made));
        Ok(())
    }

    /// A name moves from an outpoint to another one, and there is room for what undoes it.
    fn shift<L: Ledger>(
        &mut self,
        alloc: Global,
        kind: Move,
        spent: &OutPoint,
        made: &OutPoint,
        name: &[u8],
        value: &[u8],
        steps: &mut Steps<L>,
    ) -> Result<Shift, NoMemory>
        requires work { IsWork self.old }
        requires held { (coin : Coin) × (coins_in self.old.tables.coins spent.now ≡ Some coin) }
        requires fresh { coins_in self.old.tables.coins made.now ≡ None }
        ensures ok { let item = given kind (entry_of (names_in self.old.tables.names name.now)) self.old.height made.now value.now in IfOk result (λ s. ShiftsOnly self.old self.new spent.now name.now item s) }
        ensures err { OnErr result (Halts self.old self.new) }
        ensures cost { OnOk result (steps.new ≤ steps.old + 9) }
    {
        let room = self.ops.len().checked_add(2).ok_or(NoMemory)?;
        self.empty.reserve(room)?;
        self.ops.reserve(1)?;
        match self
            .tables
            .shift(alloc, kind, spent, made, name, value, self.height, steps)
        {
            Ok(shift) => Ok(shift),
            Err(error) => {
                self.empty.push(*made);
                Err(error)
            }
        }
    }

    /// A name is opened.
    pub(crate) fn open<L: Ledger>(
        &mut self,
        alloc: Global,
        spent: &OutPoint,
        made: &OutPoint,
        name: &[u8],
        value: &[u8],
        steps: &mut Steps<L>,
    ) -> Result<(), NoMemory>
        requires work { IsWork self.old }
        requires held { (coin : Coin) × (coins_in self.old.tables.coins spent.now ≡ Some coin) }
        requires fresh { coins_in self.old.tables.coins made.now ≡ None }
        ensures ok { OnOk result (Advances self.old self.new (undo_of_opening (maps_by self.old.tables) made.now spent.now name.now) (moved (maps_by self.old.tables) spent.now name.now (opened self.old.height made.now value.now))) }
        ensures err { OnErr result (Halts self.old self.new) }
        ensures cost { OnOk result (steps.new ≤ steps.old + 9) }
    {
        let room = ChangeRoom::new(alloc)?;
        let shift = self.shift(alloc, Move::Opening, spent, made, name, value, steps)?;
        self.ops.push(room.first(*made, change_of(*spent, shift)));
        Ok(())
    }

    /// A name is given a new value.
    pub(crate) fn update<L: Ledger>(
        &mut self,
        alloc: Global,
        spent: &OutPoint,
        made: &OutPoint,
        name: &[u8],
        value: &[u8],
        steps: &mut Steps<L>,
    ) -> Result<(), NoMemory>
        requires work { IsWork self.old }
        requires held { (coin : Coin) × (coins_in self.old.tables.coins spent.now ≡ Some coin) }
        requires fresh { coins_in self.old.tables.coins made.now ≡ None }
        ensures ok { OnOk result (Advances self.old self.new (undo_of_update (maps_by self.old.tables) made.now spent.now name.now) (moved (maps_by self.old.tables) spent.now name.now (updated (entry_of (names_in self.old.tables.names name.now)) self.old.height made.now value.now))) }
        ensures err { OnErr result (Halts self.old self.new) }
        ensures cost { OnOk result (steps.new ≤ steps.old + 9) }
    {
        let room = ChangeRoom::new(alloc)?;
        let shift = self.shift(alloc, Move::Update, spent, made, name, value, steps)?;
        self.ops.push(room.update(*made, change_of(*spent, shift)));
        Ok(())
    }

    /// Takes a commitment back, whose undo operation was taken off the list.
    fn undo_commitment<L: Ledger>(&mut self, made: OutPoint, steps: &mut Steps<L>)
        requires { IsWork (with_op self.old (undo_new made)) }
        ensures back { GoesBack self.old self.new (back_op (undo_new made) (maps_by self.old.tables)) self.old.ops.items }
        ensures emptied { length self.new.empty.items ≤ length self.old.empty.items + 1 }
        ensures cost { steps.new ≤ steps.old + 1 }
    {
        drop(self.tables.coins.take(&made, steps));
        self.empty.push(made);
    }

    /// Moves a name back, whose undo operation was taken off the list.
    fn undo_shift<L: Ledger>(
        &mut self,
        spent: OutPoint,
        coin: Coin,
        made: OutPoint,
        name: &[u8],
        steps: &mut Steps<L>,
    )
        requires { Undoes self.old made spent coin name.now }
        ensures back { GoesBack self.old self.new (moved_back (maps_by self.old.tables) made spent coin name.now) self.old.ops.items }
        ensures emptied { length self.new.empty.items ≤ length self.old.empty.items + 1 }
        ensures cost { steps.new ≤ steps.old + 6 }
    {
        self.tables.shift_back(&spent, coin, &made, name, steps);
        self.empty.push(made);
    }

    /// Undoes the last operation, which was taken off the list.
    fn undo<L: Ledger>(&mut self, op: UndoOp, steps: &mut Steps<L>)
        requires { IsWork (with_op self.old op) }
        ensures back { GoesBack self.old self.new (back_op op (maps_by self.old.tables)) self.old.ops.items }
        ensures emptied { length self.new.empty.items ≤ length self.old.empty.items + 1 }
        ensures cost { steps.new ≤ steps.old + 6 }
    {
        match op {
            UndoOp::New { made } => self.undo_commitment(made, steps),
            UndoOp::First {
                made,
                spent,
                coin,
                name,
                ..
            } => self.undo_shift(spent, coin, made, name.as_slice(), steps),
            UndoOp::Update {
                made,
                spent,
                coin,
                name,
                ..
            } => self.undo_shift(spent, coin, made, name.as_slice(), steps),
        }
    }

    /// Undoes all operations, from the last to the first.
    pub(crate) fn undo_all<L: Ledger>(&mut self, steps: &mut Steps<L>)
        requires { IsWork self.old }
        ensures back { GoesBack self.old self.new (back_ops self.old.ops.items (maps_by self.old.tables)) [] }
        ensures emptied { length self.new.empty.items ≤ length self.old.empty.items + length self.old.ops.items }
        ensures cost { steps.new ≤ steps.old + 6 * length self.old.ops.items }
    {
        while let Some(op) = self.ops.pop() {
            self.undo(op.into_op(), steps);
        }
    }

    /// Gives the places up that are empty, where no operation is left.
    fn give_up_empty<L: Ledger>(&mut self, steps: &mut Steps<L>)
        requires work { IsWork self.old }
        requires none_left { self.old.ops.items ≡ [] }
        ensures same { HoldSame self.old.tables self.new.tables }
        ensures filled { AreFilled self.new.tables }
        ensures cost { steps.new ≤ steps.old + 2 * length self.old.empty.items }
    {
        while let Some(at) = self.empty.pop() {
            self.tables.coins.unplace(&at, steps);
            self.tables.queue.unplace(self.height, &at, steps);
        }
    }

    /// Undoes the work, and hands the tables back as they were before it.
    pub(crate) fn abandon<L: Ledger>(self, steps: &mut Steps<L>) -> Tables
        requires { IsWork self }
        ensures before { maps_by result ≡ maps_before self }
        ensures queue { queued_in result.queue ≡ queue_of (coins_in result.coins) }
        ensures filled { AreFilled result }
        ensures cost { steps.new ≤ steps.old + 8 * length self.ops.items + 2 * length self.empty.items }
    {
        let mut work = self;
        work.undo_all(steps);
        work.give_up_empty(steps);
        work.tables
    }
}
