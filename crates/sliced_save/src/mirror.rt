//! The mirror: the whole index once more, which can be pinned.

ghost use Rattle.std.specs.Prelude.{◌≡◌, ℕ, ◌+◌, ◌*◌, ◌≤◌, List, length, reverse, IfOk, OnOk};
ghost use Rattle.std.specs.Option.{option_map};
ghost use Rattle.nmc_base.specs.declared.chain_ends.Base.{Base};
ghost use Rattle.chain_names.specs.Coins.{history_of};
ghost use Rattle.chain_names.specs.Limits.{IsWithinLimits};
ghost use Rattle.chain_names.specs.Log.{Log, log_of};
ghost use Rattle.chain_names.specs.Seen.{seen_undo};
ghost use Rattle.chain_names.specs.Tables.{coins_in, names_in};
ghost use Rattle.image_grammar.specs.Text.{image_text, IsStateText};
ghost use Rattle.image_writer.specs.Whole.{IsReadAgain};
ghost use Rattle.name_tables.specs.Parts.{newest_first};
ghost use Rattle.name_tables.specs.Tables.{maps_by};
ghost use Rattle.undo_records.specs.declared.version.Version.TheVariants.{Two};
ghost use Rattle.chain_state.specs.Chain.{Indexed, IsIndexed};
ghost use Rattle.sliced_save.specs.Changes.{AreShortCoins, AreFitNames};
ghost use Rattle.sliced_save.specs.Costs.{back_cost, forth_cost, making_cost};
ghost use Rattle.sliced_save.specs.Kept.{IsKept};
ghost use Rattle.sliced_save.specs.Mirror.{MirrorsIndex, MirrorsBefore, MirrorsChain, items_at, mirror_image};
ghost use Rattle.sliced_save.specs.Rows.{AreRowsOf};
ghost use Rattle.sliced_save.specs.Steps.{IsForth, IsBack, newest_of};

use crate::back::undo_newest;
use crate::coins::MirrorCoins;
use crate::filling::{coins_of, names_of, undos_of};
use crate::forth::{grow_ops, refresh_helds, refresh_ops};
use crate::names::MirrorNames;
use crate::rows::Rows;
use crate::slices::Slices;
use crate::undos::MirrorUndos;
use crate::waste::MirrorWaste;
use chain_names::Undo;
use chain_state::Chain;
use image_writer::widths::read_hash;
use name_tables::Parts;
use nmc_base::{Base, NoMemory, Steps};
use std::alloc::Global;
use std::marker::Model;
use std::sync::ledger::Ledger;

/// The whole index of a chain once more, over maps whose pins share their nodes: its base, its records, its coins, and its names with
/// their items.
///
/// Contracts see all these as lists.
#[derive(Drop)]
pub struct Mirror {
    pub(crate) base: Base,
    pub(crate) undos: MirrorUndos,
    pub(crate) coins: MirrorCoins,
    pub(crate) names: MirrorNames,
}

impl Model for Mirror {
    ghost use Rattle.sliced_save.specs.Mirror.{Mirrored};

    ghost Value = { Mirrored };

    ghost view = { λ m. record { base = m.base; undos = m.undos; coins = m.coins; names = m.names } };
}

/// The newest of these records, that of the oldest block standing first.
fn newest(undos: &[Undo]) -> Option<&Undo>
    ensures { option_map (λ u. seen_undo u.now) result ≡ newest_of (newest_first undos.now) }
{
    match undos.last() {
        Some(undo) => Some(undo),
        None => None,
    }
}

impl Mirror {
    /// The mirror of a chain's index. Each coin and each name of the tables is looked at once. It takes the memory of the index once
    /// more, and that of the nodes of its maps. It is refused where memory runs out, and where the records, the coins or the names
    /// alone have more than 2^62 bytes in an image. What is put into the mirror is counted too.
    pub fn of<L: Ledger>(
        alloc: Global,
        chain: &Chain,
        steps: &mut Steps<L>,
    ) -> Result<Mirror, NoMemory>
        ensures mirror { IfOk result (MirrorsIndex chain.now) }
        // Each coin and each name is a step.
        ensures least { IfOk result (λ _. steps.old + (length chain.now.tables.coins + length chain.now.tables.names) ≤ steps.new) }
        ensures cost { steps.new ≤ steps.old + making_cost chain.now }
    {
        let parts = chain.parts();
        let undos = undos_of(alloc, parts.undos.as_slice(), steps)?;
        let coins = coins_of(alloc, &parts.coins, steps)?;
        let names = names_of(alloc, &parts.names, steps)?;
        Ok(Mirror {
            base: *chain.base(),
            undos,
            coins,
            names,
        })
    }

    /// The chain's newest block has joined it: each outpoint that the block touched is looked up, and so is each name that it gave a
    /// value, whose items of before stay where they are. Where it is refused, as `of` is, nothing is left of it.
    pub fn connected<L: Ledger>(
        self,
        alloc: Global,
        chain: &Chain,
        steps: &mut Steps<L>,
    ) -> Result<Mirror, NoMemory>
        ensures mirror { IfOk result (λ m. MirrorsBefore chain.now self → MirrorsIndex chain.now m) }
        // Each look-up in a table of the index is a step too.
        ensures cost { steps.new ≤ steps.old + forth_cost chain.now.undos }
    {
        let mut mirror = self;
        let parts = chain.parts();
        match newest(parts.undos.as_slice()) {
            None => Ok(mirror),
            Some(undo) => {
                mirror.bring_in(alloc, parts, undo, steps)?;
                Ok(mirror)
            }
        }
    }

    /// The mirror as it is once its newest block has left, by the record of that block that it keeps itself: in place, so far as nobody
    /// else stands over its parts. Where it is refused, as `of` is, nothing is left of it.
    pub fn disconnected<L: Ledger>(
        self,
        alloc: Global,
        steps: &mut Steps<L>,
    ) -> Result<Mirror, NoMemory>
        ensures mirror { IfOk result (λ m. (index : Indexed) → MirrorsIndex index self → MirrorsBefore index m) }
        ensures cost { steps.new ≤ steps.old + back_cost (reverse self.undos) }
    {
        let mut mirror = self;
        mirror.go_back(alloc, steps)?;
        Ok(mirror)
    }

    /// The mirror as it is once the chain's newest block has left it. This one stays as it is. It is refused as `of` is.
    pub fn disconnecting<L: Ledger>(
        &self,
        alloc: Global,
        chain: &Chain,
        steps: &mut Steps<L>,
    ) -> Result<Mirror, NoMemory>
        ensures mirror { IfOk result (λ m. MirrorsIndex chain.now self.now → MirrorsBefore chain.now m) }
        ensures cost { steps.new ≤ steps.old + back_cost (reverse self.now.undos) }
    {
        let _ = chain;
        let mirror = self.pin()?;
        let before = mirror.disconnected(alloc, steps)?;
        Ok(before)
    }

    /// An equal mirror, which stays as it is whatever becomes of this one. It takes no memory: it is refused only where a node can
    /// count no further holder.
    pub fn pin(&self) -> Result<Mirror, NoMemory>
        ensures { IfOk result (λ m. m ≡ self.now) }
    {
        let undos = self.undos.pin()?;
        let coins = self.coins.pin()?;
        let names = self.names.pin()?;
        let base = self.base;
        Ok(Mirror {
            base,
            undos,
            coins,
            names,
        })
    }

    /// The rows of its names as they are now: whatever becomes of this mirror, they stay. It takes no memory: it is refused only where a
    /// node can count no further holder.
    pub fn pin_rows(&self) -> Result<Rows, NoMemory>
        ensures rows { IfOk result (AreRowsOf (items_at self.now.names)) }
        // Of the mirror of a chain's index they are the rows of the chain's names.
        ensures chain { IfOk result (λ rows. (base : Base) (start : Log) (blocks : List (List ℕ)) → MirrorsChain base start blocks self.now
            → AreRowsOf (history_of (log_of start base.height blocks)) rows) }
    {
        self.keeps();
        let names = self.names.pin()?;
        Ok(Rows::of(names))
    }

    /// What is to be let go of where it is given up: nothing where others stand over the same parts. It takes no memory, and lets go
    /// at once of the records of blocks that it alone holds.
    pub(crate) fn into_waste(self) -> MirrorWaste {
        let Mirror {
            base: _,
            undos: _undos,
            coins,
            names,
        } = self;
        MirrorWaste {
            coins: coins.into_waste(),
            names: names.into_waste(),
        }
    }

    /// How many bytes the image of what it mirrors has, in version 2. It takes no walk and no memory.
    pub fn text_len(&self) -> u64
        ensures length { result ≡ length (image_text Two (mirror_image self.now)) }
        ensures state { (index : Indexed) (text : List ℕ) → MirrorsIndex index self.now → IsStateText Two index.base index.undos (maps_by index.tables) text → result ≡ length text }
    {
        self.keeps();
        self.counted()
    }

    /// The bytes of all parts, and of what stands around them.
    fn counted(&self) -> u64
        ensures { result ≡ length (image_text Two (mirror_image self.now)) }
    {
        read_hash(self.base.hash);
        // The head has 42 bytes, and each of the three counts has 4.
        54 + self.undos.text_len() + self.coins.text_len() + self.names.text_len()
    }

    /// The text of its image, in version 2, as it is now: whatever becomes of this mirror, the text stays. It takes no memory: it is
    /// refused only where a node can count no further holder.
    pub fn begin(&self) -> Result<Slices, NoMemory>
        ensures given { IfOk result (λ s. s.given ≡ 0) }
        ensures whole { IfOk result (λ s. s.text ≡ image_text Two (mirror_image self.now)) }
        ensures text { IfOk result (λ s. (index : Indexed) → MirrorsIndex index self.now → IsStateText Two index.base index.undos (maps_by index.tables) s.text) }
        // A text that isn't too long is read again.
        ensures again { IfOk result (λ s. (index : Indexed) → IsIndexed index → MirrorsIndex index self.now → IsReadAgain index.base index.undos (maps_by index.tables) s.text) }
    {
        self.keeps();
        let mirror = self.pin()?;
        Ok(Slices::of(mirror))
    }

    /// What is known of its parts.
    fn keeps(&self)
        ensures { IsKept self.now }
    {
        read_hash(self.base.hash);
        self.undos.text_len();
        self.coins.text_len();
        self.names.text_len();
    }

    /// What the block of this record, the newest in the parts, does.
    fn bring_in<L: Ledger>(
        &mut self,
        alloc: Global,
        parts: &Parts,
        undo: &Undo,
        steps: &mut Steps<L>,
    ) -> Result<(), NoMemory>
        requires limits { IsWithinLimits (seen_undo undo.now) }
        requires coins { AreShortCoins (coins_in parts.now.coins) }
        requires names { AreFitNames (names_in parts.now.names) }
        ensures forth { OnOk result (IsForth self.old parts.now.coins parts.now.names (seen_undo undo.now) self.new) }
        ensures cost { steps.new ≤ steps.old + (9 * length (seen_undo undo.now).ops + 3 * length (seen_undo undo.now).expired + 1) }
    {
        let ops = undo.ops.as_slice();
        refresh_ops(alloc, &mut self.coins, ops, &parts.coins, steps)?;
        refresh_helds(
            alloc,
            &mut self.coins,
            undo.expired.as_slice(),
            &parts.coins,
            steps,
        )?;
        grow_ops(alloc, &mut self.names, ops, &parts.names, steps)?;
        self.undos.push(alloc, undo, steps)?;
        Ok(())
    }

    /// What takes the newest block back, if there is one.
    fn go_back<L: Ledger>(&mut self, alloc: Global, steps: &mut Steps<L>) -> Result<(), NoMemory>
        ensures back { OnOk result (IsBack self.old self.new) }
        ensures cost { steps.new ≤ steps.old + back_cost (reverse self.old.undos) }
    {
        undo_newest(alloc, &mut self.coins, &mut self.names, &self.undos, steps)?;
        self.undos.pop(steps);
        Ok(())
    }
}
