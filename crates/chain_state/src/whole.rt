//! Work that was done for a whole block, to be committed or abandoned.

ghost use Rattle.std.specs.Prelude.{◌≡◌, ◌+◌, ◌*◌, ◌<◌, ◌≤◌, suc, length, IfSome, IfNone, IfOk, IfErr};
ghost use Rattle.nmc_base.specs.Expiry.{expiry_depth};
ghost use Rattle.nmc_base.specs.Heights.{highest};
ghost use Rattle.chain_names.specs.Tables.{coins_in, queued_in, queue_of};
ghost use Rattle.chain_state.specs.Block.{IsReady};
ghost use Rattle.name_tables.specs.Tables.{AreFilled};
ghost use Rattle.name_tables.specs.Tables.{maps_by};
ghost use Rattle.chain_state.specs.Whole.{IsWhole, Finishes, Commits, maps_before_block};

use crate::work::Work;
use chain_names::{HeldCoin, KeptOp};
use name_tables::Tables;
use nmc_base::{Profile, RoomyList, Steps};
use std::alloc::Global;
use std::sync::ledger::Ledger;

/// Work that was done for a whole block, and the coins that expired with it.
#[derive(Drop)]
pub(crate) struct Whole {
    pub(crate) work: Work,
    pub(crate) expired: RoomyList<HeldCoin>,
}

/// The tables after a block, and what undoes it.
#[derive(Drop)]
pub(crate) struct Committed {
    pub(crate) tables: Tables,
    pub(crate) ops: RoomyList<KeptOp>,
    pub(crate) expired: RoomyList<HeldCoin>,
}

impl Work {
    /// Takes the coins away that are expired in the next block. Where memory runs out, the work is handed back as it was.
    pub(crate) fn finish<L: Ledger>(
        self,
        alloc: Global,
        profile: Profile,
        steps: &mut Steps<L>,
    ) -> Result<Whole, Work>
        requires { IsReady profile self }
        ensures ok { IfOk result (λ whole. Finishes profile self whole) }
        ensures err { IfErr result (λ work. work ≡ self) }
        ensures cost { IfOk result (λ whole. steps.new ≤ steps.old + 1 + 2 * length whole.work.ops.items + 4 * length whole.expired.items) }
    {
        let mut work = self;
        match profile.due(work.height + 1) {
            None => {
                let expired = RoomyList::new(alloc);
                Ok(Whole { work, expired })
            }
            Some(row) => match work.tables.expire(alloc, row, steps) {
                Ok(expired) => Ok(Whole { work, expired }),
                Err(_) => Err(work),
            },
        }
    }
}

impl Whole {
    /// Undoes the block's work, and hands the tables back as they were before it.
    pub(crate) fn abandon<L: Ledger>(self, steps: &mut Steps<L>) -> Tables
        requires { IsWhole self }
        ensures before { maps_by result ≡ maps_before_block self }
        ensures queue { queued_in result.queue ≡ queue_of (coins_in result.coins) }
        ensures filled { AreFilled result }
        ensures cost { steps.new ≤ steps.old + 8 * length self.work.ops.items + 2 * length self.work.empty.items + 2 * length self.expired.items }
    {
        let mut work = self.work;
        work.tables.restore(self.expired, steps);
        work.abandon(steps)
    }

    /// Gives the places up that the block emptied. It can't fail, and takes no memory.
    pub(crate) fn commit<L: Ledger>(self, steps: &mut Steps<L>) -> Committed
        requires { IsWhole self }
        ensures commits { Commits self result }
        ensures cost { steps.new ≤ steps.old + 2 * length self.work.ops.items + 2 * length self.expired.items }
    {
        let mut work = self.work;
        let expired = self.expired;
        work.tables
            .clear(work.ops.as_slice(), expired.as_slice(), steps);
        Committed {
            tables: work.tables,
            ops: work.ops,
            expired,
        }
    }
}
