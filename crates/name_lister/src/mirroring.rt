//! The mirror of the chain's index, kept beside the bridge so that it can be pinned as it stands. It is there or, behind a want of memory,
//! not.

ghost use Rattle.std.specs.Prelude.{◌≡◌, ◌≢◌, ◌+◌, ◌≤◌};
ghost use Rattle.chain_state.specs.Chain.{Indexed};
ghost use Rattle.name_lister.specs.Costs.{mirror_undos};
ghost use Rattle.name_lister.specs.Kept.{IsMirrorNow, IsMirrorBefore};
ghost use Rattle.sliced_save.specs.Costs.{back_cost, forth_cost};

use bridge_core::codes;
use chain_state::Chain;
use frame_loop::ReplyBuf;
use nmc_base::{NoMemory, Steps};
use sliced_save::Mirror;
use std::alloc::Global;
use std::sync::ledger::Ledger;

/// The mirror behind the newest block, which has joined the chain.
fn joined<M: Ledger>(
    alloc: Global,
    mirror: Option<Mirror>,
    chain: &Chain,
    steps: &mut Steps<M>,
) -> Option<Mirror>
    ensures mirror { IsMirrorBefore chain.now mirror → IsMirrorNow chain.now result }
    ensures cost { steps.new ≤ steps.old + forth_cost chain.now.undos }
{
    match mirror {
        None => None,
        Some(mirror) => match mirror.connected(alloc, chain, steps) {
            Ok(mirror) => Some(mirror),
            Err(NoMemory) => None,
        },
    }
}

/// The mirror without the newest block, which has left the chain.
fn left<M: Ledger>(alloc: Global, mirror: Option<Mirror>, steps: &mut Steps<M>) -> Option<Mirror>
    ensures mirror { (index : Indexed) → IsMirrorNow index mirror → IsMirrorBefore index result }
    ensures cost { steps.new ≤ steps.old + back_cost (mirror_undos mirror) }
{
    match mirror {
        None => None,
        Some(mirror) => match mirror.disconnected(alloc, steps) {
            Ok(mirror) => Some(mirror),
            Err(NoMemory) => None,
        },
    }
}

/// The mirror behind a connect with this reply, which left this chain.
pub(crate) fn behind_connect<M: Ledger>(
    alloc: Global,
    mirror: Option<Mirror>,
    reply: &ReplyBuf,
    chain: &Chain,
    steps: &mut Steps<M>,
) -> Option<Mirror>
    ensures done { reply.now.code ≡ 0 → IsMirrorBefore chain.now mirror → IsMirrorNow chain.now result }
    ensures same { reply.now.code ≢ 0 → result ≡ mirror }
    ensures cost { steps.new ≤ steps.old + forth_cost chain.now.undos }
{
    if reply.code() != codes::DONE {
        return mirror;
    }
    joined(alloc, mirror, chain, steps)
}

/// The mirror behind a disconnect with this reply.
pub(crate) fn behind_disconnect<M: Ledger>(
    alloc: Global,
    mirror: Option<Mirror>,
    reply: &ReplyBuf,
    steps: &mut Steps<M>,
) -> Option<Mirror>
    ensures done { reply.now.code ≡ 0 → (index : Indexed) → IsMirrorNow index mirror → IsMirrorBefore index result }
    ensures same { reply.now.code ≢ 0 → result ≡ mirror }
    ensures cost { steps.new ≤ steps.old + back_cost (mirror_undos mirror) }
{
    if reply.code() != codes::DONE {
        return mirror;
    }
    left(alloc, mirror, steps)
}
