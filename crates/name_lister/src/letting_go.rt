//! What is dear to let go of is let go of here alone: each place of it would be proved anew.

use crate::answering::Running;
use crate::leavings::{Leaving, Leavings, coins_leaving, names_leaving};
use crate::lister::{ListTurned, Lister};
use crate::saving::Saving;
use listing_sessions::Sessions;
use sliced_save::{Mirror, MirrorWaste, Slices};
use std::sync::ledger::Ledger;

pub(crate) fn let_leaving_go(_leaving: Leaving) {}

fn let_some_go(leaving: Option<Leaving>) {
    if let Some(leaving) = leaving {
        let_leaving_go(leaving);
    }
}

/// What a text of slices was pinned over.
pub(crate) fn let_slices_go(slices: Slices) {
    let MirrorWaste { coins, names } = slices.into_waste();
    let_some_go(coins_leaving(coins));
    let_some_go(names_leaving(names));
}

pub(crate) fn let_leavings_go(_leavings: Leavings) {}

fn let_mirror_go(_mirror: Option<Mirror>) {}

pub(crate) fn let_saving_go(saving: Option<Saving>) {
    if let Some(saving) = saving {
        let Saving { draft: _, slices } = saving;
        let_slices_go(slices);
    }
}

/// What a lister keeps beside its bridge.
pub(crate) fn let_rest_go(mirror: Option<Mirror>, _sessions: Sessions, saving: Option<Saving>) {
    let_mirror_go(mirror);
    let_saving_go(saving);
}

fn let_lister_go(lister: Lister) {
    let Lister {
        bridge,
        mirror,
        sessions,
        page: _,
        saving,
    } = lister;
    bridge.let_go();
    let_rest_go(mirror, sessions, saving);
}

pub(crate) fn let_go(turned: ListTurned) {
    if let ListTurned::On(lister) = turned {
        let_lister_go(lister);
    }
}

/// All that a run kept.
pub(crate) fn let_all_go<M: Ledger>(running: Running<M>) {
    let Running {
        turned,
        leavings,
        mirror_steps: _mirror_steps,
    } = running;
    let_go(turned);
    let_leavings_go(leavings);
}
