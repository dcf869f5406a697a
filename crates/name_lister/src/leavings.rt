//! What closed sessions and ended saves alone held, let go of some parts at each event.

ghost use Rattle.std.specs.Prelude.{◌≡◌, ◌+◌, ◌-◌, ◌<◌, ◌≤◌, ◌++◌, ◌∷◌, [], length, nat_eq, vec_capacity, vec_len, IfOk};
ghost use Rattle.name_lister.specs.Leavings.{LetsSomeGo, parts_of, total};

use crate::letting_go::let_leaving_go;
use chain_names::{Coin, Item};
use listing_sessions::Rows;
use nmc_base::{NoMemory, OutPoint};
use pin_views::{MapWaste, NameKey, SharedStack};
use sliced_save::{MirrorWaste, Slices};
use std::alloc::Global;
use std::marker::Model;

/// At each event no more parts are let go of, the one at the top of each map counted.
pub const LET_GO_AT_ONCE: usize = 5;

/// So many maps wait at most. What a further one held is let go of at once.
pub const MOST_LEAVINGS: usize = 16;

/// A map that nobody looks at any more.
#[derive(Drop)]
pub enum Leaving {
    Coins(MapWaste<OutPoint, Coin>),
    Names(MapWaste<NameKey, SharedStack<Item>>),
}

impl Leaving {
    /// Lets go of so many parts below the top; answers whether none of these is left.
    fn let_go(&mut self, most: usize) -> bool
        ensures count { parts_of self.new ≡ parts_of self.old - most }
        ensures done { result ≡ nat_eq (parts_of self.new) 0 }
    {
        match self {
            Leaving::Coins(waste) => waste.let_go(most),
            Leaving::Names(waste) => waste.let_go(most),
        }
    }
}

/// The maps that wait to be let go of.
///
/// Contracts see each, with how many parts are left of it below its top.
#[derive(Drop)]
pub struct Leavings {
    kept: Vec<Leaving>,
}

impl Model for Leavings {
    ghost use Rattle.std.specs.Prelude.{◌≤◌, List, vec_capacity};
    ghost use Rattle.name_lister.specs.declared.leavings.Leaving.{Leaving};
    ghost use Rattle.name_lister.specs.declared.leavings.TheConstants.{MOST_LEAVINGS};

    ghost Value = { List Leaving };

    ghost view = { λ l. l.kept.items };

    ghost invariant = { λ l. MOST_LEAVINGS ≤ vec_capacity l.kept };
}

pub(crate) fn coins_leaving(waste: Option<MapWaste<OutPoint, Coin>>) -> Option<Leaving> {
    match waste {
        None => None,
        Some(waste) => Some(Leaving::Coins(waste)),
    }
}

pub(crate) fn names_leaving(
    waste: Option<MapWaste<NameKey, SharedStack<Item>>>,
) -> Option<Leaving> {
    match waste {
        None => None,
        Some(waste) => Some(Leaving::Names(waste)),
    }
}

/// Puts a map behind the others. There is room for it.
fn put(kept: &mut Vec<Leaving>, leaving: Leaving)
    requires { vec_len kept.old < vec_capacity kept.old }
    ensures items { kept.new.items ≡ kept.old.items ++ leaving ∷ [] }
    ensures capacity { vec_capacity kept.old ≤ vec_capacity kept.new }
{
    match kept.push(leaving) {
        Ok(()) => (),
        Err(_) => unreachable!(),
    }
}

impl Leavings {
    /// Nothing waits. All the memory that it ever needs is taken here.
    pub fn new(alloc: Global) -> Result<Leavings, NoMemory>
        ensures { IfOk result (λ leavings. leavings ≡ []) }
    {
        let kept = Vec::with_capacity(alloc, MOST_LEAVINGS)?;
        Ok(Leavings { kept })
    }

    /// Lets go of some parts of the last, and of the last with them where none is left.
    pub(crate) fn let_go(&mut self)
        ensures { LetsSomeGo self.old self.new }
    {
        match self.kept.pop() {
            None => (),
            Some(leaving) => {
                let mut leaving = leaving;
                if leaving.let_go(LET_GO_AT_ONCE - 1) {
                    let_leaving_go(leaving);
                } else {
                    put(&mut self.kept, leaving);
                }
            }
        }
    }

    /// A map more waits, if it isn't one too many.
    fn add(&mut self, leaving: Leaving)
        ensures room { length self.old < MOST_LEAVINGS → self.new ≡ self.old ++ leaving ∷ [] }
        ensures full { MOST_LEAVINGS ≤ length self.old → self.new ≡ self.old }
    {
        if self.kept.len() < MOST_LEAVINGS {
            put(&mut self.kept, leaving);
        } else {
            let_leaving_go(leaving);
        }
    }

    /// A map more waits, if there is one.
    fn add_some(&mut self, leaving: Option<Leaving>)
        ensures { total self.old ≤ total self.new }
    {
        if let Some(leaving) = leaving {
            self.add(leaving);
        }
    }

    /// The rows of a session that was closed wait, where they aren't another's too.
    pub(crate) fn add_rows(&mut self, rows: Option<Rows>)
        ensures { total self.old ≤ total self.new }
    {
        if let Some(rows) = rows {
            self.add_some(names_leaving(rows.into_waste()));
        }
    }

    /// What a save in slices that ended had pinned waits likewise.
    pub(crate) fn add_slices(&mut self, slices: Slices)
        ensures { total self.old ≤ total self.new }
    {
        let MirrorWaste { coins, names } = slices.into_waste();
        self.add_some(coins_leaving(coins));
        self.add_some(names_leaving(names));
    }
}
