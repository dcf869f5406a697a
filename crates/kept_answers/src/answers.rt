//! The answers that are kept until a block joins or leaves the chain.

ghost use Rattle.std.specs.Prelude.{◌≡◌, IfOk};
ghost use Rattle.kept_answers.specs.Answering.{none_kept, outdated};

use crate::limits::MOST_KEPT;
use answer_cache::Cache;
use import_expand::Room;
use nmc_base::NoMemory;
use std::alloc::Global;
use std::marker::Model;

/// The answers that are kept: up to 1,024, each for those who ask the same, in whatever case, until a block joins or leaves the chain.
/// Contracts see the cache, and how many connects and disconnects were accepted.
#[derive(Drop)]
pub struct Answers {
    pub(crate) cache: Cache,
    pub(crate) accepted: u64,
    /// For the objects and the nodes of one message.
    pub(crate) room: Room,
}

impl Model for Answers {
    ghost use Rattle.kept_answers.specs.Answering.{Answering};
    ghost use Rattle.kept_answers.specs.Whole.{AreWhole};

    ghost Value = { Answering };

    ghost view = { λ a. record { cache = a.cache; accepted = a.accepted } };

    ghost invariant = { λ a. AreWhole a.cache.entries };
}

impl Answers {
    /// None yet.
    pub fn new(alloc: Global) -> Result<Answers, NoMemory>
        ensures { IfOk result (λ answers. answers ≡ none_kept) }
    {
        Ok(Answers {
            cache: Cache::new(alloc, MOST_KEPT)?,
            accepted: 0,
            room: Room::new(alloc),
        })
    }

    /// The cache of answers, with its counts.
    pub fn cache(&self) -> &Cache
        ensures { result.now ≡ self.now.cache }
    {
        &self.cache
    }

    /// A connect or a disconnect was accepted: no answer from before is given again. After 2^64 - 1 of them none is given or kept.
    pub fn outdate(&mut self)
        ensures { self.new ≡ outdated self.old }
    {
        self.accepted = self.accepted.saturating_add(1);
    }
}
