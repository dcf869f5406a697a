//! The turn of datagrams behind a piece of the feed.
ghost use Rattle.std.specs.Prelude.{◌≡◌, ◌+◌, ◌<◌, ◌≤◌, ◌↔◌, IsTrue};

use crate::clock::MILLISECOND;

/// The longest turn: 50 ms.
const LONGEST: u64 = 50 * MILLISECOND;

/// Until when datagrams have a turn; 0 where they have none.
#[derive(Clone, Copy)]
pub(crate) struct Turn {
    until: u64,
}

impl Turn {
    pub(crate) fn none() -> Turn
        ensures { result.until ≡ 0 }
    {
        Turn { until: 0 }
    }

    /// A turn that begins now.
    pub(crate) fn new(now: u64) -> Turn
        ensures { result.until ≤ now + 50000 }
    {
        Turn {
            until: now.saturating_add(LONGEST),
        }
    }

    /// Whether datagrams have it.
    pub(crate) fn is_on(self) -> bool
        ensures { IsTrue result ↔ (0 < self.until) }
    {
        self.until > 0
    }

    /// What is left of it now: none where its time is over.
    pub(crate) fn left(self, now: u64) -> Turn
        ensures over { self.until ≤ now → result.until ≡ 0 }
        ensures none { self.until ≡ 0 → result.until ≡ 0 }
    {
        if now < self.until { self } else { Turn::none() }
    }
}
