//! Groups of an IPv6 address.

ghost use Rattle.std.specs.Prelude.{◌≡◌, ◌≤◌, ◌<◌, ◌++◌, ◌∷◌, [], length};
ghost use Rattle.domain_text.specs.Ipv6.{if_few, if_eight as if_eight_of, with_gap as with_gap_of};

use std::marker::Model;

/// At most eight groups of 16 bits. Contracts see their list.
#[derive(Drop)]
pub(crate) struct Groups {
    values: [u16; 8],
    len: usize,
}

impl Model for Groups {
    ghost use Rattle.std.specs.Prelude.{List, ℕ, take, ◌≤◌};

    ghost Value = { List ℕ };

    ghost view = { λ g. take g.len g.values };

    ghost invariant = { λ g. g.len ≤ 8 };
}

impl Groups {
    /// No group yet.
    pub(crate) fn empty() -> Groups
        ensures { result ≡ [] }
    {
        Groups {
            values: [0; 8],
            len: 0,
        }
    }

    /// One group more, where there are fewer than eight.
    pub(crate) fn push(self, group: u16) -> Option<Groups>
        ensures { result ≡ if_few (self ++ group ∷ []) }
    {
        let Groups { values, len } = self;
        if len >= 8 {
            return None;
        }
        let mut values = values;
        values[len] = group;
        Some(Groups {
            values,
            len: len + 1,
        })
    }

    /// The groups, where they are eight.
    pub(crate) fn if_eight(&self) -> Option<[u16; 8]>
        ensures { result ≡ if_eight_of self.now }
    {
        if self.len == 8 {
            Some(self.values)
        } else {
            None
        }
    }

    /// These groups, those that are missing, which are zero, and the others. None where none is missing.
    pub(crate) fn with_gap(&self, right: &Groups) -> Option<[u16; 8]>
        ensures { result ≡ with_gap_of self.now right.now }
    {
        if self.len + right.len >= 8 {
            return None;
        }
        let mut all = [0; 8];
        all[..self.len].copy_from_slice(&self.values[..self.len]);
        all[8 - right.len..].copy_from_slice(&right.values[..right.len]);
        Some(all)
    }
}
