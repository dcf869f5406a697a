//! How a name stands, and what a block does to it.

ghost use Rattle.std.specs.Prelude.{◌≡◌, ◌+◌, nat_le};
ghost use Rattle.std.specs.Option.{option_map};
ghost use Rattle.generated_chain.specs.Stands.{deed_at, made_at as made_of, stand_by};

use nmc_base::OutPoint;

/// An output that a name transaction made, and the height of its block.
#[derive(Clone, Copy)]
pub struct Made {
    /// The height of the block.
    pub height: u32,
    /// The first output of its second transaction.
    pub output: OutPoint,
}

/// How a name stands: its NAME_NEW that waits to be opened, and its last change.
#[derive(Clone, Copy)]
pub struct Stand {
    /// Its NAME_NEW that no block has opened yet.
    pub waiting: Option<Made>,
    /// What opened or updated it last.
    pub changed: Option<Made>,
}

/// What a block does to a name.
#[derive(Clone, Copy)]
pub enum Deed {
    /// Nothing, since its NAME_NEW isn't old enough.
    Nothing,
    /// OP_NAME_NEW.
    Commit,
    /// OP_NAME_FIRSTUPDATE, which spends this output of the NAME_NEW.
    Open(Made),
    /// OP_NAME_UPDATE, which spends this output of the last change.
    Update(Made),
}

/// So many blocks behind it a NAME_NEW is opened.
const MATURITY: u32 = 12;

/// So many blocks behind its last change a name is no more updated.
const EXPIRY: u32 = 30;

impl Made {
    /// Whether it is so many blocks old at a height.
    fn is_old(&self, blocks: u32, height: u32) -> bool
        ensures { result ≡ nat_le (self.now.height + blocks) height }
    {
        u64::from(self.height) + u64::from(blocks) <= u64::from(height)
    }
}

/// What a block at a height made.
pub(crate) fn made_at(height: u32, output: Option<OutPoint>) -> Option<Made>
    ensures { result ≡ option_map (made_of height) output }
{
    output.map(|output| Made { height, output })
}

impl Stand {
    /// A name that no block was about.
    pub(crate) const UNKNOWN: Stand = Stand {
        waiting: None,
        changed: None,
    };

    /// What a block at a height does to it.
    pub(crate) fn deed(&self, height: u32) -> Deed
        ensures { result ≡ deed_at height self.now }
    {
        match (self.waiting, self.changed) {
            (Some(commitment), _) => {
                if commitment.is_old(MATURITY, height) {
                    Deed::Open(commitment)
                } else {
                    Deed::Nothing
                }
            }
            (None, Some(change)) => {
                if change.is_old(EXPIRY, height) {
                    Deed::Commit
                } else {
                    Deed::Update(change)
                }
            }
            (None, None) => Deed::Commit,
        }
    }

    /// How it stands behind a block that did this, by what it made.
    pub(crate) fn behind(&self, deed: &Deed, made: Option<Made>) -> Stand
        ensures { result ≡ stand_by deed.now made self.now }
    {
        match deed {
            Deed::Nothing => *self,
            Deed::Commit => Stand {
                waiting: made,
                changed: self.changed,
            },
            Deed::Open(_) | Deed::Update(_) => Stand {
                waiting: None,
                changed: made,
            },
        }
    }
}
