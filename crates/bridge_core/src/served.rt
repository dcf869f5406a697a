//! The names that a chain serves, with their values.

ghost use Rattle.std.specs.Prelude.{◌≡◌};
ghost use Rattle.bridge_core.specs.Serving.{served_by};

use chain_state::Chain;
use import_expand::Names;

/// The names that a chain serves: each with the value that it was given last, while that isn't expired at the tip. Whether its
/// coin can still be spent doesn't matter.
#[derive(Clone, Copy)]
pub(crate) struct Served<'a> {
    chain: &'a Chain,
}

impl<'a> Served<'a> {
    /// The names that this chain serves.
    pub(crate) fn of(chain: &'a Chain) -> Served<'a>
        ensures { result.chain.now ≡ chain.now }
    {
        Served { chain }
    }
}

impl<'a> Names for Served<'a> {
    ghost served = { λ s. served_by s.chain.now };

    fn live(&self, name: &[u8]) -> Option<&[u8]> {
        self.chain.live(name)
    }
}
