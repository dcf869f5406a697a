//! The value of a name that is served.

ghost use Rattle.std.specs.Prelude.{◌≡◌, ◌<◌};
ghost use Rattle.std.specs.Option.{option_copied};
ghost use Rattle.chain_names.specs.Coins.{entry_of};
ghost use Rattle.chain_names.specs.Index.{served_value};
ghost use Rattle.chain_names.specs.Tables.{names_in};

use crate::chain::Chain;
use chain_names::Item;
use name_table::Table;
use nmc_base::Steps;
use std::marker::Brand;
use std::sync::ledger::{Blank, Ledger};

/// The value that a name was given last. Nobody reads the steps that it takes.
fn entry<'a, L: Ledger>(names: &'a Table, name: &[u8], blank: Blank) -> Option<&'a Item>
    requires name { blank.name ≡ L.name }
    requires parts { blank.parts ≡ L.parts }
    requires some { 0 < blank.parts }
    ensures { option_copied result ≡ entry_of (names_in names.now name.now) }
{
    let mut steps = Steps::<L>::new(blank);
    names.last(name, &mut steps)
}

impl Chain {
    /// The value that is served for a name: the one that it was given last, while it isn't expired at the tip.
    pub fn live(&self, name: &[u8]) -> Option<&[u8]>
        ensures { option_copied result ≡ served_value self.now.base.profile (names_in self.now.tables.names) self.now.tip.height name.now }
    {
        let item = entry::<Brand>(&self.parts.names, name, Blank::new(1))?;
        if self.base.profile.expired(item.height, self.tip.height) {
            return None;
        }
        Some(item.value.as_slice())
    }
}
