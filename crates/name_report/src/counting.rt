//! Counts the names of a chain.

ghost use Rattle.std.specs.Prelude.{◌≡◌, IfOk};
ghost use Rattle.std.specs.List.{count_by};
ghost use Rattle.name_report.specs.Counts.{AreCounts};
ghost use Rattle.name_report.specs.Order.{bytes_of};
ghost use Rattle.name_report.specs.Report.{reported_by};
ghost use Rattle.name_report.specs.Text.{is_served};

use crate::order::in_order;
use chain_state::Chain;
use nmc_base::NoMemory;
use std::alloc::Global;
use std::collections::BTreeSet;
use std::marker::Brand;
use std::sync::ledger::Blank;

/// How many names an index has.
#[derive(Clone, Copy, PartialEq, Eq, Debug)]
pub struct NameCounts {
    /// How many names have an entry: each was given a value, whether it is served or lapsed.
    pub names: usize,
    /// How many of them are served at the height of the tip.
    pub served: usize,
}

/// How many of the names are served. A name is served as for a query: by its entry, and not by its coin.
fn count_served(chain: &Chain, names: &BTreeSet<&[u8]>) -> usize
    ensures { result ≡ count_by (is_served (reported_by chain.now)) (bytes_of names.now.keys) }
{
    let mut served = 0;
    for name in names {
        if chain.live(name).is_some() {
            served += 1;
        }
    }
    served
}

/// Counts the names of a chain that a report would list. It takes memory for the list of the names, without their bytes.
pub fn count_names(alloc: Global, chain: &Chain) -> Result<NameCounts, NoMemory>
    ensures { IfOk result (λ counts. AreCounts (reported_by chain.now) counts) }
{
    let names = in_order::<Brand>(alloc, &chain.parts().names, Blank::new(1))?;
    let served = count_served(chain, &names);
    Ok(NameCounts {
        names: names.len(),
        served,
    })
}
