//! Gives the report of a chain to a sink.

ghost use Rattle.std.specs.Prelude.{◌≡◌, ◌<◌, List, ℕ, []};
ghost use Rattle.frame_loop.specs.Delivery.{Delivers};
ghost use Rattle.nmc_base.specs.declared.chain_ends.Base.{Base};
ghost use Rattle.chain_names.specs.Log.{Log};
ghost use Rattle.chain_names.specs.Tables.{names_in};
ghost use Rattle.chain_state.specs.Standing.{StandsForChain};
ghost use Rattle.name_report.specs.Order.{bytes_of};
ghost use Rattle.name_report.specs.Page.{Puts, outgoing};
ghost use Rattle.name_report.specs.Report.{Reports, reported_by, reported_on};
ghost use Rattle.name_report.specs.Text.{name_lines, report_text};

use crate::lines::{put_entry, put_items, put_tip};
use crate::order::in_order;
use crate::page::Page;
use byte_io::Sink;
use chain_names::Item;
use chain_state::Chain;
use frame_loop::Undelivered;
use name_table::Table;
use nmc_base::{NoMemory, Steps};
use std::alloc::Global;
use std::collections::BTreeSet;
use std::marker::Brand;
use std::sync::ledger::{Blank, Ledger};

/// Why a report didn't become whole.
#[derive(Clone, Copy, PartialEq, Eq, Debug)]
pub enum ReportFault {
    /// Memory ran out before the first write.
    NoMemory,
    /// The sink failed, or took nothing of a piece that isn't empty.
    SinkFault,
}

impl From<NoMemory> for ReportFault {
    ghost use Rattle.name_report.specs.declared.reporting.ReportFault.TheVariants.{NoMemory};

    ghost from_gives = { λ _ e. e ≡ NoMemory };

    fn from(_fault: NoMemory) -> ReportFault {
        ReportFault::NoMemory
    }
}

impl From<Undelivered> for ReportFault {
    ghost use Rattle.name_report.specs.declared.reporting.ReportFault.TheVariants.{SinkFault};

    ghost from_gives = { λ _ e. e ≡ SinkFault };

    fn from(_fault: Undelivered) -> ReportFault {
        ReportFault::SinkFault
    }
}

/// The values that a name was given. Nobody reads the steps that it takes.
fn history<'a, L: Ledger>(names: &'a Table, name: &[u8], blank: Blank) -> &'a [Item]
    requires name { blank.name ≡ L.name }
    requires parts { blank.parts ≡ L.parts }
    requires some { 0 < blank.parts }
    ensures { result.now ≡ names_in names.now name.now }
{
    let mut steps = Steps::<L>::new(blank);
    names.history(name, &mut steps)
}

/// Puts the lines of a name. It is served as for a query: by its entry, and not by its coin.
fn put_name<K: Sink>(
    page: &mut Page,
    sink: &mut K,
    chain: &Chain,
    name: &[u8],
) -> Result<(), Undelivered>
    ensures { Puts (outgoing (K.seen sink.old) page.old) (outgoing (K.seen sink.new) page.new) (name_lines (reported_by chain.now) name.now) result }
{
    let items = history::<Brand>(&chain.parts().names, name, Blank::new(1));
    match items.last() {
        None => Ok(()),
        Some(entry) => {
            put_entry(page, sink, name, entry, chain.live(name).is_some())?;
            put_items(page, sink, items)
        }
    }
}

/// Puts the whole text, the names in this order.
fn put_report<K: Sink>(
    page: &mut Page,
    sink: &mut K,
    chain: &Chain,
    names: &BTreeSet<&[u8]>,
) -> Result<(), Undelivered>
    ensures { Puts (outgoing (K.seen sink.old) page.old) (outgoing (K.seen sink.new) page.new) (report_text (reported_by chain.now) (bytes_of names.now.keys)) result }
{
    put_tip(page, sink, chain.tip())?;
    for name in names {
        put_name(page, sink, chain, name)?;
    }
    Ok(())
}

/// Gives the whole text to the sink over an empty page.
fn write_report<K: Sink>(
    page: &mut Page,
    sink: &mut K,
    chain: &Chain,
    names: &BTreeSet<&[u8]>,
) -> Result<(), Undelivered>
    requires { page.old ≡ [] }
    ensures { Delivers (K.seen sink.old) (K.seen sink.new) (report_text (reported_by chain.now) (bytes_of names.now.keys)) result }
{
    put_report(page, sink, chain, names)?;
    page.flush(sink)
}

/// Gives the report of a chain to the sink. All the memory that it takes is taken before the first write: the list of the
/// names, without their bytes, and some KiB.
pub fn report<K: Sink>(alloc: Global, chain: &Chain, sink: &mut K) -> Result<(), ReportFault>
    // It is that of the index,
    ensures index { Reports (reported_by chain.now) (K.seen sink.old) (K.seen sink.new) result }
    // and of every chain that the index stands for.
    ensures chain { (base : Base) (start : Log) (blocks : List (List ℕ)) → StandsForChain base start blocks chain.now
        → Reports (reported_on base start blocks) (K.seen sink.old) (K.seen sink.new) result }
{
    let names = in_order::<Brand>(alloc, &chain.parts().names, Blank::new(1))?;
    let mut page = Page::new(alloc)?;
    write_report(&mut page, sink, chain, &names)?;
    Ok(())
}
