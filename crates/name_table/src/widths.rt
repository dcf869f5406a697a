//! That items are as wide as their fields.

ghost use Rattle.chain_names.specs.Measured.{IsMeasuredItem};
ghost use Rattle.chain_names.specs.Writable.{IsWritablePoint};

use chain_names::Item;
use nmc_base::OutPoint;

/// An outpoint is as wide as its fields.
fn read_point(at: OutPoint)
    ensures { IsWritablePoint at }
{}

/// An item is as wide as its fields, which a proof knows of fields that are read.
pub(crate) fn read_widths(item: &Item)
    ensures { IsMeasuredItem item.now }
{
    let (_height, _registered) = (item.height, item.registered);
    read_point(item.at);
}
