//! Base, records and tables are as wide as their fields, which a proof knows of fields that are read.

ghost use Rattle.std.specs.Prelude.{◌≡◌, length};
ghost use Rattle.std.specs.List.{AllByRecursion};
ghost use Rattle.name_tables.specs.Parts.{newest_first, tables_of};
ghost use Rattle.name_tables.specs.Tables.{maps_by};
ghost use Rattle.image_grammar.specs.Widths.{HaveWidths};
ghost use Rattle.image_writer.specs.Whole.{IsWide};

use chain_names::Undo;
use name_tables::Parts;
use nmc_base::{Base, Hash32};
use undo_records::widths::read_record;

/// The width of a hash.
pub fn read_hash(hash: Hash32)
    ensures { length hash.0 ≡ 32 }
{}

fn read_undos(undos: &[Undo])
    ensures { AllByRecursion IsWide undos.now }
{
    let mut rest = undos;
    while let [undo, more @ ..] = rest {
        read_record(undo);
        rest = more;
    }
}

/// The widths of all that an image tells.
pub(crate) fn read_widths(base: &Base, parts: &Parts)
    ensures { HaveWidths base.now (newest_first parts.now.undos.items) (maps_by (tables_of parts.now)) }
{
    read_hash(base.hash);
    read_undos(parts.undos.as_slice());
    parts.coins.widths();
    parts.names.widths();
}
