//! The tables of a state with the records that undo its blocks.

ghost use Rattle.std.specs.Prelude.{◌≡◌};
ghost use Rattle.chain_names.specs.Measured.{AreMeasured};
ghost use Rattle.name_tables.specs.Parts.{tables_of};
ghost use Rattle.name_tables.specs.Tables.{maps_by};

use crate::tables::Tables;
use chain_names::Undo;
use expiry_queue::Queue;
use name_coins::Coins;
use name_table::Table;
use nmc_base::RoomyList;

/// The parts of a state: the coins, the histories of names, the queue of expiry, and what undoes each block.
#[derive(Drop)]
pub struct Parts {
    pub coins: Coins,
    pub names: Table,
    pub queue: Queue,
    /// The records that undo the blocks, that of the oldest block first.
    pub undos: RoomyList<Undo>,
}

impl Parts {
    /// These tables, and these records.
    pub fn of(tables: Tables, undos: RoomyList<Undo>) -> Parts
        ensures tables { tables_of result ≡ tables }
        ensures undos { result.undos ≡ undos }
    {
        Parts {
            coins: tables.coins,
            names: tables.names,
            queue: tables.queue,
            undos,
        }
    }

    /// The tables, and the records.
    pub fn split(self) -> (Tables, RoomyList<Undo>)
        ensures tables { result.0 ≡ tables_of self }
        ensures undos { result.1 ≡ self.undos }
        ensures measured { AreMeasured (maps_by result.0) }
    {
        let tables = Tables {
            coins: self.coins,
            names: self.names,
            queue: self.queue,
        };
        tables.widths();
        (tables, self.undos)
    }

    /// Lets go of parts that are of no use. Call it in the place of dropping them, which each crate would prove anew.
    pub fn let_go(self) {}
}
