//! The name operation that a made block carries.

use nmc_base::{Hash20, OutPoint};

/// The greatest length of what a push holds behind a number of two bytes (Bitcoin's OP_PUSHDATA2).
pub const LONGEST_PART: usize = 65_535;

/// A name operation that a generated block is to carry, in a transaction of its own.
///
/// Name, rand and value may be of any lengths that `Maker::block` takes: whether Namecoin's rules allow them isn't looked
/// at.
#[derive(Clone, Copy, PartialEq, Eq, Debug)]
pub enum MakeOp<'a> {
    /// OP_NAME_NEW: commits to a name, by the HASH160 of a salt and the name. It spends an output that bears no name, that
    /// of 32 bytes EE and the block's height.
    New {
        hash: Hash20,
    },
    /// OP_NAME_FIRSTUPDATE: opens the name, with the salt of its hash, and spends the output of the NAME_NEW.
    First {
        name: &'a [u8],
        rand: &'a [u8],
        value: &'a [u8],
        spent: OutPoint,
    },
    /// OP_NAME_UPDATE: gives the name a new value, and spends the output that held it.
    Update {
        name: &'a [u8],
        value: &'a [u8],
        spent: OutPoint,
    },
}
