//! What a transaction is to the rules on names.

use chain_names::RuleRefusal;
use nmc_base::{Hash20, OutPoint};

/// What a transaction is to the rules on names. The bytes are slices of the transaction's own, and `output` is the place
/// of its name output, counted from 0.
#[derive(Clone, Copy, PartialEq, Eq, Debug)]
pub enum Verdict<'a> {
    /// It has nothing to do with names.
    Plain,
    /// It commits to a name, by a hash of a salt and the name.
    New {
        hash: Hash20,
        output: u32,
    },
    /// It opens a name, and spends the commitment to it.
    First {
        name: &'a [u8],
        value: &'a [u8],
        output: u32,
        spent: OutPoint,
    },
    /// It gives a name a new value, and spends the coin of the name.
    Update {
        name: &'a [u8],
        value: &'a [u8],
        output: u32,
        spent: OutPoint,
    },
    /// The rules refuse it.
    Refused(RuleRefusal),
}
