//! What was found in bytes, before it has memory of its own.

use nmc_base::{Hash20, OutPoint};

/// What a make leaves: a commitment to a name, or the value of one.
#[derive(Clone, Copy)]
pub enum FoundTold<'a> {
    Commitment { hash: Hash20 },
    Value { name: &'a [u8], bytes: &'a [u8] },
}

/// A make of a start list.
#[derive(Clone, Copy)]
pub struct FoundMake<'a> {
    pub at: OutPoint,
    pub height: u32,
    pub told: FoundTold<'a>,
}
