//! Outputs that trials name, each by a byte and an index.

use nmc_base::{Hash32, OutPoint};

/// The output of this index of the transaction whose txid has the byte 32 times.
pub(crate) fn output(byte: u8, index: u32) -> OutPoint {
    OutPoint {
        txid: Hash32([byte; 32]),
        index,
    }
}
