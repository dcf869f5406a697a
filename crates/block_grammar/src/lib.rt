//! The grammar of blocks and transactions: definitions, and the laws that hold of them.
#![tactic(auto)]

mod grammar;
mod kinds;

pub use grammar::{
    block_law, fault_law, header_law, merkle_law, one_block, one_transaction, small_faults,
    small_texts, transaction_law, txid_law,
};
pub use kinds::{BlockKind, TxKind};
