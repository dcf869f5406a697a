//! Reads transactions of Bitcoin's block format, with or without a witness, handing out slices of the bytes.
#![tactic(auto)]

mod inputs;
mod outputs;
mod transaction;
mod witness;

pub use block_grammar::TxKind;
pub use inputs::{Inputs, TxIn};
pub use outputs::{Outputs, TxOut};
pub use transaction::{Tx, read_tx, txid};
pub use wire_read::TxFault;
