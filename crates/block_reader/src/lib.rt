//! Reads blocks with merge-mining part and witnesses, in place.
#![tactic(auto)]

mod block;
mod parts;
mod root;
mod txs;

pub use block::{Block, BlockFault, read_block};
pub use block_grammar::BlockKind;
pub use root::{merkle_root, root_of, txids};
pub use txs::Txs;
