//! The index once more over maps that are pinned at no cost, kept through the blocks that join the chain and leave it; and the text of its image, given out in slices while the chain goes on.
#![tactic(auto)]

mod back;
mod coins;
mod copies;
mod filling;
mod forth;
mod giving;
mod laws;
mod mirror;
mod most;
mod names;
mod rows;
mod slices;
mod stage;
mod undos;
mod waste;

pub use laws::mirrors_follow;
pub use mirror::Mirror;
pub use rows::Rows;
pub use slices::Slices;
pub use waste::MirrorWaste;
