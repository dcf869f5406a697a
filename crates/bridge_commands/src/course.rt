//! Where a self-test is: its bridge, and what was counted.

use bridge_core::Bridge;

/// Where a self-test is: its bridge, and what was counted so far.
#[derive(Drop)]
pub(crate) struct Course {
    pub(crate) bridge: Bridge,
    /// How many replies to messages have RCODE 0 and an answer.
    pub(crate) answers: u32,
    /// How many saves were made.
    pub(crate) saves: u32,
}
