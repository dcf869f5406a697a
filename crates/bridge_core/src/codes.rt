//! The codes of replies. The definitions have each as a number, so that one that is changed here alone is refused.

/// The command was accepted, the message has a reply, or the index was saved.
pub const DONE: u8 = 0;
/// The bytes are no block.
pub const BAD_BLOCK: u8 = 1;
/// The block isn't on the tip.
pub const NOT_ON_TIP: u8 = 2;
/// The block's transactions have another Merkle root.
pub const MERKLE_MISMATCH: u8 = 3;
/// The tip has the greatest height.
pub const HEIGHT_LIMIT: u8 = 4;
/// The area has no room for the record.
pub const JOURNAL_FULL: u8 = 5;
/// The hash isn't the newest block's.
pub const NOT_TIP: u8 = 6;
/// No block stands on the base.
pub const AT_BASE: u8 = 7;
/// As many saves were selected as may be.
pub const CHECKPOINT_LIMIT: u8 = 29;
/// The image of the index is longer than may be.
pub const IMAGE_LIMIT: u8 = 30;
/// The disk failed.
pub const DISK_FAULT: u8 = 0xFD;
/// Memory ran out.
pub const NO_MEMORY: u8 = 0xFE;
