//! What a crash leaves of what isn't settled.

/// What a crash leaves of the bytes that are not settled, and of a length that is not.
#[derive(Clone, Copy, Debug, PartialEq, Eq)]
pub enum Choice {
    /// The bytes and the length of the file's last successful sync.
    Old,

    /// The bytes and the length that reads give.
    New,

    /// The greatest length since that sync, with this byte wherever nothing is settled.
    Fill(u8),
}
