//! What a port sent, told in the order in which it went.

/// What a port in memory sent, or that it dropped a connection.
#[derive(Clone, Copy, PartialEq, Eq, Debug)]
pub enum Sent<'a> {
    /// A datagram to this client.
    Reply { client: u64, bytes: &'a [u8] },
    /// Bytes over this client's stream.
    Stream { client: u64, bytes: &'a [u8] },
    /// This client's stream was dropped.
    StreamClosed { client: u64 },
    /// Bytes to the feed.
    Feed { bytes: &'a [u8] },
    /// The feed's connection was dropped.
    Closed,
}
