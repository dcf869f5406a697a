//! A connection, and whose it is.

ghost use Rattle.std.specs.Prelude.{◌≡◌};

use std::net::TcpStream;

/// Whose connection it is.
#[derive(Clone, Copy, PartialEq, Eq)]
pub enum Peer {
    /// The client's of this number.
    Client(u64),
    /// The feed's.
    Feed,
}

/// A connection, and whose it is.
#[derive(Drop)]
pub struct Link {
    pub(crate) peer: Peer,
    pub(crate) socket: TcpStream,
}

impl Link {
    /// Whose it is.
    pub fn peer(&self) -> Peer
        ensures { result ≡ self.now.peer }
    {
        self.peer
    }
}
