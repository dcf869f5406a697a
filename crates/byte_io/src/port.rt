//! What datagrams, streams and a feed come from, and where their replies go.

ghost use Rattle.std.specs.Prelude.{◌≡◌, [], ◌∷◌, length};
ghost use Rattle.byte_io.specs.declared.port.TheConstants.{POLL_ROOM};
ghost use Rattle.byte_io.specs.Port.{
  PortSeen,
  IsBound,
  Binds,
  Polls,
  Sends,
  Notes,
  replied,
  stream_replied,
  stream_closed,
  fed_back,
  closed,
};

use crate::errors::Failed;

/// The length of the buffer that a poll is lent.
pub const POLL_ROOM: usize = 65_536;

/// What a poll brought. Its bytes stand at the front of the buffer.
#[derive(Clone, Copy, PartialEq, Eq, Debug)]
pub enum Polled {
    /// A datagram of `len` bytes. A reply to it goes to this client.
    Query { client: u64, len: usize },
    /// A piece of this client's stream, of `len` bytes: it goes on where the piece before ended.
    Stream { client: u64, len: usize },
    /// This client's stream has ended. A later stream may have its number.
    StreamEnd { client: u64 },
    /// A piece of the feed, of `len` bytes.
    Feed { len: usize },
    /// The feed's connection has ended.
    FeedEnd,
    /// Nothing came.
    Nothing,
    /// The count of faults rose in this call.
    Failed,
}

/// Where datagrams, streams and the feed come from, and where their replies go: one UDP port, connections of clients beside it, and one
/// connection of a feed at a time.
pub trait Port {
    ghost seen: { Self → PortSeen };

    /// Binds the port to the number of its UDP port and streams, and to that of its feed. The height of the tip is there for people to be
    /// told, and nothing goes by it.
    ///
    /// `Failed` comes only where the count of faults rose in this call.
    fn bind(&mut self, udp: u16, feed: u16, tip: u32) -> Result<(), Failed>
        ensures { Binds (seen self.old) (seen self.new) udp feed result };

    /// Waits a while, and brings one datagram, one piece of a stream or of the feed, the end of one, or nothing.
    fn poll(&mut self, buf: &mut [u8]) -> Polled
        requires bound { IsBound (seen self.old) }
        requires room { length buf.old ≡ POLL_ROOM }
        ensures polls { Polls (seen self.old) (seen self.new) buf.new result }
        ensures room { length buf.new ≡ POLL_ROOM };

    /// Sends a datagram to a client.
    ///
    /// `Failed` comes only where the count of faults rose in this call.
    fn reply(&mut self, client: u64, bytes: &[u8]) -> Result<(), Failed>
        requires { IsBound (seen self.old) }
        ensures { Sends (seen self.old) (seen self.new) (replied client bytes.now) result };

    /// Sends bytes over a client's stream: at Ok they are sent, or kept to be sent, whole and in order, or the stream has ended.
    ///
    /// `Failed` comes only where the count of faults rose in this call.
    fn stream_reply(&mut self, client: u64, bytes: &[u8]) -> Result<(), Failed>
        requires { IsBound (seen self.old) }
        ensures { Sends (seen self.old) (seen self.new) (stream_replied client bytes.now) result };

    /// Lets go of a client's stream, if there is one. No more of it comes.
    fn close_stream(&mut self, client: u64)
        requires { IsBound (seen self.old) }
        ensures { Notes (seen self.old) (seen self.new) (stream_closed client ∷ []) };

    /// Sends bytes to the feed: at Ok they are sent, or kept to be sent, whole and in order, also where the feed is closed or the
    /// port let go meanwhile.
    ///
    /// `Failed` comes only where the count of faults rose in this call.
    fn feed_reply(&mut self, bytes: &[u8]) -> Result<(), Failed>
        requires { IsBound (seen self.old) }
        ensures { Sends (seen self.old) (seen self.new) (fed_back bytes.now) result };

    /// Lets go of the feed's connection, if there is one; what was kept for it is still sent.
    fn close_feed(&mut self)
        requires { IsBound (seen self.old) }
        ensures { Notes (seen self.old) (seen self.new) (closed ∷ []) };
}
