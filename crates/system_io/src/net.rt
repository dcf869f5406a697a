//! The sockets of a port, by calls each of which is one of the system's.

ghost use Rattle.std.specs.Prelude.{◌≡◌, [], ◌∷◌, length};
ghost use Rattle.std.specs.Io.{ReadsAtMost, WritesAtMost};
ghost use Rattle.system_io.specs.Client.{address_bytes};
ghost use Rattle.system_io.specs.Net.{
  Adds,
  ComesFrom,
  Reads,
  Writes,
  asked,
  gave,
  noted,
  went_whole,
};
ghost use Rattle.system_io.specs.Notes.{ComesIn, note_of_poll, note_of_send};
ghost use Rattle.system_io.specs.declared.link.Peer.TheVariants.{Feed};

use crate::link::Link;
use byte_io::{Polled, Sent};
use std::io;
use std::net::{SocketAddrV4, TcpListener, UdpSocket};

/// The sockets of a port, by calls each of which is one of the system's: it may fail, and one that reads or writes may do a part of what it is
/// asked for.
///
/// A net need not tell what came and went; then only what is said of counts holds.
pub trait Net {
    ghost use Rattle.system_io.specs.Net.{NetTold};

    /// All that happened, in order, where it tells it.
    ghost told: { Self → NetTold };

    /// A socket for datagrams.
    fn datagrams(&mut self, at: SocketAddrV4) -> io::Result<UdpSocket>
        ensures { Adds (told self.old) (told self.new) (asked (address_bytes at) ∷ []) };

    /// A listener for connections.
    fn listener(&mut self, at: SocketAddrV4) -> io::Result<TcpListener>
        ensures { Adds (told self.old) (told self.new) (asked (address_bytes at) ∷ []) };

    /// Receives a datagram into the front of the buffer, and says how many of its bytes there was room for, and whose it is.
    fn receive(&mut self, socket: &UdpSocket, buf: &mut [u8]) -> io::Result<(usize, SocketAddrV4)>
        ensures { ComesIn (told self.old) (told self.new) buf.new result };

    /// Sends a datagram. At Ok so many bytes of it went.
    fn send(&mut self, socket: &UdpSocket, bytes: &[u8], to: SocketAddrV4) -> io::Result<usize>
        ensures count { WritesAtMost result bytes.now }
        ensures given { Adds (told self.old) (told self.new) (gave (address_bytes to) bytes.now (went_whole result (length bytes.now)) ∷ []) };

    /// Reads some bytes of a connection into the front of the buffer, and says how many. None come at its end.
    fn read(&mut self, link: &mut Link, buf: &mut [u8]) -> io::Result<usize>
        ensures peer { link.new.peer ≡ link.old.peer }
        ensures count { ReadsAtMost result buf.new }
        ensures bytes { Reads (told self.old) (told self.new) link.old.peer buf.new result };

    /// Reads some bytes of the feed and lets them go: they came for nobody.
    fn discard(&mut self, link: &mut Link, room: &mut [u8]) -> io::Result<usize>
        requires { link.old.peer ≡ Feed }
        ensures peer { link.new.peer ≡ link.old.peer }
        ensures bytes { Adds (told self.old) (told self.new) [] };

    /// Sends some bytes from the front of these over a connection, and says how many.
    fn write(&mut self, link: &mut Link, bytes: &[u8]) -> io::Result<usize>
        ensures peer { link.new.peer ≡ link.old.peer }
        ensures count { WritesAtMost result bytes.now }
        ensures bytes { Writes (told self.old) (told self.new) link.old.peer bytes.now result };

    /// Notes what a poll brought: its bytes stand at the front of the buffer.
    fn note_poll(&mut self, polled: Polled, buf: &[u8])
        ensures { Adds (told self.old) (told self.new) (noted (note_of_poll polled buf.now) ∷ []) };

    /// Notes what the port was asked to send, or to let go, and whether it was sent.
    fn note_send(&mut self, sent: Sent<'_>, is_sent: bool)
        ensures { Adds (told self.old) (told self.new) (noted (note_of_send sent.entry is_sent) ∷ []) };
}
