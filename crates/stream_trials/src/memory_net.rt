//! A net in memory: what comes is a list, and what happens is kept.

ghost use Rattle.std.specs.Prelude.{◌≡◌, ◌<◌, length, min, take};

use crate::told::{Told, What};
use byte_io::{Polled, Sent};
use nmc_base::NoMemory;
use std::alloc::Global;
use std::collections::VecDeque;
use std::io::{self, ErrorKind};
use std::net::{SocketAddr, SocketAddrV4, TcpListener, UdpSocket};
use system_io::{Link, Net};

/// A datagram that is to come. None is longer than IPv4 allows.
#[derive(Drop)]
struct Datagram {
    from: SocketAddrV4,
    bytes: Vec<u8>,
    ghost short: { length bytes.items < 65536 },
}

/// A net to whose sockets datagrams and bytes come that are given beforehand, and which tells all that happens, as long as memory is
/// found for it.
///
/// The sockets are the system's, since a wait looks at these. A datagram of one byte, which the socket sends itself, wakes the wait for each
/// that is to come; what wakes it for a piece is whoever connects.
#[derive(Drop)]
pub struct MemoryNet<'a> {
    alloc: Global,
    rt: &'a HostRuntime,
    datagrams: VecDeque<Datagram>,
    pieces: VecDeque<Vec<u8>>,
    listens: Option<SocketAddr>,
    told: Told,
}

/// Puts as many of the bytes as there is room for at the front of the buffer.
fn put(bytes: &[u8], buf: &mut [u8]) -> usize
    ensures count { result ≡ min (length bytes.now) (length buf.old) }
    ensures front { take result buf.new ≡ take result bytes.now }
    ensures room { length buf.new ≡ length buf.old }
{
    let count = bytes.len().min(buf.len());
    buf[..count].copy_from_slice(&bytes[..count]);
    count
}

impl<'a> MemoryNet<'a> {
    ghost use Rattle.std.specs.Prelude.{[], Some};
    ghost use Rattle.stream_trials.specs.Told.{told_of};

    pub fn new(rt: &'a HostRuntime) -> MemoryNet<'a>
        ensures { told_of result.told ≡ Some [] }
    {
        let alloc = rt.alloc();
        MemoryNet {
            alloc,
            rt,
            datagrams: VecDeque::new(alloc),
            pieces: VecDeque::new(alloc),
            listens: None,
            told: Told::nothing(alloc),
        }
    }

    /// One more datagram is to come.
    pub fn add_datagram(&mut self, from: SocketAddrV4, bytes: &[u8]) -> Result<(), NoMemory>
        requires { length bytes.now < 65536 }
    {
        let bytes = Vec::from_slice(self.alloc, bytes)?;
        Ok(self.datagrams.push_back(Datagram { from, bytes })?)
    }

    /// One more piece is to come, over the connection that is read next.
    pub fn add_piece(&mut self, bytes: &[u8]) -> Result<(), NoMemory> {
        let bytes = Vec::from_slice(self.alloc, bytes)?;
        Ok(self.pieces.push_back(bytes)?)
    }

    /// Where its first listener listens.
    pub fn listens(&self) -> Option<SocketAddr> {
        self.listens
    }

    /// What happened.
    pub fn told(&self) -> &Told {
        &self.told
    }

    /// Wakes the socket once for each datagram that is to come.
    fn wake(&self, socket: &UdpSocket) -> io::Result<()> {
        let at = socket.local_addr()?;
        for _ in 0..self.datagrams.len() {
            socket.send_to(&[0], at)?;
        }
        Ok(())
    }
}

impl<'a> Net for MemoryNet<'a> {
    ghost use Rattle.stream_trials.specs.Told.{told_of};

    ghost told = { λ net. told_of net.told };

    fn datagrams(&mut self, at: SocketAddrV4) -> io::Result<UdpSocket> {
        self.told.add(What::Asked(at), &[]);
        let socket = UdpSocket::bind(self.rt, at)?;
        self.wake(&socket)?;
        Ok(socket)
    }

    fn listener(&mut self, at: SocketAddrV4) -> io::Result<TcpListener> {
        self.told.add(What::Asked(at), &[]);
        let listener = TcpListener::bind(self.rt, at)?;
        let listens = listener.local_addr()?;
        self.listens = self.listens.or(Some(listens));
        Ok(listener)
    }

    fn receive(&mut self, socket: &UdpSocket, buf: &mut [u8]) -> io::Result<(usize, SocketAddrV4)> {
        socket.recv_from(&mut [0])?;
        let Some(datagram) = self.datagrams.pop_front() else {
            return Err(ErrorKind::WouldBlock.into());
        };
        self.told.add(What::Came(datagram.from), &datagram.bytes);
        Ok((put(&datagram.bytes, buf), datagram.from))
    }

    fn send(&mut self, _socket: &UdpSocket, bytes: &[u8], to: SocketAddrV4) -> io::Result<usize> {
        self.told.add(What::Gave(to), bytes);
        Ok(bytes.len())
    }

    fn read(&mut self, link: &mut Link, buf: &mut [u8]) -> io::Result<usize> {
        let Some(piece) = self.pieces.pop_front() else {
            return Err(ErrorKind::WouldBlock.into());
        };
        let count = put(&piece, buf);
        if count > 0 {
            self.told.add(What::Received(link.peer()), &buf[..count]);
        }
        Ok(count)
    }

    fn discard(&mut self, _link: &mut Link, _room: &mut [u8]) -> io::Result<usize> {
        Err(ErrorKind::WouldBlock.into())
    }

    fn write(&mut self, link: &mut Link, bytes: &[u8]) -> io::Result<usize> {
        self.told.add(What::Sent(link.peer()), bytes);
        Ok(bytes.len())
    }

    fn note_poll(&mut self, polled: Polled, buf: &[u8]) {
        self.told.add(What::Polled(polled), buf);
    }

    fn note_send(&mut self, sent: Sent<'_>, is_sent: bool) {
        match sent {
            Sent::Reply { client, bytes } => self.told.add(What::Replied(client, is_sent), bytes),
            Sent::Stream { client, bytes } => {
                self.told.add(What::StreamReplied(client, is_sent), bytes);
            }
            Sent::StreamClosed { client } => self.told.add(What::StreamClosed(client), &[]),
            Sent::Feed { bytes } => self.told.add(What::FedBack(is_sent), bytes),
            Sent::Closed => self.told.add(What::Closed, &[]),
        }
    }
}
