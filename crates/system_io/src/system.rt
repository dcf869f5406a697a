//! The system's sockets.

use crate::link::Link;
use crate::net::Net;
use byte_io::{Polled, Sent};
use std::io::{self, ErrorKind, Read, Write};
use std::net::{SocketAddr, SocketAddrV4, TcpListener, UdpSocket};

/// The system's sockets. They tell nothing of what came and went.
#[derive(Drop)]
pub struct System<'a> {
    rt: &'a HostRuntime,
}

impl<'a> System<'a> {
    pub(crate) fn of(rt: &'a HostRuntime) -> System<'a> {
        System { rt }
    }
}

impl<'a> Net for System<'a> {
    ghost use Rattle.std.specs.Prelude.{None};

    ghost told = { λ _. None };

    fn datagrams(&mut self, at: SocketAddrV4) -> io::Result<UdpSocket> {
        UdpSocket::bind(self.rt, at)
    }

    fn listener(&mut self, at: SocketAddrV4) -> io::Result<TcpListener> {
        TcpListener::bind(self.rt, at)
    }

    fn receive(&mut self, socket: &UdpSocket, buf: &mut [u8]) -> io::Result<(usize, SocketAddrV4)> {
        match socket.recv_from(buf)? {
            (count, SocketAddr::V4(from)) => Ok((count, from)),
            (_, SocketAddr::V6(_)) => Err(ErrorKind::Unsupported.into()),
        }
    }

    fn send(&mut self, socket: &UdpSocket, bytes: &[u8], to: SocketAddrV4) -> io::Result<usize> {
        socket.send_to(bytes, to)
    }

    fn read(&mut self, link: &mut Link, buf: &mut [u8]) -> io::Result<usize> {
        link.socket.read(buf)
    }

    fn discard(&mut self, link: &mut Link, room: &mut [u8]) -> io::Result<usize> {
        link.socket.read(room)
    }

    fn write(&mut self, link: &mut Link, bytes: &[u8]) -> io::Result<usize> {
        link.socket.write(bytes)
    }

    fn note_poll(&mut self, _polled: Polled, _buf: &[u8]) {}

    fn note_send(&mut self, _sent: Sent<'_>, _is_sent: bool) {}
}
