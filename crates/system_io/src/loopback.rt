//! The one address that is listened at.

ghost use Rattle.std.specs.Prelude.{◌≡◌};
ghost use Rattle.system_io.specs.Client.{address_bytes};
ghost use Rattle.system_io.specs.Loopback.{loopback_bytes, Asks};

use crate::net::Net;
use std::io;
use std::net::{Ipv4Addr, SocketAddrV4, TcpListener, UdpSocket};

/// The address of this number that programs of this machine alone reach.
pub(crate) fn loopback(number: u16) -> SocketAddrV4
    ensures { address_bytes result ≡ loopback_bytes number }
{
    SocketAddrV4::new(Ipv4Addr::LOCALHOST, number)
}

/// A socket for datagrams of this number.
pub(crate) fn bind_datagrams<N: Net>(net: &mut N, number: u16) -> io::Result<UdpSocket>
    ensures { Asks (N.told net.old) (N.told net.new) (loopback_bytes number) }
{
    net.datagrams(loopback(number))
}

/// A listener of this number. No call on it waits.
pub(crate) fn bind_listener<N: Net>(net: &mut N, number: u16) -> io::Result<TcpListener>
    ensures { Asks (N.told net.old) (N.told net.new) (loopback_bytes number) }
{
    let listener = net.listener(loopback(number))?;
    listener.set_nonblocking(true)?;
    Ok(listener)
}
