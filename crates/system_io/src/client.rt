//! A peer of the UDP socket, as a number.

ghost use Rattle.std.specs.Prelude.{◌≡◌, ◌∷◌, drop};
ghost use Rattle.std.specs.Int.{w64, from_be_bytes, to_be_bytes};
ghost use Rattle.system_io.specs.Client.{address_bytes};

use std::net::{Ipv4Addr, SocketAddrV4};

/// A peer of the UDP socket, as the number that a port names it by: the bytes of its address, and behind them those of its
/// port.
#[derive(Clone, Copy)]
pub(crate) struct Client(pub(crate) u64);

impl Client {
    /// The client at this address.
    pub(crate) fn at(address: SocketAddrV4) -> Client
        ensures { result.0 ≡ from_be_bytes w64 (0 ∷ (0 ∷ address_bytes address)) }
    {
        let [a, b, c, d] = address.ip().octets();
        let [high, low] = address.port().to_be_bytes();
        Client(u64::from_be_bytes([0, 0, a, b, c, d, high, low]))
    }

    /// Where the client is.
    pub(crate) fn address(self) -> SocketAddrV4
        ensures { address_bytes result ≡ drop 2 (to_be_bytes w64 self.0) }
    {
        let [_, _, a, b, c, d, high, low] = self.0.to_be_bytes();
        SocketAddrV4::new(Ipv4Addr::new(a, b, c, d), u16::from_be_bytes([high, low]))
    }
}
