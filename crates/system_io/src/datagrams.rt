//! Sends datagrams.

ghost use Rattle.std.specs.Prelude.{◌∷◌, [], drop};
ghost use Rattle.std.specs.Int.{w64, to_be_bytes};
ghost use Rattle.system_io.specs.Net.{Adds, gave, is_sent, GivesWhole};

use crate::client::Client;
use crate::net::Net;
use std::io::{self, ErrorKind};
use std::net::UdpSocket;

/// Sends a datagram to a client, once. Whether it went whole.
fn send_once<N: Net>(
    net: &mut N,
    socket: &UdpSocket,
    client: Client,
    bytes: &[u8],
) -> io::Result<bool>
    ensures { Adds (N.told net.old) (N.told net.new) (gave (drop 2 (to_be_bytes w64 client.0)) bytes.now (is_sent result) ∷ []) }
{
    let count = net.send(socket, bytes, client.address())?;
    Ok(count == bytes.len())
}

/// Sends a datagram to a client, but for sends that a signal interrupted. One that isn't sent whole has failed.
#[tactic(auto, using(crate::proofs::NetLemmas::Tries_start, crate::proofs::NetLemmas::Tries_failed, crate::proofs::NetLemmas::GivesWhole_went, crate::proofs::NetLemmas::GivesWhole_cut, crate::proofs::NetLemmas::GivesWhole_failed, crate::proofs::NetLemmas::GivesWhole_tried))]
pub(crate) fn send_whole<N: Net>(
    net: &mut N,
    socket: &UdpSocket,
    client: Client,
    bytes: &[u8],
) -> io::Result<()>
    ensures { GivesWhole (N.told net.old) (N.told net.new) (drop 2 (to_be_bytes w64 client.0)) bytes.now result }
{
    for _ in 0..u64::MAX {
        match send_once(net, socket, client, bytes) {
            Ok(true) => return Ok(()),
            Ok(false) => return Err(ErrorKind::WriteZero.into()),
            Err(error) if error.kind() == ErrorKind::Interrupted => {}
            Err(error) => return Err(error),
        }
    }
    Err(ErrorKind::Interrupted.into())
}
