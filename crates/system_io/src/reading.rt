//! Reads once, whatever signals come.

ghost use Rattle.std.specs.Prelude.{◌≡◌};
ghost use Rattle.std.specs.Io.{ReadsAtMost};
ghost use Rattle.std.specs.Io.KnownBytes.{ReadConsumes};
ghost use Rattle.system_io.specs.Net.{Reads};

use crate::link::Link;
use crate::net::Net;
use std::io::{self, ErrorKind, Read};

/// Reads once, but for reads that a signal interrupted.
pub(crate) fn read_once<R: Read>(reader: &mut R, buf: &mut [u8]) -> io::Result<usize>
    ensures bound { ReadsAtMost result buf.new }
    ensures bytes { ReadConsumes (R.remaining reader.old) (R.remaining reader.new) result buf.new }
{
    for _ in 0..u64::MAX {
        match reader.read(buf) {
            Err(error) if error.kind() == ErrorKind::Interrupted => {}
            answer => return answer,
        }
    }
    Err(ErrorKind::Interrupted.into())
}

/// The same of a connection.
#[tactic(auto, using(crate::proofs::NetLemmas::Adds_nothing, crate::proofs::NetLemmas::Reads_then, crate::proofs::NetLemmas::Reads_failed))]
pub(crate) fn read_link<N: Net>(net: &mut N, link: &mut Link, buf: &mut [u8]) -> io::Result<usize>
    ensures peer { link.new.peer ≡ link.old.peer }
    ensures bound { ReadsAtMost result buf.new }
    ensures bytes { Reads (N.told net.old) (N.told net.new) link.old.peer buf.new result }
{
    for _ in 0..u64::MAX {
        match net.read(link, buf) {
            Err(error) if error.kind() == ErrorKind::Interrupted => {}
            answer => return answer,
        }
    }
    Err(ErrorKind::Interrupted.into())
}
