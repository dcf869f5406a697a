//! The zone `bit.` itself.

ghost use Rattle.std.specs.Prelude.{◌≡◌, ◌+◌, ◌≤◌, ◌++◌, length, take, IfOk};
ghost use Rattle.std.specs.Int.{w32, to_be_bytes};
ghost use Rattle.domain_text.specs.declared.limits.TheConstants.{LONGEST_WIRE};
ghost use Rattle.bit_resolver.specs.declared.zone.TheConstants.{LONGEST_SOA};
ghost use Rattle.bit_resolver.specs.Rdata.{soa_rdata as soa_rdata_of};
ghost use Rattle.bit_resolver.specs.Answers.{soa_of, ns_of};

use crate::limits::{EXPIRE, MINIMUM, REFRESH, RETRY};
use crate::place::APEX;
use crate::resource::Resource;
use crate::rr_type;
use crate::short_bytes::ShortBytes;
use domain_text::{LONGEST_WIRE, Name};
use nmc_base::NoMemory;
use std::alloc::Global;

/// The zone `bit.`: the name of its name server, and the SERIAL of its SOA (RFC 1035, 3.3.13).
#[derive(Drop)]
pub struct Zone {
    pub host: Name,
    pub serial: u32,
}

/// The most bytes of an SOA's RDATA: two names, the label before the second, and five numbers.
const LONGEST_SOA: usize = 2 * LONGEST_WIRE + 11 + 20;

/// Writes a piece at a place, and gives the place behind it.
fn put(room: &mut [u8; LONGEST_SOA], at: usize, piece: &[u8]) -> usize
    requires { at + length piece.now ≤ LONGEST_SOA }
    ensures end { result ≡ at + length piece.now }
    ensures text { take result room.new ≡ take at room.old ++ piece.now }
{
    let end = at + piece.len();
    room[at..end].copy_from_slice(piece);
    end
}

/// Writes a number of 32 bits at a place, the high byte first, and gives the place behind it.
fn put_number(room: &mut [u8; LONGEST_SOA], at: usize, number: u32) -> usize
    requires { at + 4 ≤ LONGEST_SOA }
    ensures end { result ≡ at + 4 }
    ensures text { take result room.new ≡ take at room.old ++ to_be_bytes w32 number }
{
    put(room, at, &number.to_be_bytes())
}

/// RDATA of the zone's SOA: its host, `hostmaster` before its host, the serial and the four times. It is written in one place and
/// copied once, so it takes memory once.
fn soa_rdata(alloc: Global, host: &[u8], serial: u32) -> Result<ShortBytes, NoMemory>
    requires { length host.now ≤ LONGEST_WIRE }
    ensures { IfOk result (λ b. b ≡ soa_rdata_of host.now serial) }
{
    let mut room = [0; LONGEST_SOA];
    let end = put(&mut room, 0, host);
    let end = put(&mut room, end, b"\x0ahostmaster");
    let end = put(&mut room, end, host);
    let end = put_number(&mut room, end, serial);
    let end = put_number(&mut room, end, REFRESH);
    let end = put_number(&mut room, end, RETRY);
    let end = put_number(&mut room, end, EXPIRE);
    let end = put_number(&mut room, end, MINIMUM);
    ShortBytes::copy_of(alloc, &room[..end])
}

impl Zone {
    /// The SOA record.
    pub(crate) fn soa(&self, alloc: Global) -> Result<Resource, NoMemory>
        ensures { IfOk result (λ r. r ≡ soa_of self.now) }
    {
        let rdata = soa_rdata(alloc, self.host.wire(), self.serial)?;
        Ok(Resource {
            owner: ShortBytes::few(APEX),
            kind: rr_type::SOA,
            rdata,
        })
    }

    /// The NS record.
    pub(crate) fn ns(&self, alloc: Global) -> Result<Resource, NoMemory>
        ensures { IfOk result (λ r. r ≡ ns_of self.now) }
    {
        let rdata = ShortBytes::copy_of(alloc, self.host.wire())?;
        Ok(Resource {
            owner: ShortBytes::few(APEX),
            kind: rr_type::NS,
            rdata,
        })
    }
}
