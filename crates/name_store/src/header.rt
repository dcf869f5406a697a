//! The header of file 0, as it is read.
ghost use Rattle.std.specs.Prelude.{◌≡◌, ◌↔◌, ◌<◌, ◌≤◌, length, take, drop, slice_index, IsTrue, IfOk, IsErrOf, MatchOption, MatchResult};
ghost use Rattle.std.specs.Int.{w32, to_le_bytes};
ghost use Rattle.disk_model.specs.Moments.{EachMoment};
ghost use Rattle.disk_model.specs.Changes.{Unchanged};
ghost use Rattle.disk_model.specs.DiskSeen.{EndsWith, bytes_in};
ghost use Rattle.name_store.specs.Host.{IsHostOf};
ghost use Rattle.name_store.specs.Header as headers;
ghost use Rattle.name_store.specs.Header.{IsInitialised, IsProfile, HasFields, HasHost};
ghost use Rattle.name_store.specs.Damage.{HasBadField};
ghost use Rattle.name_store.specs.HeaderAnswers.{HeaderAnswer, IsHeaderOf, IsBegunBy};

use crate::faults::OpenFault;
use crate::host::host_name;
use crate::limits::HEADER_FILE;
use disk_model::Disk;
use domain_text::Name;
use nmc_base::{Base, HIGHEST_HEIGHT, Hash32, Profile};

/// The bytes behind the gate of file 0.
const MAGIC: [u8; 8] = *b"NMCIDX1\n";

/// So many bytes has a header with the shortest host and the gate behind it.
const SHORTEST_HEADER: usize = 50;

/// No header with the gate behind it is longer.
const LONGEST_HEADER: usize = 303;

/// A gate that is open.
const OPEN: u8 = 1;

/// What a header tells.
#[derive(Drop)]
pub struct Header {
    pub base: Base,
    pub host: Name,
    /// The place of the first gate of the selections.
    pub selections: u64,
}

/// Whether the header's gate is open, and there are as many bytes as a header has at least.
pub fn is_initialised(bytes: &[u8]) -> bool
    ensures { IsTrue result ↔ IsInitialised bytes.now }
{
    bytes.len() >= SHORTEST_HEADER && bytes[0] == OPEN
}

fn has_magic(bytes: &[u8]) -> bool
    requires { 50 ≤ length bytes.now }
    ensures { IsTrue result ↔ (headers.magic_at bytes.now ≡ headers.magic) }
{
    &bytes[1..9] == MAGIC.as_slice()
}

/// The profile of the byte, None exactly where the byte is none's.
fn read_profile(byte: u8) -> Option<Profile>
    ensures { MatchOption result (¬ (IsProfile byte)) (λ profile. IsProfile byte × (profile ≡ headers.profile_of byte)) }
{
    match byte {
        1 => Some(Profile::Regtest),
        2 => Some(Profile::Main),
        _ => None,
    }
}

fn height(bytes: &[u8]) -> u32
    requires { 50 ≤ length bytes.now }
    ensures value { result ≡ headers.height_at bytes.now }
    ensures bytes { to_le_bytes w32 (headers.height_at bytes.now) ≡ take 4 (drop 10 bytes.now) }
{
    let mut field = [0; 4];
    field.copy_from_slice(&bytes[10..14]);
    u32::from_le_bytes(field)
}

fn hash(bytes: &[u8]) -> Hash32
    requires { 50 ≤ length bytes.now }
    ensures { result.0 ≡ headers.hash_at bytes.now }
{
    let mut field = [0; 32];
    field.copy_from_slice(&bytes[14..46]);
    Hash32(field)
}

/// The place of the first gate of the selections.
fn selections(bytes: &[u8]) -> usize
    requires { 50 ≤ length bytes.now }
    ensures { result ≡ headers.selections_at bytes.now }
{
    47 + usize::from(bytes[46])
}

/// The name of the host, None exactly where it does not lie inside the bytes, or is none.
fn host(bytes: &[u8]) -> Option<Name>
    requires { 50 ≤ length bytes.now }
    ensures { MatchOption result (¬ (HasHost bytes.now)) (λ name. IsHostOf (headers.host_at bytes.now) name × HasHost bytes.now) }
{
    let end = selections(bytes);
    if bytes.len() < end {
        return None;
    }
    host_name(&bytes[47..end])
}

/// What the fields tell, or the place of the first that is none.
fn read_fields(bytes: &[u8]) -> Result<Header, u64>
    requires { 50 ≤ length bytes.now }
    ensures { MatchResult result (λ header. HasFields bytes.now × IsHeaderOf bytes.now header) (λ at. HasBadField bytes.now at) }
{
    if !has_magic(bytes) {
        return Err(1);
    }
    let Some(profile) = read_profile(bytes[9]) else {
        return Err(9);
    };
    let height = height(bytes);
    if height > HIGHEST_HEIGHT {
        return Err(10);
    }
    match host(bytes) {
        Some(host) => {
            let base = Base {
                profile,
                height,
                hash: hash(bytes),
            };
            Ok(Header {
                base,
                host,
                selections: selections(bytes) as u64,
            })
        }
        None => Err(47),
    }
}

/// The header at the front of the bytes, or the first damage of it.
fn header_of(bytes: &[u8]) -> Result<Header, OpenFault>
    ensures answer { HeaderAnswer bytes.now result }
    // Each of them is a byte.
    ensures byte { slice_index bytes.now 46 < 256 }
    ensures disk { IsErrOf result OpenFault.DiskFault → ⊥ }
    ensures memory { IsErrOf result OpenFault.NoMemory → ⊥ }
{
    if !is_initialised(bytes) {
        return Err(OpenFault::Uninitialised);
    }
    match read_fields(bytes) {
        Ok(header) => Ok(header),
        Err(at) => Err(OpenFault::Damaged {
            file: HEADER_FILE,
            at,
        }),
    }
}

/// The header of file 0, or the first damage of it. One read is made.
pub fn read_header<D: Disk>(disk: &mut D) -> Result<Header, OpenFault>
    ensures answer { IsTrue D.tells → HeaderAnswer (bytes_in (D.seen disk.old) 0) result }
    ensures begun { IfOk result (λ header. IsBegunBy header) }
    ensures memory { IsErrOf result OpenFault.NoMemory → ⊥ }
    ensures time { IsTrue D.tells → EachMoment (Unchanged (D.seen disk.old).moments.now) (D.seen disk.old).moments (D.seen disk.new).moments }
    ensures reads { (D.seen disk.new).changes ≡ (D.seen disk.old).changes }
    ensures ends { EndsWith OpenFault.DiskFault (D.seen disk.old) (D.seen disk.new) result }
{
    let mut bytes = [0; LONGEST_HEADER];
    let count = disk.read(HEADER_FILE, 0, &mut bytes)?;
    header_of(&bytes[..count])
}
