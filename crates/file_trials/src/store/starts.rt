//! Files that are made from a snapshot, of as many bytes as the limit and of one fewer.

ghost use Rattle.std.specs.Prelude.{◌≤◌, ◌^◌};

use super::files::has;
use super::making::host;
use bridge_commands::{StartFault, make_from};
use disk_model::Disk;
use memory_disk::MemoryDisk;
use memory_io::MemorySource;
use nmc_base::{Base, Hash32, NoMemory, Profile};
use std::alloc::Global;
use std::process::Abort;
use std::test::Fail;

/// A snapshot of one name, `d/example`, at the base's height: the mark, the version, and the count; the outpoint, the tag and the height; the
/// name and the value behind their lengths.
const SNAPSHOT: &[u8; 78] =
    b"NMCS\x01\x01\x00\x00\x00\xaa\xaa\xaa\xaa\xaa\xaa\xaa\xaa\xaa\xaa\xaa\xaa\xaa\xaa\xaa\xaa\xaa\xaa\xaa\xaa\xaa\xaa\xaa\xaa\xaa\xaa\xaa\xaa\xaa\xaa\xaa\xaa\x00\x00\x00\x00\x53\x01\x00\x00\x00\x09d/example\x10\x00{\"ip\":\"1.2.3.4\"}";

/// Makes the files from the snapshot, of which fewer bytes than the limit are read. None where the host is none.
fn starts<D: Disk>(
    alloc: Global,
    disk: &mut D,
    limit: u64,
) -> Result<Option<Result<(), StartFault>>, NoMemory>
    requires { limit ≤ 2 ^ 32 }
{
    let Some(host) = host() else {
        return Ok(None);
    };
    let base = Base {
        profile: Profile::Regtest,
        height: 1,
        hash: Hash32([0; 32]),
    };
    let mut source = MemorySource::new(alloc, SNAPSHOT, &[])?;
    let made = make_from(alloc, &mut source, disk, &base, &host, limit);
    Ok(Some(made))
}

fn starts_so(
    rt: &impl Abort,
    alloc: Global,
    disk: &mut MemoryDisk,
    limit: u64,
    want: Result<(), StartFault>,
) -> Result<(), Fail>
    requires { limit ≤ 2 ^ 32 }
{
    let made = starts(alloc, disk, limit)?;
    assert!(rt; made == Some(want), "{made:?}");
    Ok(())
}

fn ends_at_the_limit(rt: &impl Abort, alloc: Global, disk: &mut MemoryDisk) -> Result<(), Fail> {
    starts_so(rt, alloc, disk, 78, Err(StartFault::InputLimit))?;
    let is_empty = has(disk, 0, &[])?;
    assert!(rt; is_empty);
    starts_so(rt, alloc, disk, 79, Ok(()))
}

#[test]
fn a_snapshot_has_fewer_bytes_than_the_limit(rt: HostRuntime) -> Result<(), Fail> {
    let mut disk = MemoryDisk::new(rt.alloc(), &[])?;
    ends_at_the_limit(&rt, rt.alloc(), &mut disk)
}
