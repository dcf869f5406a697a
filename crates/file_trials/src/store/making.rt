//! Files are made once, and left as they are then.

ghost use Rattle.std.specs.Prelude.{◌<◌, ◌≤◌, ℕ, List, IfSome};
ghost use Rattle.nmc_base.specs.declared.limits.TheConstants.{HIGHEST_HEIGHT};
ghost use Rattle.name_store.specs.Host.{IsHostOf};

use super::files::holds;
use disk_model::Disk;
use domain_text::{Name, absolute_name};
use memory_disk::MemoryDisk;
use name_store::{CreateFault, create};
use nmc_base::{Base, Hash32, Profile};
use std::alloc::Global;
use std::process::Abort;
use std::test::Fail;

/// The header of the base at height 0 on 32 zero bytes, whose host is `ns.example.`, and the closed gate behind it.
pub(super) static HEADER: [u8; 59] = [
    1, b'N', b'M', b'C', b'I', b'D', b'X', b'1', b'\n', 1, 0, 0, 0, 0, 0, 0, 0, 0, 0, 0, 0, 0, 0,
    0, 0, 0, 0, 0, 0, 0, 0, 0, 0, 0, 0, 0, 0, 0, 0, 0, 0, 0, 0, 0, 0, 0, 11, b'n', b's', b'.',
    b'e', b'x', b'a', b'm', b'p', b'l', b'e', b'.', 0,
];

/// The host `ns.example.`; None where it would be none of a base.
pub(super) fn host() -> Option<Name>
    ensures { IfSome result (λ name. (text : List ℕ) × IsHostOf text name) }
{
    let name = absolute_name(b"ns.example.")?;
    if name.wire().len() <= 244 {
        Some(name)
    } else {
        None
    }
}

/// Makes the files of the base at this height with that hash and host. None where the host's text is none.
pub(super) fn made<D: Disk>(disk: &mut D, height: u32) -> Option<Result<(), CreateFault>>
    requires { height ≤ HIGHEST_HEIGHT }
{
    let host = host()?;
    let base = Base {
        profile: Profile::Regtest,
        height,
        hash: Hash32([0; 32]),
    };
    Some(create(disk, &base, &host))
}

/// It is made with this answer.
fn answers(rt: &impl Abort, disk: &mut MemoryDisk, want: Result<(), CreateFault>) {
    let got = made(disk, 0);
    assert!(rt; got == Some(want));
}

/// Files are made with this answer, and are those of the base then.
fn leaves_base(
    rt: &impl Abort,
    disk: &mut MemoryDisk,
    want: Result<(), CreateFault>,
) -> Result<(), Fail> {
    answers(rt, disk, want);
    holds(rt, disk, &[0; 9])
}

fn makes_once(rt: &impl Abort, disk: &mut MemoryDisk) -> Result<(), Fail> {
    leaves_base(rt, disk, Ok(()))?;
    leaves_base(rt, disk, Err(CreateFault::Initialised))
}

#[test]
fn files_are_made_once(rt: HostRuntime) -> Result<(), Fail> {
    let mut disk = MemoryDisk::new(rt.alloc(), &[])?;
    makes_once(&rt, &mut disk)
}

/// This call of the disk fails.
fn fails_at(rt: &impl Abort, alloc: Global, call: u64) -> Result<(), Fail> {
    let mut disk = MemoryDisk::new(alloc, &[call])?;
    answers(rt, &mut disk, Err(CreateFault::DiskFault));
    Ok(())
}

#[test]
fn each_failing_call_is_a_fault_of_the_disk(rt: HostRuntime) -> Result<(), Fail> {
    for call in 1..13u64 {
        fails_at(&rt, rt.alloc(), call)?;
    }
    Ok(())
}
