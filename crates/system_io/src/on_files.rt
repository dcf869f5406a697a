//! Reads and writes of a file that go on until all is done.

ghost use Rattle.std.specs.Prelude.{◌≡◌, ◌+◌, ◌<◌, ◌≤◌, length, IsTrue, IfOk, OnOk};
ghost use Rattle.disk_model.specs.Moments.{EachMoment};
ghost use Rattle.disk_model.specs.Changes.{Changes, AfterWrite, Unchanged};
ghost use Rattle.disk_model.specs.FileState.{put};
ghost use Rattle.disk_model.specs.Reads.{IsRead};
ghost use Rattle.system_io.specs.Files.{holds, HasRead, WritesOn};

use crate::files::Files;
use std::io::{self, ErrorKind};

/// The error of a call that failed, though the system's didn't. People are told.
fn failed<F: Files>(files: &F, file: u8, call: &'static str, error: io::Error) -> io::Error
    requires { file < 3 }
{
    files.tell(file, call, error);
    error
}

/// The position so far behind another, if there is one. People are told where there is none.
fn behind<F: Files>(
    files: &F,
    file: u8,
    call: &'static str,
    at: u64,
    count: usize,
) -> io::Result<u64>
    requires { file < 3 }
    ensures { IfOk result (λ n. n ≡ at + count) }
{
    match at.checked_add(count as u64) {
        Some(position) => Ok(position),
        None => Err(failed(files, file, call, ErrorKind::InvalidInput.into())),
    }
}

/// Reads from a position on until the buffer is full or the file ends, and says how many bytes.
pub(crate) fn read_on<F: Files>(
    files: &mut F,
    file: u8,
    at: u64,
    buf: &mut [u8],
) -> io::Result<usize>
    requires { file < 3 }
    ensures bound { IfOk result (λ n. n ≤ length buf.new) }
    ensures bytes { IsTrue F.tells → IfOk result (λ n. IsRead (holds (F.moments files.old) file) at (length buf.old) n buf.new) }
    ensures time { IsTrue F.tells → EachMoment (Unchanged (F.moments files.old).now) (F.moments files.old) (F.moments files.new) }
{
    let mut count = 0;
    for _ in 0..u64::MAX {
        if count >= buf.len() {
            return Ok(count);
        }
        let from = behind(files, file, "read", at, count)?;
        match files.read_part(file, from, &mut buf[count..]) {
            Ok(0) => return Ok(count),
            Ok(more) => count += more,
            Err(error) if error.kind() == ErrorKind::Interrupted => {}
            Err(error) => return Err(error),
        }
    }
    Err(failed(files, file, "read", ErrorKind::Interrupted.into()))
}

/// Where the next part of a write begins, so far behind its position. It is a failed call where no file may be so long.
fn next_part<F: Files>(files: &F, file: u8, at: u64, count: usize) -> io::Result<u64>
    requires { file < 3 }
    ensures place { IfOk result (λ n. n ≡ at + count) }
    ensures below { IfOk result (λ n. n < F.limit files.now) }
{
    let from = behind(files, file, "write", at, count)?;
    if from >= files.longest() {
        let error = io::Error::from_raw_os_error(libc::EFBIG);
        return Err(failed(files, file, "write", error));
    }
    Ok(from)
}

/// Writes all of the bytes at a position. Where that would make the file longer than it may get it is a failed call.
pub(crate) fn write_on<F: Files>(files: &mut F, file: u8, at: u64, bytes: &[u8]) -> io::Result<()>
    requires file { file < 3 }
    requires inside { IsTrue F.tells → at ≤ length (holds (F.moments files.old) file) }
    ensures below { 0 < length bytes.now → OnOk result (at + length bytes.now ≤ F.limit files.old) }
    ensures written { IsTrue F.tells → OnOk result (holds (F.moments files.new) file ≡ put (holds (F.moments files.old) file) at bytes.now) }
    ensures time { IsTrue F.tells → EachMoment (Changes file (AfterWrite at (length bytes.now)) (F.moments files.old).now) (F.moments files.old) (F.moments files.new) }
{
    let mut count = 0;
    for _ in 0..u64::MAX {
        if count >= bytes.len() {
            return Ok(());
        }
        let from = next_part(files, file, at, count)?;
        match files.write_part(file, from, &bytes[count..]) {
            Ok(0) => return Err(failed(files, file, "write", ErrorKind::WriteZero.into())),
            Ok(more) => count += more,
            Err(error) if error.kind() == ErrorKind::Interrupted => {}
            Err(error) => return Err(error),
        }
    }
    Err(failed(files, file, "write", ErrorKind::Interrupted.into()))
}
