//! How long a file may get.
ghost use Rattle.std.specs.Prelude.{◌≡◌, ◌-◌, ◌<◌, take};

use libc::getrlimit;
use libc::types::rlimit;

/// The system's number for the limit on the length of a file (setrlimit(2)).
const RLIMIT_FSIZE: i32 = 1;

/// The greatest length that a write may give a file of this program: what it was told with `ulimit -f` or the like. A limit that
/// can't be asked for is none.
pub(crate) fn longest_file() -> u64 {
    let mut limit = rlimit {
        rlim_cur: u64::MAX,
        rlim_max: u64::MAX,
    };
    match getrlimit(RLIMIT_FSIZE, &mut limit) {
        0 => limit.rlim_cur,
        _ => u64::MAX,
    }
}

/// Those of the bytes that a file has room for at a position, where it may get so long.
pub(crate) fn below(bytes: &[u8], at: u64, longest: u64) -> &[u8]
    requires { at < longest }
    ensures { result.now ≡ take (longest - at) bytes.now }
{
    let room = (longest - at) as usize;
    &bytes[..bytes.len().min(room)]
}
