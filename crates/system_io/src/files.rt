//! Three files, by calls each of which is one of the system's.

ghost use Rattle.std.specs.Prelude.{◌≡◌, ◌+◌, ◌<◌, ◌≤◌, ℕ, Bool, length, IsTrue, IfOk};
ghost use Rattle.disk_model.specs.FileState.{IsFileImage};
ghost use Rattle.disk_model.specs.Moments.{Moments};
ghost use Rattle.system_io.specs.Files.{Tells, ReadsPart, WritesPart, Cuts, Settles};

use std::io;

/// Three files, of the numbers 0, 1 and 2, by calls each of which is one of the system's: a read or a write may do a part of what it
/// is asked for, and each may fail.
///
/// Files need not tell what they hold; then only what is said of counts holds.
pub trait Files {
    /// Whether files of this type tell what they hold.
    ghost tells: { Bool };

    /// What they hold now, and held at each moment before.
    ghost moments: { Self → Moments };

    /// The greatest length that a write may give a file.
    ghost limit: { Self → ℕ };

    /// The greatest length that a write may give a file, as far as a number of this size can say it. No write is asked for at it or
    /// behind it: the system would end the program by a signal (SIGXFSZ, POSIX.1-2017, write).
    fn longest(&self) -> u64
        ensures { result ≤ limit self.now };

    /// The length of a file.
    fn len(&mut self, file: u8) -> io::Result<u64>
        requires { file < 3 }
        ensures { Tells tells file (moments self.old) (moments self.new) result };

    /// Reads some bytes from a position on into the front of the buffer, and says how many. None come only at the file's end.
    fn read_part(&mut self, file: u8, at: u64, buf: &mut [u8]) -> io::Result<usize>
        requires { file < 3 }
        ensures { ReadsPart tells file at buf.new (moments self.old) (moments self.new) result };

    /// Writes some bytes from the front of these at a position, and says how many. A write that a signal interrupted wrote none.
    fn write_part(&mut self, file: u8, at: u64, bytes: &[u8]) -> io::Result<usize>
        requires file { file < 3 }
        requires inside { IsTrue tells → at ≤ length ((moments self.old).now file).bytes }
        requires below { at < limit self.old }
        ensures part { WritesPart tells file at bytes.now (moments self.old) (moments self.new) result }
        ensures below { IfOk result (λ n. at + n ≤ limit self.old) }
        ensures limit { limit self.new ≡ limit self.old };

    /// Cuts a file to a length.
    fn cut(&mut self, file: u8, len: u64) -> io::Result<()>
        requires file { file < 3 }
        requires inside { IsTrue tells → len ≤ length ((moments self.old).now file).bytes }
        ensures { Cuts tells file len (moments self.old) (moments self.new) result };

    /// After it a crash leaves of the file what reads give.
    fn sync(&mut self, file: u8) -> io::Result<()>
        requires { file < 3 }
        ensures { Settles tells file (moments self.old) (moments self.new) result };

    /// Tells people of a call that failed though the system's didn't: it did nothing, or wasn't made.
    fn tell(&self, file: u8, call: &'static str, error: io::Error)
        requires { file < 3 };

    /// What reads give is one of the images.
    ghost shows: { (files : Self) (file : ℕ) → IsTrue tells → file < 3 → IsFileImage ((moments files).now file) ((moments files).now file).bytes };
}
