//! The trait of a disk with three files, which may crash at any moment.

ghost use Rattle.std.specs.Prelude.{◌<◌, ◌≤◌, ℕ, Bool, length, IsTrue};
ghost use Rattle.disk_model.specs.FileState.{IsFileImage};
ghost use Rattle.disk_model.specs.DiskSeen.{DiskSeen, file_in, bytes_in, Measures, ReadsAt, WritesAt, CutsTo, Syncs};

/// A call of a disk failed. Its count of faults rose in that call.
#[derive(Clone, Copy, Debug, PartialEq, Eq)]
pub struct Failed;

/// Three files, of the numbers 0, 1 and 2, on a disk that may crash at any moment.
///
/// Places and lengths are in bytes. Until a sync of a file succeeds, a crash may leave any bytes where
/// writes and cuts touched it, and any length between the least and the greatest since the last sync.
/// A disk need not tell its files; then only what is said of its faults and of the count of a read holds.
pub trait Disk {
    /// Whether a disk of this type tells its files.
    ghost tells: { Bool };

    /// The files now and at each moment before, and how often the disk has failed.
    ghost seen: { Self → DiskSeen };

    /// The length of a file.
    fn len(&mut self, file: u8) -> Result<u64, Failed>
        requires { file < 3 }
        ensures { Measures tells file (seen self.old) (seen self.new) result };

    /// Reads from a position on into the front of the buffer, and says how many bytes: fewer than it
    /// takes only at the file's end.
    fn read(&mut self, file: u8, at: u64, buf: &mut [u8]) -> Result<usize, Failed>
        requires { file < 3 }
        ensures { ReadsAt tells file at (length buf.old) buf.new (seen self.old) (seen self.new) result };

    /// Writes over what is there, and past the end. A write that failed may have touched all that it names.
    fn write_at(&mut self, file: u8, at: u64, bytes: &[u8]) -> Result<(), Failed>
        requires file { file < 3 }
        requires inside { IsTrue tells → at ≤ length (bytes_in (seen self.old) file) }
        ensures { WritesAt tells file at bytes.now (seen self.old) (seen self.new) result };

    /// Cuts a file to a length. A cut that failed may have touched all behind it.
    fn cut(&mut self, file: u8, len: u64) -> Result<(), Failed>
        requires file { file < 3 }
        requires inside { IsTrue tells → len ≤ length (bytes_in (seen self.old) file) }
        ensures { CutsTo tells file len (seen self.old) (seen self.new) result };

    /// After it a crash leaves of the file what reads give. A sync that failed settles nothing.
    fn sync(&mut self, file: u8) -> Result<(), Failed>
        requires { file < 3 }
        ensures { Syncs tells file (seen self.old) (seen self.new) result };

    /// What reads give is one of the images.
    ghost shows: { (disk : Self) (file : ℕ) → IsTrue tells → file < 3 → IsFileImage (file_in (seen disk) file) (bytes_in (seen disk) file) };
}
