//! Files as a disk.

ghost use Rattle.std.specs.Prelude.{◌≡◌, false};
ghost use Rattle.fault_counts.specs.Counts.{counted};

use crate::files::Files;
use crate::folder::Folder;
use crate::on_files::{read_on, write_on};
use crate::people::People;
use crate::tally::Tally;
use disk_model::{Disk, Failed};

/// Files as a disk: it reads and writes on until all is done, counts the calls that failed and those that change a file, and tells of
/// the files what they tell themselves.
#[derive(Drop)]
pub struct DiskOf<F> {
    files: F,
    tally: Tally,
    // writes and cuts, done or not
    changes: u64,
}

/// The files of a folder as a disk. People are told why a call failed.
pub type FileDisk<'a> = DiskOf<Folder<'a>>;

impl<F> DiskOf<F> {
    /// No call was made yet.
    pub fn over(files: F) -> Self
        ensures files { result.files ≡ files }
        ensures faults { result.tally.faults ≡ 0 }
        ensures failed { result.tally.failed ≡ false }
    {
        DiskOf {
            files,
            tally: Tally::new(),
            changes: 0,
        }
    }
}

impl<'a> DiskOf<Folder<'a>> {
    /// No call was made yet, and no file is opened.
    pub fn new(rt: &'a HostRuntime, people: &'a People<'a>) -> Self {
        DiskOf::over(Folder::new(rt, people))
    }
}

impl<F: Files> Disk for DiskOf<F> {
    ghost tells = { F.tells };

    ghost seen = { λ d. record {
      moments = F.moments d.files;
      faults = counted d.tally.faults;
      failed = d.tally.failed;
      changes = d.changes;
    } };

    ghost shows = { λ d file told low. F.shows d.files file told low };

    fn len(&mut self, file: u8) -> Result<u64, Failed> {
        let answer = self.files.len(file);
        self.tally.count(answer, Failed)
    }

    fn read(&mut self, file: u8, at: u64, buf: &mut [u8]) -> Result<usize, Failed> {
        let answer = read_on(&mut self.files, file, at, buf);
        self.tally.count(answer, Failed)
    }

    fn write_at(&mut self, file: u8, at: u64, bytes: &[u8]) -> Result<(), Failed> {
        self.changes = self.changes.saturating_add(1);
        let answer = write_on(&mut self.files, file, at, bytes);
        self.tally.count(answer, Failed)
    }

    fn cut(&mut self, file: u8, len: u64) -> Result<(), Failed> {
        self.changes = self.changes.saturating_add(1);
        let answer = self.files.cut(file, len);
        self.tally.count(answer, Failed)
    }

    fn sync(&mut self, file: u8) -> Result<(), Failed> {
        let answer = self.files.sync(file);
        self.tally.count(answer, Failed)
    }
}
