//! A disk's files as files that tell what they hold.

ghost use Rattle.std.specs.Prelude.{◌≡◌};

use crate::files::Files;
use disk_model::Disk;
use std::io::{self, ErrorKind};

/// A disk's files, told as the disk tells them. A file may get as long as an offset and a length of the processor's words go.
#[derive(Drop)]
pub struct FilesOf<D> {
    disk: D,
}

impl<D> FilesOf<D> {
    pub fn of(disk: D) -> Self
        ensures { result.disk ≡ disk }
    {
        FilesOf { disk }
    }
}

impl<D: Disk> Files for FilesOf<D> {
    ghost tells = { D.tells };

    ghost moments = { λ f. (D.seen f.disk).moments };

    ghost limit = { λ f. 36893488147419103232 };

    ghost shows = { λ f file told low. D.shows f.disk file told low };

    fn longest(&self) -> u64 {
        u64::MAX
    }

    fn len(&mut self, file: u8) -> io::Result<u64> {
        match self.disk.len(file) {
            Ok(len) => Ok(len),
            Err(_) => Err(ErrorKind::Other.into()),
        }
    }

    fn read_part(&mut self, file: u8, at: u64, buf: &mut [u8]) -> io::Result<usize> {
        match self.disk.read(file, at, buf) {
            Ok(count) => Ok(count),
            Err(_) => Err(ErrorKind::Other.into()),
        }
    }

    fn write_part(&mut self, file: u8, at: u64, bytes: &[u8]) -> io::Result<usize> {
        match self.disk.write_at(file, at, bytes) {
            Ok(()) => Ok(bytes.len()),
            Err(_) => Err(ErrorKind::Other.into()),
        }
    }

    fn cut(&mut self, file: u8, len: u64) -> io::Result<()> {
        match self.disk.cut(file, len) {
            Ok(()) => Ok(()),
            Err(_) => Err(ErrorKind::Other.into()),
        }
    }

    fn sync(&mut self, file: u8) -> io::Result<()> {
        match self.disk.sync(file) {
            Ok(()) => Ok(()),
            Err(_) => Err(ErrorKind::Other.into()),
        }
    }

    fn tell(&self, _file: u8, _call: &'static str, _error: io::Error) {}
}
