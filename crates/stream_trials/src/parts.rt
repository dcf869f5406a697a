//! Files whose calls do a part of what they are asked for.

ghost use Rattle.std.specs.Prelude.{◌≡◌, ◌<◌, take};

use std::io;
use system_io::Files;

/// Files of which a read or a write deals with so many bytes at most, whatever it is asked for.
#[derive(Drop)]
pub struct InParts<F> {
    files: F,
    most: usize,
    ghost some: { 0 < most },
}

/// So many of the bytes at most, from the front.
fn front(bytes: &[u8], most: usize) -> &[u8]
    ensures { result.now ≡ take most bytes.now }
{
    &bytes[..bytes.len().min(most)]
}

impl<F> InParts<F> {
    pub fn of(files: F, most: usize) -> Self
        requires { 0 < most }
        ensures { result.files ≡ files }
    {
        InParts { files, most }
    }
}

impl<F: Files> Files for InParts<F> {
    ghost tells = { F.tells };

    ghost moments = { λ f. F.moments f.files };

    ghost limit = { λ f. F.limit f.files };

    ghost shows = { λ f file told low. F.shows f.files file told low };

    fn longest(&self) -> u64 {
        self.files.longest()
    }

    fn len(&mut self, file: u8) -> io::Result<u64> {
        self.files.len(file)
    }

    fn read_part(&mut self, file: u8, at: u64, buf: &mut [u8]) -> io::Result<usize> {
        let room = buf.len().min(self.most);
        self.files.read_part(file, at, &mut buf[..room])
    }

    fn write_part(&mut self, file: u8, at: u64, bytes: &[u8]) -> io::Result<usize> {
        self.files.write_part(file, at, front(bytes, self.most))
    }

    fn cut(&mut self, file: u8, len: u64) -> io::Result<()> {
        self.files.cut(file, len)
    }

    fn sync(&mut self, file: u8) -> io::Result<()> {
        self.files.sync(file)
    }

    fn tell(&self, file: u8, call: &'static str, error: io::Error) {
        self.files.tell(file, call, error);
    }
}
