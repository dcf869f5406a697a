//! A reader as a source.

ghost use Rattle.std.specs.Prelude.{◌≡◌, false};

use crate::people::People;
use crate::reading::read_once;
use crate::tally::Tally;
use byte_io::{Failed, Source};
use std::io::Read;

/// A reader as a source: it counts the reads that failed, tells people why, and tells of its bytes what the reader tells. A read
/// that a signal interrupted is made again.
#[derive(Drop)]
pub struct ReaderSource<'a, R> {
    reader: R,
    people: &'a People<'a>,
    tally: Tally,
}

impl<'a, R> ReaderSource<'a, R> {
    /// No read was made yet. People know the reader as standard input.
    pub fn new(reader: R, people: &'a People<'a>) -> Self
        ensures reader { result.reader ≡ reader }
        ensures faults { result.tally.faults ≡ 0 }
        ensures failed { result.tally.failed ≡ false }
    {
        ReaderSource {
            reader,
            people,
            tally: Tally::new(),
        }
    }
}

impl<'a, R: Read> Source for ReaderSource<'a, R> {
    ghost use Rattle.fault_counts.specs.Counts.{counted};

    ghost seen = { λ s. record { left = R.remaining s.reader; faults = counted s.tally.faults; failed = s.tally.failed } };

    fn read(&mut self, buf: &mut [u8]) -> Result<usize, Failed> {
        let answer = read_once(&mut self.reader, buf);
        match self.people.heard("standard input", "read", answer) {
            Ok(count) => {
                self.tally.note_done();
                Ok(count)
            }
            Err(_) => {
                self.tally.note_failed();
                Err(Failed)
            }
        }
    }
}
