//! A writer as a sink.

ghost use Rattle.std.specs.Prelude.{◌≡◌, false};
ghost use Rattle.std.specs.Io.{WritesAtMost};
ghost use Rattle.std.specs.Io.KnownBytes.{WriteAppends};

use crate::people::People;
use crate::tally::Tally;
use byte_io::{Failed, Sink};
use std::io::{self, ErrorKind, Write};

/// A writer as a sink: it counts the writes that failed, tells people why, and tells of its bytes what the writer tells. A write
/// that a signal interrupted is made again.
#[derive(Drop)]
pub struct WriterSink<'a, W> {
    writer: W,
    people: &'a People<'a>,
    tally: Tally,
    // the last write took nothing of what isn't empty, and so many did
    stalled: bool,
    stalls: u64,
}

impl<'a, W> WriterSink<'a, W> {
    /// No write was made yet. People know the writer as standard output.
    pub fn new(writer: W, people: &'a People<'a>) -> Self
        ensures writer { result.writer ≡ writer }
        ensures faults { result.tally.faults ≡ 0 }
        ensures failed { result.tally.failed ≡ false }
        ensures stalled { result.stalled ≡ false }
        ensures stalls { result.stalls ≡ 0 }
    {
        WriterSink {
            writer,
            people,
            tally: Tally::new(),
            stalled: false,
            stalls: 0,
        }
    }
}

/// Writes once, but for writes that a signal interrupted.
fn write_whole<W: Write>(writer: &mut W, piece: &[u8]) -> io::Result<usize>
    ensures bound { WritesAtMost result piece.now }
    ensures bytes { WriteAppends (W.contents writer.old) (W.contents writer.new) result piece.now }
{
    for _ in 0..u64::MAX {
        match writer.write(piece) {
            Err(error) if error.kind() == ErrorKind::Interrupted => {}
            answer => return answer,
        }
    }
    Err(ErrorKind::Interrupted.into())
}

/// People aren't told that whoever read went away: that is no fault of this program's.
fn heard(people: &People<'_>, answer: io::Result<usize>) -> io::Result<usize>
    ensures { result ≡ answer }
{
    match &answer {
        Err(error) if error.kind() == ErrorKind::BrokenPipe => answer,
        _ => people.heard("standard output", "write", answer),
    }
}

impl<'a, W: Write> Sink for WriterSink<'a, W> {
    ghost use Rattle.fault_counts.specs.Counts.{counted};

    ghost seen = { λ s. record { taken = W.contents s.writer; faults = counted s.tally.faults; failed = s.tally.failed; stalled = s.stalled; stalls = s.stalls } };

    fn write(&mut self, piece: &[u8]) -> Result<usize, Failed> {
        let answer = write_whole(&mut self.writer, piece);
        match heard(self.people, answer) {
            Ok(count) => {
                self.tally.note_done();
                self.stalled = count == 0 && !piece.is_empty();
                if self.stalled {
                    self.stalls = self.stalls.saturating_add(1);
                }
                Ok(count)
            }
            Err(_) => {
                self.tally.note_failed();
                self.stalled = false;
                Err(Failed)
            }
        }
    }
}
