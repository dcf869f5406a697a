//! How a command ended, and its line for people.

ghost use Rattle.std.specs.Prelude.{◌≡◌, Some};
ghost use Rattle.bridge_core.specs.Statuses.{number_of, line_of};

use nmc_base::NoMemory;
use std::fmt;

/// How a command ended. It is displayed as its line on standard error; that of `Done` is empty.
#[derive(Clone, Copy, PartialEq, Eq, Debug)]
pub enum Status {
    /// The work was done: the files were made, the source was read to its end and every byte belongs to a whole frame, the
    /// report or the summary was written, or all polls were made.
    Done,
    /// The words are none of the forms.
    Words,
    /// File 0 has fewer than 50 bytes, or its first byte isn't 1: the files were not made, or not to their end.
    Uninitialised,
    /// File 0 has 50 bytes or more, and its first byte is 1: the files were made before, and are as they were.
    Initialised,
    /// The first damage of the files: the number of the file, and the place in it.
    Damaged { file: u8, at: u64 },
    /// What begins no frame starts at this byte of the source.
    BadFrame { offset: u64 },
    /// The source ended inside the frame that starts at this byte.
    CutFrame { offset: u64 },
    /// A call of the disk failed. The files are to be opened again.
    DiskFault,
    /// The last read failed.
    SourceFault,
    /// The last write failed, or took nothing of a piece that isn't empty.
    SinkFault,
    /// Memory ran out before anything was read, written or polled; in a self-test, before its summary was written.
    NoMemory,
    /// As many bytes as the limit were read, and nothing was wrong with them.
    InputLimit,
    /// The ports couldn't be bound.
    PortFault,
    /// What the source has is no snapshot on the base: the place of its first fault.
    BadSnapshot { at: u64 },
    /// An event of this block was refused in a self-test, counted from 1.
    TestFailed { block: u32 },
}

impl Status {
    /// The exit status of the program: 0 where the work was done.
    pub fn number(&self) -> u8
        ensures { result ≡ number_of self.now }
    {
        match self {
            Status::Done => 0,
            Status::Words => 2,
            Status::Uninitialised | Status::Initialised | Status::Damaged { .. } => 3,
            Status::BadFrame { .. } | Status::CutFrame { .. } => 4,
            Status::DiskFault => 5,
            Status::SourceFault => 6,
            Status::SinkFault => 7,
            Status::NoMemory => 8,
            Status::InputLimit => 9,
            Status::PortFault => 10,
            Status::BadSnapshot { .. } => 11,
            Status::TestFailed { .. } => 12,
        }
    }
}

impl From<NoMemory> for Status {
    ghost use Rattle.bridge_core.specs.declared.status.Status.TheVariants.{NoMemory};

    ghost from_gives = { λ _ e. e ≡ NoMemory };

    fn from(_fault: NoMemory) -> Status {
        Status::NoMemory
    }
}

impl fmt::Display for Status {
    ghost output = { λ s. Some (line_of s) };

    fn fmt<W: fmt::Write>(&self, f: &mut fmt::Formatter<W>) -> fmt::Result {
        match self {
            Status::Done => Ok(()),
            Status::Words => write!(f, "bad words"),
            Status::Uninitialised => write!(f, "not initialised"),
            Status::Initialised => write!(f, "already initialised"),
            Status::Damaged { file, at } => write!(f, "damaged file {file} at {at}"),
            Status::BadFrame { offset } => write!(f, "bad frame at {offset}"),
            Status::CutFrame { offset } => write!(f, "cut frame at {offset}"),
            Status::DiskFault => write!(f, "disk fault"),
            Status::SourceFault => write!(f, "read fault"),
            Status::SinkFault => write!(f, "write fault"),
            Status::NoMemory => write!(f, "out of memory"),
            Status::InputLimit => write!(f, "input limit"),
            Status::PortFault => write!(f, "port fault"),
            Status::BadSnapshot { at } => write!(f, "bad snapshot at {at}"),
            Status::TestFailed { block } => write!(f, "self-test failed at block {block}"),
        }
    }
}
