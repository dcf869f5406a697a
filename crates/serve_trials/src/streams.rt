//! A source and a sink that fail, deal with one byte at a time, or stand still.

use byte_io::{Failed, Sink, Source};
use memory_io::{MemorySink, MemorySource, RoomSink};
use nmc_base::NoMemory;
use std::alloc::Global;

/// How many bytes one call deals with.
#[derive(Clone, Copy, PartialEq, Eq)]
pub(crate) enum Pace {
    /// One at most.
    Byte,
    /// All that there are.
    Whole,
}

/// A source in memory, read at a pace.
#[derive(Drop)]
pub(crate) struct Given {
    whole: MemorySource,
    pace: Pace,
}

impl Given {
    /// These bytes, where the read of this number fails; 0 is that of none.
    pub(crate) fn new(
        alloc: Global,
        bytes: &[u8],
        pace: Pace,
        fail: u64,
    ) -> Result<Given, NoMemory> {
        let whole = MemorySource::new(alloc, bytes, &[fail])?;
        Ok(Given { whole, pace })
    }
}

impl Source for Given {
    ghost use Rattle.memory_io.specs.MemorySource.{memory_seen};

    ghost seen = { λ s. memory_seen s.whole };

    fn read(&mut self, buf: &mut [u8]) -> Result<usize, Failed> {
        let most = match self.pace {
            Pace::Byte => buf.len().min(1),
            Pace::Whole => buf.len(),
        };
        self.whole.read(&mut buf[..most])
    }
}

/// A sink in memory, written at a pace, or one with a fixed room.
#[derive(Drop)]
pub(crate) struct Taken {
    whole: MemorySink,
    pace: Pace,
    room: RoomSink,
    is_room: bool,
}

impl Taken {
    /// Where the write of this number fails; 0 is that of none.
    pub(crate) fn new(alloc: Global, pace: Pace, fail: u64) -> Result<Taken, NoMemory> {
        let whole = MemorySink::new(alloc, &[fail])?;
        let room = RoomSink::new(alloc, 0)?;
        Ok(Taken {
            whole,
            pace,
            room,
            is_room: false,
        })
    }

    /// With room for so many bytes.
    pub(crate) fn with_room(alloc: Global, room: usize) -> Result<Taken, NoMemory> {
        let whole = MemorySink::new(alloc, &[])?;
        let room = RoomSink::new(alloc, room)?;
        Ok(Taken {
            whole,
            pace: Pace::Whole,
            room,
            is_room: true,
        })
    }

    pub(crate) fn bytes(&self) -> &[u8] {
        if self.is_room {
            self.room.taken()
        } else {
            self.whole.taken()
        }
    }
}

impl Sink for Taken {
    ghost use Rattle.std.specs.Prelude.{if◌then◌else◌};
    ghost use Rattle.memory_io.specs.MemorySink.{memory_seen};
    ghost use Rattle.memory_io.specs.RoomSink.{room_seen};

    ghost seen = { λ s. if s.is_room then room_seen s.room else memory_seen s.whole };

    fn write(&mut self, piece: &[u8]) -> Result<usize, Failed> {
        if self.is_room {
            return self.room.write(piece);
        }
        let most = match self.pace {
            Pace::Byte => piece.len().min(1),
            Pace::Whole => piece.len(),
        };
        self.whole.write(&piece[..most])
    }
}
