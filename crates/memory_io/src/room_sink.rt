//! A sink with a fixed room, which never fails.

ghost use Rattle.std.specs.Prelude.{◌≡◌, ◌-◌, ◌≤◌, length, min, IfOk, IsOk};
ghost use Rattle.byte_io.specs.Sink.{Writes};
ghost use Rattle.memory_io.specs.RoomSink.{empty_room, room_seen};

use byte_io::{Failed, Sink};
use nmc_base::NoMemory;
use std::alloc::Global;
use std::marker::Model;

/// A sink with a fixed room, which never fails and takes nothing exactly where it is full.
#[derive(Debug, Drop)]
pub struct RoomSink {
    taken: Vec<u8>,
    room: usize,
    stalled: bool,
    stalls: u64,
}

impl Model for RoomSink {
    ghost use Rattle.std.specs.Prelude.{◌≤◌, length};
    ghost use Rattle.std.specs.Vec.{vec_capacity};
    ghost use Rattle.memory_io.specs.RoomSink.{RoomView};

    ghost Value = { RoomView };

    ghost view = { λ s. record { taken = s.taken.items; room = s.room; stalled = s.stalled; stalls = s.stalls } };

    ghost invariant = { λ s. (length s.taken.items ≤ s.room) × (s.room ≤ vec_capacity s.taken) };
}

impl RoomSink {
    /// An empty sink with room for `room` bytes in all.
    pub fn new(alloc: Global, room: usize) -> Result<RoomSink, NoMemory>
        ensures { IfOk result (λ sink. sink ≡ empty_room room) }
    {
        Ok(RoomSink {
            taken: Vec::with_capacity(alloc, room)?,
            room,
            stalled: false,
            stalls: 0,
        })
    }

    /// The bytes taken.
    pub fn taken(&self) -> &[u8]
        ensures taken { result.now ≡ self.now.taken }
        ensures within { length result.now ≤ self.now.room }
    {
        self.taken.as_slice()
    }
}

impl Sink for RoomSink {
    ghost seen = { room_seen };

    /// Takes as many bytes as there is room for, and never fails.
    fn write(&mut self, piece: &[u8]) -> Result<usize, Failed>
        ensures writes { Writes (room_seen self.old) (room_seen self.new) piece.now result }
        ensures ok { IsOk result }

        ensures amount { IfOk result (λ n. n ≡ min (self.old.room - length self.old.taken) (length piece.now)) }
        ensures room { self.new.room ≡ self.old.room }
    {
        let count = piece.len().min(self.room - self.taken.len());
        let (front, _) = piece.split_at(count);
        match self.taken.extend_from_slice(front) {
            Ok(()) => {}
            Err(_) => unreachable!(),
        }
        self.stalled = count == 0 && !piece.is_empty();
        if self.stalled {
            self.stalls = self.stalls.saturating_add(1);
        }
        Ok(count)
    }
}
