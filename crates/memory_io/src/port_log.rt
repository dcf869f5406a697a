//! The notes of a port's calls.

ghost use Rattle.std.specs.Prelude.{◌≡◌, [], true, slice_get};
ghost use Rattle.std.specs.Option.{option_map};
ghost use Rattle.memory_io.specs.Kept.{outgoing, seen_note, seen_send, sent_note};
ghost use Rattle.memory_io.specs.MemoryPort.{Logs};

use crate::kept::{KeptNote, Recipient};
use byte_io::Sent;
use std::alloc::Global;
use std::marker::Model;

/// A note of each call, as long as memory was found for it.
#[derive(Drop)]
pub(crate) struct PortLog {
    notes: Vec<KeptNote>,
    is_whole: bool,
}

impl Model for PortLog {
    ghost use Rattle.std.specs.Prelude.{map};
    ghost use Rattle.memory_io.specs.Kept.{seen_note};
    ghost use Rattle.memory_io.specs.MemoryPort.{Log};

    ghost Value = { Log };

    ghost view = { λ l. record { notes = map seen_note l.notes.items; is_whole = l.is_whole } };
}

impl PortLog {
    pub(crate) fn new(alloc: Global) -> PortLog
        ensures { result ≡ record { notes = []; is_whole = true } }
    {
        PortLog {
            notes: Vec::new(alloc),
            is_whole: true,
        }
    }

    /// Notes a call, and answers whether there was memory for the note.
    pub(crate) fn note(&mut self, note: KeptNote) -> bool
        ensures { Logs self.old self.new (seen_note note) result }
    {
        if !self.is_whole {
            return true;
        }
        self.is_whole = self.notes.push(note).is_ok();
        self.is_whole
    }

    /// The same of a send.
    pub(crate) fn note_send(&mut self, to: Recipient, bytes: &[u8], is_sent: bool) -> bool
        ensures { Logs self.old self.new (seen_send to bytes.now is_sent) result }
    {
        match Vec::from_slice(*self.notes.allocator(), bytes) {
            Ok(bytes) => self.note(KeptNote::Send { to, bytes, is_sent }),
            Err(_) => {
                self.is_whole = false;
                false
            }
        }
    }

    /// The send or closing of this number that didn't fail.
    pub(crate) fn sent(&self, number: usize) -> Option<Sent<'_>>
        ensures { option_map sent_note result ≡ slice_get (outgoing self.now.notes) number }
    {
        let mut before = number;
        for note in &self.notes {
            if let Some(sent) = note.sent() {
                if before == 0 {
                    return Some(sent);
                }
                before -= 1;
            }
        }
        None
    }
}
