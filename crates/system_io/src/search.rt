//! Looks through the system's tables of connections, some rows at a time.

ghost use Rattle.std.specs.Prelude.{◌≡◌, ◌≤◌, length, take, IfOk};

use crate::owner::{Ends, Holder, holder_in};
use std::fs::File;
use std::io::{self, ErrorKind};
use std::os::unix::fs::FileExt;
use std::str;

/// The system gives at most so many bytes of a table at once, and rows that are whole.
const BLOCK: usize = 4096;

/// So many reads are made before others get their turn.
const READS: u8 = 16;

/// The system's tables of TCP connections: those of sockets of IPv4, and those of IPv6, which may reach an IPv4 address too.
#[derive(Drop)]
pub(crate) struct Tables {
    plain: File,
    mapped: Option<File>,
}

impl Tables {
    /// They are kept open: so no want of a file's number keeps them from being read.
    pub(crate) fn open(rt: &HostRuntime) -> io::Result<Tables> {
        Ok(Tables {
            plain: File::open(rt, "/proc/self/net/tcp")?,
            mapped: File::open(rt, "/proc/self/net/tcp6").ok(),
        })
    }
}

/// What a search has found so far.
#[derive(Clone, Copy)]
pub(crate) enum Found {
    /// It isn't through yet.
    Nothing,
    Holder(Holder),
    /// No row tells who holds it.
    Nobody,
}

/// A search for who holds one end of a connection. It reads the tables a piece at a time.
#[derive(Clone, Copy)]
pub(crate) struct Search {
    ends: Ends,
    is_in_mapped: bool,
    at: u64,
}

/// The rows that are whole.
fn whole_rows(block: &[u8]) -> &[u8] {
    match block.iter().rposition(|byte| *byte == b'\n') {
        Some(last) => &block[..=last],
        None => &[],
    }
}

impl Search {
    pub(crate) fn new(ends: Ends) -> Search {
        Search {
            ends,
            is_in_mapped: false,
            at: 0,
        }
    }

    /// Reads on in a table.
    fn read(&mut self, table: &File, block: &mut [u8]) -> io::Result<usize>
        ensures { IfOk result (λ n. n ≤ length block.new) }
    {
        match table.read_at(block, self.at) {
            Err(error) if error.kind() == ErrorKind::Interrupted => table.read_at(block, self.at),
            answer => answer,
        }
    }

    /// Goes on to the other table, where there is one.
    fn turn_over(&mut self, tables: &Tables) -> Found {
        if self.is_in_mapped || tables.mapped.is_none() {
            return Found::Nobody;
        }
        self.is_in_mapped = true;
        self.at = 0;
        Found::Nothing
    }

    /// Reads one piece.
    fn step(&mut self, tables: &Tables) -> io::Result<Found> {
        let table = match &tables.mapped {
            Some(table) if self.is_in_mapped => table,
            _ => &tables.plain,
        };
        let mut block = [0; BLOCK];
        let count = self.read(table, &mut block)?;
        if count == 0 {
            return Ok(self.turn_over(tables));
        }
        let rows = whole_rows(&block[..count]);
        if rows.is_empty() {
            return Err(ErrorKind::InvalidData.into());
        }
        self.at = self.at.wrapping_add(rows.len() as u64);
        match holder_in(str::from_utf8(rows).unwrap_or(""), &self.ends) {
            Some(holder) => Ok(Found::Holder(holder)),
            None => Ok(Found::Nothing),
        }
    }

    /// Goes on for a while.
    pub(crate) fn go_on(&mut self, tables: &Tables) -> io::Result<Found> {
        for _ in 0..READS {
            match self.step(tables)? {
                Found::Nothing => {}
                found => return Ok(found),
            }
        }
        Ok(Found::Nothing)
    }
}
