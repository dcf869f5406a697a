//! One command of each refusal between two blocks that are accepted: each reply, and files as if the refused ones hadn't come.

ghost use Rattle.std.specs.Prelude.{◌<◌};

use crate::outside::{Outside, Trial, each_is_right};
use crate::stops::make;
use crate::tables::{add_words, replay_of, text};
use bridge_core::Status;
use disk_model::{Disk, Failed};
use memory_disk::MemoryDisk;
use nmc_base::NoMemory;
use rows::{MAKING, REFUSED};
use std::alloc::{AllocError, Global};
use std::test::Fail;

mod rows;

/// Frames, and their replies.
#[derive(Drop)]
struct Exchange {
    frames: Vec<u8>,
    replies: Vec<u8>,
}

impl Exchange {
    /// Adds the frame of a line and its reply, where all are added or the reply is code 0. A line behind `#` is a word on the next.
    fn add(&mut self, line: &str, are_all: bool) -> Result<(), AllocError> {
        match line.split_once(' ') {
            Some((frame, reply)) if frame != "#" && (are_all || reply.starts_with("00")) => {
                add_words(&mut self.frames, frame)?;
                add_words(&mut self.replies, reply)
            }
            _ => Ok(()),
        }
    }

    fn add_lines(&mut self, table: &[u8], are_all: bool) -> Result<(), AllocError> {
        for line in text(table).lines() {
            self.add(line, are_all)?;
        }
        Ok(())
    }

    /// All lines, or the accepted ones alone.
    fn of(alloc: Global, are_all: bool) -> Result<Exchange, AllocError> {
        let mut found = Exchange {
            frames: Vec::new(alloc),
            replies: Vec::new(alloc),
        };
        found.add_lines(MAKING, are_all)?;
        found.add_lines(REFUSED, are_all)?;
        Ok(found)
    }
}

/// Adds a file's length and bytes.
fn add_file(disk: &mut MemoryDisk, file: u8, all: &mut Vec<u8>) -> Result<(), AllocError>
    requires { file < 3 }
{
    let mut buffer = [0; 8192];
    match disk.read(file, 0, &mut buffer) {
        Ok(count) => {
            all.extend_from_slice(&(count as u64).to_le_bytes())?;
            all.extend_from_slice(&buffer[..count])
        }
        Err(Failed) => Ok(()),
    }
}

fn contents(alloc: Global, disk: &mut MemoryDisk) -> Result<Vec<u8>, AllocError> {
    let mut all = Vec::new(alloc);
    for file in 0..3u8 {
        add_file(disk, file, &mut all)?;
    }
    Ok(all)
}

/// Whether new files give these replies to the frames.
fn gives(alloc: Global, outside: &mut Outside, exchange: &Exchange) -> Result<bool, NoMemory> {
    let is_made = make(alloc, outside, 0)? == Status::Done;
    let is_done = replay_of(alloc, outside, &exchange.frames)? == Status::Done;
    Ok(is_made && is_done && outside.sink.bytes() == exchange.replies.as_slice())
}

/// The same of all frames, or of the accepted ones alone.
fn is_given(alloc: Global, outside: &mut Outside, are_all: bool) -> Result<bool, NoMemory> {
    let exchange = Exchange::of(alloc, are_all)?;
    gives(alloc, outside, &exchange)
}

/// Whether the files behind the accepted frames alone have these contents.
fn are_without(alloc: Global, outside: &mut Outside, with: &[u8]) -> Result<bool, NoMemory> {
    let is_given = is_given(alloc, outside, false)?;
    let without = contents(alloc, &mut outside.disk)?;
    Ok(is_given && with == without.as_slice() && with.len() > 2000)
}

struct Refused;

impl Trial for Refused {
    fn is_right(alloc: Global, outside: &mut Outside, _row: &str) -> Result<bool, NoMemory> {
        let is_given = is_given(alloc, outside, true)?;
        let with = contents(alloc, &mut outside.disk)?;
        Ok(is_given && are_without(alloc, outside, &with)?)
    }
}

#[test]
fn each_refused_command_leaves_the_files_of_the_accepted_ones(rt: HostRuntime) -> Result<(), Fail> {
    each_is_right::<Refused>(&rt, rt.alloc(), "each refusal")?;
    Ok(())
}
