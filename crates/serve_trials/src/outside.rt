//! What the program's words are done with: a source, a sink, the files of a disk and a port.

use crate::streams::{Given, Pace, Taken};
use crate::texts::{bytes_of, number_or};
use bridge_commands::run;
use bridge_core::Status;
use memory_disk::MemoryDisk;
use memory_io::MemoryPort;
use nmc_base::{Bytes, NoMemory, Words};
use std::alloc::Global;
use std::process::Abort;

/// The words that make the files of the base at height 0 on 32 zero bytes.
pub(crate) static INIT: &str =
    "init regtest 0 0000000000000000000000000000000000000000000000000000000000000000 ns.example.";

#[derive(Drop)]
pub(crate) struct Outside {
    pub(crate) source: Given,
    pub(crate) sink: Taken,
    pub(crate) disk: MemoryDisk,
    pub(crate) port: MemoryPort,
}

/// Nothing to read, and a sink that takes all.
fn streams(alloc: Global) -> Result<(Given, Taken), NoMemory> {
    let source = Given::new(alloc, &[], Pace::Whole, 0)?;
    let sink = Taken::new(alloc, Pace::Whole, 0)?;
    Ok((source, sink))
}

/// Three empty files, and a port without polls.
fn files_and_port(alloc: Global) -> Result<(MemoryDisk, MemoryPort), NoMemory> {
    let disk = MemoryDisk::new(alloc, &[])?;
    let port = MemoryPort::new(alloc, &[])?;
    Ok((disk, port))
}

impl Outside {
    /// Nothing to read, and three empty files.
    pub(crate) fn new(alloc: Global) -> Result<Outside, NoMemory> {
        let (source, sink) = streams(alloc)?;
        let (disk, port) = files_and_port(alloc)?;
        Ok(Outside {
            source,
            sink,
            disk,
            port,
        })
    }

    /// Begins anew with the bytes of a text to read, and an empty sink. A source is read, and a sink written, by `bytes` or as a
    /// `whole`, and a number behind that is the call that fails; a sink of `room` has as much as the number.
    pub(crate) fn begin(
        &mut self,
        alloc: Global,
        source: &str,
        sink: &str,
        input: &str,
    ) -> Result<(), NoMemory> {
        self.source = source_of(alloc, source, input)?;
        self.sink = sink_of(alloc, sink)?;
        Ok(())
    }
}

/// The first word, and the number behind it or 0.
fn word_and_number(text: &str) -> (&str, u64) {
    let (word, number) = text.split_once(' ').unwrap_or((text, ""));
    (word, number_or(number, 0))
}

fn pace_of(word: &str) -> Pace {
    if word == "bytes" {
        Pace::Byte
    } else {
        Pace::Whole
    }
}

fn source_of(alloc: Global, how: &str, input: &str) -> Result<Given, NoMemory> {
    let (word, number) = word_and_number(how);
    let bytes = bytes_of(alloc, input)?;
    Given::new(alloc, &bytes, pace_of(word), number)
}

fn sink_of(alloc: Global, how: &str) -> Result<Taken, NoMemory> {
    let (word, number) = word_and_number(how);
    if word == "room" {
        return Taken::with_room(alloc, number as usize);
    }
    Taken::new(alloc, pace_of(word), number)
}

fn words_of(alloc: Global, line: &str) -> Result<Words, NoMemory> {
    let mut words = Words::new(alloc);
    for word in line.split(' ') {
        words.reserve(1)?;
        words.push(Bytes::copy_of(alloc, word.as_bytes())?);
    }
    Ok(words)
}

/// How the words of the line end; for want of memory to say them, as they do for want of memory.
pub(crate) fn end_of(alloc: Global, outside: &mut Outside, line: &str) -> Status {
    let words = match words_of(alloc, line) {
        Ok(words) => words,
        Err(NoMemory) => return Status::NoMemory,
    };
    let Outside {
        source,
        sink,
        disk,
        port,
    } = outside;
    run(alloc, &words, source, sink, disk, port)
}

/// Runs the words over the input and the files, and says whether that is done and answered with this.
pub(crate) fn is_told_by(
    alloc: Global,
    outside: &mut Outside,
    words: &str,
    input: &str,
    output: &str,
) -> Result<bool, NoMemory> {
    outside.begin(alloc, "whole", "whole", input)?;
    let status = end_of(alloc, outside, words);
    let output = bytes_of(alloc, output)?;
    Ok(status == Status::Done && outside.sink.bytes() == output.as_slice())
}

/// The status is displayed as this line.
pub(crate) fn is_told(alloc: Global, status: Status, line: &str) -> Result<bool, NoMemory> {
    let text = status.to_string(alloc)?;
    Ok(text.as_str() == line)
}

pub(crate) fn holds(rt: &impl Abort, is_so: bool, what: &str) {
    assert!(rt; is_so, "{what}");
}

/// What is tried over empty files, by a row.
pub(crate) trait Trial {
    /// Whether what comes of the row is right.
    fn is_right(alloc: Global, outside: &mut Outside, row: &str) -> Result<bool, NoMemory>;
}

/// The one place that makes files, and lets them go.
fn is_right<T: Trial>(alloc: Global, row: &str) -> Result<bool, NoMemory> {
    let mut outside = Outside::new(alloc)?;
    T::is_right(alloc, &mut outside, row)
}

/// Each row is right, over files of its own.
pub(crate) fn each_is_right<T: Trial>(
    rt: &impl Abort,
    alloc: Global,
    rows: &str,
) -> Result<(), NoMemory> {
    for row in rows.lines() {
        is_right_by::<T>(rt, alloc, row)?;
    }
    Ok(())
}

/// All lines together are one row, and it is right.
pub(crate) fn is_right_by<T: Trial>(
    rt: &impl Abort,
    alloc: Global,
    row: &str,
) -> Result<(), NoMemory> {
    holds(rt, is_right::<T>(alloc, row)?, row);
    Ok(())
}
