//! Sources and sinks in memory give and take what they are to, and their listed calls fail and lose nothing.

use crate::comparing::same;
use byte_io::{Failed, Sink, Source};
use memory_io::{MemorySink, MemorySource, RoomSink, SteadySource};
use std::alloc::Global;
use std::process::Abort;
use std::test::Fail;

const BYTES: &[u8] = &[10, 20, 30, 40, 50];

/// What a number of reads of `size` bytes give in all, and behind it how many of them failed.
fn read_all<S: Source>(
    alloc: Global,
    source: &mut S,
    size: usize,
    reads: usize,
) -> Result<Vec<u8>, Fail> {
    let mut bytes = Vec::new(alloc);
    let mut buffer = vec![in alloc; 0u8; size]?;
    let mut failed = 0u8;
    for _ in 0..reads {
        match source.read(buffer.as_mut_slice()) {
            Ok(count) => bytes.extend_from_slice(&buffer[..count])?,
            Err(Failed) => failed = failed.saturating_add(1),
        }
    }
    bytes.push(failed)?;
    Ok(bytes)
}

/// So many reads of `size` bytes give this.
fn reads_as<S: Source>(
    rt: &impl Abort,
    alloc: Global,
    source: &mut S,
    size: usize,
    reads: usize,
    want: &[u8],
) -> Result<(), Fail> {
    let read = read_all(alloc, source, size, reads)?;
    same(rt, &read, want);
    Ok(())
}

/// The same of a source in memory whose listed reads fail.
fn memory_reads_as(
    rt: &impl Abort,
    alloc: Global,
    fail: &[u64],
    size: usize,
    reads: usize,
    want: &[u8],
) -> Result<(), Fail> {
    let mut source = MemorySource::new(alloc, BYTES, fail)?;
    reads_as(rt, alloc, &mut source, size, reads, want)
}

/// How many bytes a sink takes of each of these pieces, where a failed write counts as none.
fn write_each<K: Sink>(sink: &mut K, pieces: &[&[u8]; 4]) -> [u8; 4] {
    let mut counts = [0; 4];
    for (count, piece) in counts.iter_mut().zip(pieces.iter()) {
        *count = sink.write(piece).unwrap_or(0).min(255) as u8;
    }
    counts
}

/// The bytes in pieces of this size, from both sources: so many reads give them all, and none fails.
fn reads_alike(rt: &impl Abort, alloc: Global, size: usize, reads: usize) -> Result<(), Fail> {
    let want = [10, 20, 30, 40, 50, 0];
    memory_reads_as(rt, alloc, &[], size, reads, &want)?;
    let mut steady = SteadySource::new(BYTES);
    reads_as(rt, alloc, &mut steady, size, reads, &want)
}

#[test]
fn reads_in_pieces_of_any_size(rt: HostRuntime) -> Result<(), Fail> {
    for (size, reads) in [(1, 5), (1, 9), (2, 3), (3, 2), (8, 1)] {
        reads_alike(&rt, rt.alloc(), size, reads)?;
    }
    Ok(())
}

#[test]
fn each_listed_read_fails_and_loses_nothing(rt: HostRuntime) -> Result<(), Fail> {
    for number in 1..=6u64 {
        memory_reads_as(&rt, rt.alloc(), &[number], 1, 6, &[10, 20, 30, 40, 50, 1])?;
    }
    Ok(())
}

/// The counts and the bytes of a sink whose listed writes fail.
fn takes(
    rt: &impl Abort,
    alloc: Global,
    fail: &[u64],
    counts: &[u8],
    taken: &[u8],
) -> Result<(), Fail> {
    let mut sink = MemorySink::new(alloc, fail)?;
    same(
        rt,
        &write_each(&mut sink, &[&[10, 20], &[], &[30], &[40, 50]]),
        counts,
    );
    same(rt, sink.taken(), taken);
    Ok(())
}

#[test]
fn each_listed_write_fails_and_takes_nothing(rt: HostRuntime) -> Result<(), Fail> {
    let alloc = rt.alloc();
    takes(&rt, alloc, &[], &[2, 0, 1, 2], BYTES)?;
    takes(&rt, alloc, &[1], &[0, 0, 1, 2], &BYTES[2..])?;
    takes(&rt, alloc, &[2], &[2, 0, 1, 2], BYTES)?;
    takes(&rt, alloc, &[4, 1], &[0, 0, 1, 0], &BYTES[2..3])?;
    takes(&rt, alloc, &[5, 0], &[2, 0, 1, 2], BYTES)
}

/// The counts and the bytes of a sink with this room.
fn takes_within(
    rt: &impl Abort,
    alloc: Global,
    room: usize,
    counts: &[u8],
    taken: &[u8],
) -> Result<(), Fail> {
    let mut sink = RoomSink::new(alloc, room)?;
    same(
        rt,
        &write_each(&mut sink, &[&[10, 20], &[], &[30, 40], &[50]]),
        counts,
    );
    same(rt, sink.taken(), taken);
    Ok(())
}

#[test]
fn takes_nothing_exactly_where_the_room_is_full(rt: HostRuntime) -> Result<(), Fail> {
    let alloc = rt.alloc();
    takes_within(&rt, alloc, 0, &[0, 0, 0, 0], &[])?;
    takes_within(&rt, alloc, 1, &[1, 0, 0, 0], &BYTES[..1])?;
    takes_within(&rt, alloc, 4, &[2, 0, 2, 0], &BYTES[..4])?;
    takes_within(&rt, alloc, 9, &[2, 0, 2, 1], BYTES)
}
