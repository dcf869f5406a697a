//! A name that is registered, updated, expired and registered anew, a save, and the disconnects of three blocks, of which the last has
//! the second registration: each stop of the disk, and each of its calls failing.

use crate::crashes::{Crashed, is_right_wherever};
use crate::outside::{Outside, Trial, each_is_right, end_of};
use crate::stops::make;
use crate::tables::{add_words, bytes_of_lines, replay_of};
use crate::texts::{field, number_or};
use bridge_core::Status;
use nmc_base::NoMemory;
use rows::{ANSWERS, BEHIND, BEHIND_ANSWERS, BLOCKS};
use std::alloc::{AllocError, Global};
use std::test::Fail;

mod rows;

/// The height of the last block.
pub(crate) const HIGHEST: usize = 52;

/// So many calls of the disk make the files and open them; four connect a block; ten save the index behind the last; and four
/// disconnect a block.
const OPENED: usize = 22;

const SAVED: usize = OPENED + 4 * HIGHEST + 10;

// ---- commands

/// The blocks, a save and the disconnects.
fn commands(alloc: Global) -> Result<Vec<u8>, AllocError> {
    joined(alloc, BLOCKS, BEHIND)
}

/// Their replies.
pub(crate) fn answers(alloc: Global) -> Result<Vec<u8>, AllocError> {
    joined(alloc, ANSWERS, BEHIND_ANSWERS)
}

fn joined(alloc: Global, table: &[u8], behind: &str) -> Result<Vec<u8>, AllocError> {
    let mut all = bytes_of_lines(alloc, table)?;
    add_words(&mut all, behind)?;
    Ok(all)
}

/// Replays all of them.
pub(crate) fn replay_all(alloc: Global, outside: &mut Outside) -> Result<Status, NoMemory> {
    let input = commands(alloc)?;
    replay_of(alloc, outside, &input)
}

/// How many of the commands are done behind so many calls of the disk.
fn done(calls: usize) -> usize {
    let blocks = calls.saturating_sub(OPENED) / 4;
    let others = calls.saturating_sub(SAVED - 4) / 4;
    blocks.min(HIGHEST) + others.min(4)
}

/// The height of the tip behind so many commands.
fn height_behind(commands: usize) -> usize {
    let disconnects = commands.saturating_sub(HIGHEST + 1);
    commands.min(HIGHEST).saturating_sub(disconnects)
}

/// How many bytes so many replies have: 41 tell a new tip, and 13 a save.
pub(crate) fn told(commands: usize) -> usize {
    let blocks = commands.min(HIGHEST);
    let saves = commands.saturating_sub(HIGHEST).min(1);
    let disconnects = commands.saturating_sub(HIGHEST + 1).min(3);
    41 * blocks + 13 * saves + 41 * disconnects
}

/// Whether these are the replies of so many commands and, where a fault follows, code FD.
fn are_told(
    alloc: Global,
    bytes: &[u8],
    commands: usize,
    is_fault: bool,
) -> Result<bool, AllocError> {
    let mut wanted = answers(alloc)?;
    wanted.truncate(told(commands));
    if is_fault {
        wanted.extend_from_slice(&[0xfd, 0, 0, 0, 0])?;
    }
    Ok(bytes == wanted.as_slice())
}

// ---- files

/// From which height on a report tells these names.
static NAMES: [(usize, &str); 4] = [
    (0, ""),
    (
        13,
        "name 642f78 13 served 6f6e65\n  at 13 since 13 6f6e65\n",
    ),
    (
        20,
        "name 642f78 20 served 74776f\n  at 13 since 13 6f6e65\n  at 20 since 13 74776f\n",
    ),
    (
        50,
        "name 642f78 50 served 7468726565\n  at 13 since 13 6f6e65\n  at 20 since 13 74776f\n  at 50 since 50 7468726565\n",
    ),
];

fn names_at(height: usize) -> &'static str {
    let mut found = "";
    for (from, names) in &NAMES {
        if *from <= height {
            found = names;
        }
    }
    found
}

/// The height in a report, where its names are those at that height.
fn height_in(report: &[u8]) -> Option<usize> {
    let (tip, names) = std::str::from_utf8(report).ok()?.split_once('\n')?;
    let height = tip.split(' ').nth(1)?.parse::<usize>().ok()?;
    if names == names_at(height) {
        Some(height)
    } else {
        None
    }
}

/// The height that the files' report tells. The error is that there was no memory to say so, also of the disk or the sink.
pub(crate) fn height_of(alloc: Global, outside: &mut Outside) -> Result<Option<usize>, NoMemory> {
    outside.begin(alloc, "whole", "whole", "")?;
    let status = end_of(alloc, outside, "dump");
    match status {
        Status::Done => Ok(height_in(outside.sink.bytes())),
        Status::NoMemory | Status::DiskFault | Status::SinkFault => Err(NoMemory),
        _ => Ok(None),
    }
}

/// Adds the refusals of so many blocks, which don't follow the tip that these replies tell last.
fn add_refusals(bytes: &mut Vec<u8>, before: &[u8], height: usize) -> Result<(), AllocError> {
    let tip = before.len().saturating_sub(32);
    for _ in 0..height {
        bytes.extend_from_slice(&[2, 32, 0, 0, 0])?;
        bytes.extend_from_slice(&before[tip..])?;
    }
    Ok(())
}

/// Adds what the blocks are answered with where the tip has this height: those up to it are refused, and the others join.
fn add_answers(bytes: &mut Vec<u8>, all: &[u8], height: usize) -> Result<(), AllocError> {
    let (before, rest) = all.split_at(told(height).min(all.len()));
    add_refusals(bytes, before, height)?;
    bytes.extend_from_slice(rest)
}

fn answers_at(alloc: Global, height: usize) -> Result<Vec<u8>, AllocError> {
    let all = bytes_of_lines(alloc, ANSWERS)?;
    let mut bytes = Vec::new(alloc);
    add_answers(&mut bytes, &all, height)?;
    Ok(bytes)
}

fn are_answers_at(alloc: Global, bytes: &[u8], height: usize) -> Result<bool, AllocError> {
    let wanted = answers_at(alloc, height)?;
    Ok(bytes == wanted.as_slice())
}

fn replay_blocks(alloc: Global, outside: &mut Outside) -> Result<Status, NoMemory> {
    let blocks = bytes_of_lines(alloc, BLOCKS)?;
    replay_of(alloc, outside, &blocks)
}

/// Whether files with this tip take the blocks above it, and are then those with all of them.
fn take_the_rest(alloc: Global, outside: &mut Outside, height: usize) -> Result<bool, NoMemory> {
    let is_done = replay_blocks(alloc, outside)? == Status::Done;
    let are_told = are_answers_at(alloc, outside.sink.bytes(), height)?;
    Ok(is_done && are_told && height_of(alloc, outside)? == Some(HIGHEST))
}

/// Whether the files are those behind as many commands as one of the two numbers, and take the rest.
fn stand_behind(
    alloc: Global,
    outside: &mut Outside,
    least: usize,
    most: usize,
) -> Result<bool, NoMemory> {
    match height_of(alloc, outside)? {
        Some(height) if height == height_behind(least) || height == height_behind(most) => {
            take_the_rest(alloc, outside, height)
        }
        _ => Ok(false),
    }
}

// ---- stops

/// New files behind all commands, which were opened once more.
fn is_lived(alloc: Global, outside: &mut Outside) -> Result<bool, NoMemory> {
    let is_made = make(alloc, outside, 0)? == Status::Done;
    let is_done = replay_all(alloc, outside)? == Status::Done;
    let is_told = are_told(alloc, outside.sink.bytes(), HIGHEST + 4, false)?;
    Ok(is_made && is_done && is_told && height_of(alloc, outside)? == Some(49))
}

struct Behind;

impl Crashed for Behind {
    fn is_right(&self, alloc: Global, after: &mut Outside, calls: usize) -> Result<bool, NoMemory> {
        stand_behind(alloc, after, done(calls), done(calls.saturating_add(3)))
    }
}

/// The stops behind calls from the first number of the row on, and fewer than the second.
struct EachStop;

impl Trial for EachStop {
    fn is_right(alloc: Global, outside: &mut Outside, row: &str) -> Result<bool, NoMemory> {
        let from = number_or(field(row, 0), 0) as usize;
        let to = number_or(field(row, 1), 0) as usize;
        Ok(is_lived(alloc, outside)? && is_right_wherever(&Behind, alloc, outside, from, to)?)
    }
}

#[test]
fn a_stop_before_the_expiry_leaves_a_front_of_the_blocks(rt: HostRuntime) -> Result<(), Fail> {
    each_is_right::<EachStop>(&rt, rt.alloc(), "12 | 110")?;
    Ok(())
}

#[test]
fn a_stop_up_to_the_last_block_leaves_a_front_of_them(rt: HostRuntime) -> Result<(), Fail> {
    each_is_right::<EachStop>(&rt, rt.alloc(), "110 | 230")?;
    Ok(())
}

/// And while they are saved, disconnected below the second registration, and opened.
#[test]
fn a_stop_behind_the_blocks_leaves_a_front_of_the_commands(rt: HostRuntime) -> Result<(), Fail> {
    each_is_right::<EachStop>(&rt, rt.alloc(), "230 | 278")?;
    Ok(())
}

// ---- failing calls

/// Where this call fails.
fn fails_at(alloc: Global, outside: &mut Outside, call: usize) -> Result<bool, NoMemory> {
    let is_made = make(alloc, outside, call as u64)? == Status::Done;
    let is_fault = replay_all(alloc, outside)? == Status::DiskFault;
    let least = done(call.saturating_sub(1));
    let is_told = are_told(alloc, outside.sink.bytes(), least, OPENED < call)?;
    let most = done(call.saturating_add(3));
    Ok(is_made && is_fault && is_told && stand_behind(alloc, outside, least, most)?)
}

/// Each call from the first number of the row on, and below the second.
struct EachCall;

impl Trial for EachCall {
    fn is_right(alloc: Global, outside: &mut Outside, row: &str) -> Result<bool, NoMemory> {
        let from = number_or(field(row, 0), 0) as usize;
        let to = number_or(field(row, 1), 0) as usize;
        for call in from..to {
            if !fails_at(alloc, outside, call)? {
                return Ok(false);
            }
        }
        Ok(true)
    }
}

#[test]
fn a_call_that_fails_leaves_the_files_before_or_behind_its_command(
    rt: HostRuntime,
) -> Result<(), Fail> {
    each_is_right::<EachCall>(&rt, rt.alloc(), "13 | 253")?;
    Ok(())
}
