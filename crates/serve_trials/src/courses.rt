//! Courses: runs of commands of which each makes so many calls of the disk. What each stop of a course leaves, and what comes of each
//! call that fails.
//!
//! A course is a text of lines. The first has the words of the run, the files it is run over, and how many calls of the disk make these
//! and open them. Each of the others has a command's frame, its reply, and how many calls it makes; and what the files are found to be
//! before it: what a replay of the first block and a save over them is answered with, and the height that a report tells. The last line
//! has what they are behind all commands.

use crate::crashes::{Crashed, is_right_wherever};
use crate::outside::{Outside, Trial, end_of, is_told_by};
use crate::registered_again::height_of;
use crate::stops::make;
use crate::tables::{add_words, run_of};
use crate::texts::{bytes_of, field, number_or};
use crate::version_1::make_old;
use bridge_core::Status;
use nmc_base::NoMemory;
use std::alloc::{AllocError, Global};

/// What the files are found by.
static FINDING: &str = "first save";

/// The first line of a course, and the others.
fn parts(course: &str) -> (&str, &str) {
    course.split_once('\n').unwrap_or((course, ""))
}

/// So many calls make the files and open them.
fn opened(course: &str) -> usize {
    let (head, _) = parts(course);
    number_or(field(head, 2), 0) as usize
}

/// How many commands are done behind so many calls of the disk.
fn done(course: &str, calls: usize) -> usize {
    let (_, rows) = parts(course);
    let mut left = calls.saturating_sub(opened(course)) as u64;
    let mut count = 0usize;
    for row in rows.lines() {
        match left.checked_sub(number_or(field(row, 2), u64::MAX)) {
            Some(rest) => left = rest,
            None => return count,
        }
        count = count.saturating_add(1);
    }
    count
}

/// How many of them are done or begun.
fn begun(course: &str, calls: usize) -> usize {
    if calls <= opened(course) {
        return 0;
    }
    done(course, calls.saturating_sub(1)).saturating_add(1)
}

/// The number of the last call of the last command.
fn last_call(course: &str) -> usize {
    let (_, rows) = parts(course);
    let mut calls = opened(course);
    for row in rows.lines() {
        calls = calls.saturating_add(number_or(field(row, 2), 0) as usize);
    }
    calls
}

/// The frames of so many commands, or, at place 1, their replies.
fn joined(alloc: Global, course: &str, place: usize, count: usize) -> Result<Vec<u8>, AllocError> {
    let (_, rows) = parts(course);
    let mut bytes = Vec::new(alloc);
    for (command, row) in rows.lines().enumerate() {
        if command < count {
            add_words(&mut bytes, field(row, place))?;
        }
    }
    Ok(bytes)
}

// ---- files

/// Whether the files are found to be those of this row. The error is that there was no memory to say so.
fn are_of_row(
    alloc: Global,
    found: &[u8],
    height: Option<usize>,
    row: &str,
) -> Result<bool, AllocError> {
    let wanted = bytes_of(alloc, field(row, 3))?;
    Ok(found == wanted.as_slice() && height == Some(number_or(field(row, 4), 0) as usize))
}

/// Whether they are those behind as many commands as one of two numbers.
fn are_of_either(
    alloc: Global,
    found: &[u8],
    height: Option<usize>,
    course: &str,
    either: (usize, usize),
) -> Result<bool, AllocError> {
    let (_, rows) = parts(course);
    for (command, row) in rows.lines().enumerate() {
        let is_due = command == either.0 || command == either.1;
        if is_due && are_of_row(alloc, found, height, row)? {
            return Ok(true);
        }
    }
    Ok(false)
}

/// Looks at files, and says whether they are those.
fn stand(
    alloc: Global,
    outside: &mut Outside,
    course: &str,
    either: (usize, usize),
) -> Result<bool, NoMemory> {
    let height = height_of(alloc, outside)?;
    outside.begin(alloc, "whole", "whole", FINDING)?;
    let is_done = end_of(alloc, outside, "replay") == Status::Done;
    let found = outside.sink.bytes();
    Ok(is_done && are_of_either(alloc, found, height, course, either)?)
}

/// Makes the files of the course, on a disk of which this call fails; 0 is the number of none.
fn is_made(
    alloc: Global,
    outside: &mut Outside,
    course: &str,
    fail: usize,
) -> Result<bool, NoMemory> {
    let (head, _) = parts(course);
    if field(head, 1) == "version 1" {
        return make_old(alloc, outside, fail as u64);
    }
    let is_made = make(alloc, outside, fail as u64)? == Status::Done;
    Ok(is_made && is_told_by(alloc, outside, "replay", "first", "accepted")?)
}

/// Runs the commands over them.
fn end_of_course(alloc: Global, outside: &mut Outside, course: &str) -> Result<Status, NoMemory> {
    let (head, _) = parts(course);
    let input = joined(alloc, course, 0, usize::MAX)?;
    run_of(alloc, outside, field(head, 0), &input)
}

/// Whether the replies are those of so many commands and then these bytes.
fn are_replies(
    alloc: Global,
    bytes: &[u8],
    course: &str,
    count: usize,
    behind: &str,
) -> Result<bool, AllocError> {
    let mut wanted = joined(alloc, course, 1, count)?;
    add_words(&mut wanted, behind)?;
    Ok(bytes == wanted.as_slice())
}

/// Whether all commands are done on a disk of which this call fails.
fn is_run(
    alloc: Global,
    outside: &mut Outside,
    course: &str,
    fail: usize,
) -> Result<bool, NoMemory> {
    let is_made = is_made(alloc, outside, course, fail)?;
    let is_done = end_of_course(alloc, outside, course)? == Status::Done;
    Ok(is_made && is_done && are_replies(alloc, outside.sink.bytes(), course, usize::MAX, "")?)
}

// ---- stops

/// The course on its way.
#[derive(Clone, Copy)]
struct Stopped<'a> {
    course: &'a str,
}

impl Crashed for Stopped<'_> {
    fn is_right(&self, alloc: Global, after: &mut Outside, calls: usize) -> Result<bool, NoMemory> {
        let either = (done(self.course, calls), begun(self.course, calls));
        stand(alloc, after, self.course, either)
    }
}

/// Each stop of the course that is the row, from the opening on.
pub(crate) struct EachStop;

impl Trial for EachStop {
    fn is_right(alloc: Global, outside: &mut Outside, row: &str) -> Result<bool, NoMemory> {
        let tried = Stopped { course: row };
        let to = last_call(row).saturating_add(2);
        Ok(
            is_run(alloc, outside, row, 0)?
                && is_right_wherever(&tried, alloc, outside, opened(row), to)?,
        )
    }
}

// ---- failing calls

/// The course whose last call failed.
#[derive(Clone, Copy)]
struct Faulted<'a> {
    course: &'a str,
}

impl Crashed for Faulted<'_> {
    fn is_right(&self, alloc: Global, after: &mut Outside, calls: usize) -> Result<bool, NoMemory> {
        let least = done(self.course, calls.saturating_sub(1));
        stand(alloc, after, self.course, (least, least.saturating_add(1)))
    }
}

/// Where this call fails: the fault is told in its command's reply and ends the run, and the files stand before the command or behind it.
fn fails_at(
    alloc: Global,
    outside: &mut Outside,
    course: &str,
    call: usize,
) -> Result<bool, NoMemory> {
    let is_made = is_made(alloc, outside, course, call)?;
    let is_fault = end_of_course(alloc, outside, course)? == Status::DiskFault;
    let least = done(course, call.saturating_sub(1));
    let is_told = are_replies(alloc, outside.sink.bytes(), course, least, "fd00000000")?;
    let tried = Faulted { course };
    let to = call.saturating_add(1);
    Ok(is_made && is_fault && is_told && is_right_wherever(&tried, alloc, outside, call, to)?)
}

/// Each call of the course that is the row; and the one behind the last, which isn't made.
pub(crate) struct EachCall;

impl Trial for EachCall {
    fn is_right(alloc: Global, outside: &mut Outside, row: &str) -> Result<bool, NoMemory> {
        let last = last_call(row);
        for call in opened(row).saturating_add(1)..last.saturating_add(1) {
            if !fails_at(alloc, outside, row, call)? {
                return Ok(false);
            }
        }
        is_run(alloc, outside, row, last.saturating_add(1))
    }
}
