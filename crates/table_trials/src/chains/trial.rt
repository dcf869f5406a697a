//! The trial: blocks in hexadecimal, each with the answer that it gets.
//!
//! A line is a block: `ok`, or the number of its refusal and the index of the transaction, as `24:1`; and its bytes. Or it is
//! `back`, the disconnect of the newest block; or a word on the block that stands below it, behind `#`.

use super::held::{Answer, Held, NO_MEMORY, let_go};
use super::stop::Stop;
use nmc_base::{Base, Hash32, Profile, Steps};
use std::alloc::Global;
use std::process::Abort;
use std::sync::ledger::Ledger;

/// What is done where there is no memory for a block or a disconnect.
#[derive(Clone, Copy, PartialEq, Eq, Debug)]
pub enum Lacking {
    /// The trial stops.
    Stops,
    /// It comes again, on the chain that was handed back.
    Again,
}

/// The base of the trial.
const BASE: Base = Base {
    profile: Profile::Regtest,
    height: 0,
    hash: Hash32([0; 32]),
};

fn holds(rt: &impl Abort, is_so: bool, what: &str, height: u32) {
    assert!(rt; is_so, "{what} {height}");
}

fn number_of(number: &str, index: &str) -> Result<Answer, Stop> {
    match (number.parse::<u8>(), index.parse::<u32>()) {
        (Ok(number), Ok(index)) => Ok((number, index)),
        _ => Err(Stop::Wrong("a number and an index")),
    }
}

fn wanted_of(text: &str) -> Result<Answer, Stop> {
    match text.split_once(':') {
        None => Ok((0, 0)),
        Some((number, index)) => number_of(number, index),
    }
}

/// Connects a block, and tells the answer.
fn connected<L: Ledger>(
    alloc: Global,
    held: &mut Held,
    bytes: &[u8],
    lacking: Lacking,
    steps: &mut Steps<L>,
) -> Result<Answer, Stop> {
    let answer = held.connect(alloc, bytes, steps)?;
    if answer == NO_MEMORY && lacking == Lacking::Again {
        return held.connect(alloc, bytes, steps);
    }
    Ok(answer)
}

/// Connects a block, which gets the wanted answer.
fn gets<L: Ledger>(
    rt: &impl Abort,
    alloc: Global,
    held: &mut Held,
    bytes: &[u8],
    wanted: Answer,
    lacking: Lacking,
    steps: &mut Steps<L>,
) -> Result<(), Stop> {
    let answer = connected(alloc, held, bytes, lacking, steps)?;
    let height = held.height()?;
    holds(rt, answer == wanted, "behind the block of height", height);
    Ok(())
}

/// The answer that the line wants, and the digits of its block.
fn parts_of(line: &str) -> Result<(Answer, &str), Stop> {
    match line.split_once(' ') {
        None => Err(Stop::Wrong("an answer")),
        Some((wanted, digits)) => Ok((wanted_of(wanted)?, digits)),
    }
}

/// Reads a block into the buffer, and gives its bytes.
fn read<'a>(digits: &str, buffer: &'a mut [u8]) -> Result<&'a [u8], Stop> {
    let Some(bytes) = buffer.get_mut(..digits.len() / 2) else {
        return Err(Stop::Wrong("a long block"));
    };
    match hex::decode_to_slice(digits, bytes) {
        Ok(()) => Ok(bytes),
        Err(_) => Err(Stop::Wrong("no digits")),
    }
}

/// A block of the trial, which is read into the buffer.
fn block<L: Ledger>(
    rt: &impl Abort,
    alloc: Global,
    held: &mut Held,
    line: &str,
    buffer: &mut [u8],
    lacking: Lacking,
    steps: &mut Steps<L>,
) -> Result<(), Stop> {
    let (wanted, digits) = parts_of(line)?;
    let bytes = read(digits, buffer)?;
    gets(rt, alloc, held, bytes, wanted, lacking, steps)
}

/// Disconnects the newest block, and tells whether there was memory for it.
fn disconnected<L: Ledger>(
    alloc: Global,
    held: &mut Held,
    lacking: Lacking,
    steps: &mut Steps<L>,
) -> Result<bool, Stop> {
    let is_done = held.disconnect(alloc, steps)?;
    if !is_done && lacking == Lacking::Again {
        return held.disconnect(alloc, steps);
    }
    Ok(is_done)
}

/// The heights of the tip before the newest block is disconnected, and behind that.
fn heights_of_back<L: Ledger>(
    alloc: Global,
    held: &mut Held,
    lacking: Lacking,
    steps: &mut Steps<L>,
) -> Result<(u32, u32), Stop> {
    let tip = held.height()?;
    if !disconnected(alloc, held, lacking, steps)? {
        return Err(Stop::NoMemory);
    }
    Ok((tip, held.height()?))
}

/// Disconnects the newest block.
fn back<L: Ledger>(
    rt: &impl Abort,
    alloc: Global,
    held: &mut Held,
    lacking: Lacking,
    steps: &mut Steps<L>,
) -> Result<(), Stop> {
    let (tip, below) = heights_of_back(alloc, held, lacking, steps)?;
    holds(rt, below == tip.saturating_sub(1), "back from", tip);
    Ok(())
}

fn line<L: Ledger>(
    rt: &impl Abort,
    alloc: Global,
    held: &mut Held,
    line: &str,
    lacking: Lacking,
    steps: &mut Steps<L>,
) -> Result<(), Stop> {
    if line.starts_with('#') {
        return Ok(());
    }
    match line {
        "back" => back(rt, alloc, held, lacking, steps),
        _ => block(rt, alloc, held, line, &mut [0; 400], lacking, steps),
    }
}

fn at_base(alloc: Global, lacking: Lacking) -> Result<Held, Stop> {
    match Held::at_base(alloc, BASE) {
        Err(_) if lacking == Lacking::Again => Held::at_base(alloc, BASE),
        made => made,
    }
}

/// Each line in turn.
fn lines<L: Ledger>(
    rt: &impl Abort,
    alloc: Global,
    held: &mut Held,
    text: &str,
    lacking: Lacking,
    steps: &mut Steps<L>,
) -> Result<(), Stop> {
    for row in text.lines() {
        line(rt, alloc, held, row, lacking, steps)?;
    }
    Ok(())
}

/// The height of the tip behind all lines.
fn height_behind<L: Ledger>(
    rt: &impl Abort,
    alloc: Global,
    held: &mut Held,
    text: &str,
    lacking: Lacking,
    steps: &mut Steps<L>,
) -> Result<u32, Stop> {
    lines(rt, alloc, held, text, lacking, steps)?;
    held.height()
}

/// The height of the tip behind all lines of the trial.
pub fn run<L: Ledger>(
    rt: &impl Abort,
    alloc: Global,
    text: &str,
    lacking: Lacking,
    steps: &mut Steps<L>,
) -> Result<u32, Stop> {
    let mut held = at_base(alloc, lacking)?;
    let height = height_behind(rt, alloc, &mut held, text, lacking, steps);
    let_go(held);
    height
}
