//! The commands of a name that is registered anew, where one call for memory fails: of the program, of the disk, or of the sink.
//!
//! Want of memory is the answer to one command, which then does nothing; or it ends the run before the first. Where the disk or the
//! sink finds none, a call of theirs fails. The index is that of the accepted commands.

use crate::outside::{INIT, Outside, end_of, holds};
use crate::registered_again::{HIGHEST, answers, height_of, replay_all, told};
use bridge_core::Status;
use nmc_base::NoMemory;
use std::alloc::{AllocError, Global};

/// How many commands there are: blocks, a save, and three disconnects.
const COMMANDS: usize = HIGHEST + 4;

/// Where the replies of a run lead: how many there are, how many tell want of memory or a fault of the disk, and the tip's height.
#[derive(Clone, Copy)]
struct Led {
    replies: usize,
    wants: usize,
    faults: usize,
    height: usize,
}

fn one_if(is_so: bool) -> usize {
    if is_so { 1 } else { 0 }
}

impl Led {
    /// Behind one reply more, of this code.
    fn by(self, code: u8, height: usize) -> Led {
        Led {
            replies: self.replies.saturating_add(1),
            wants: self.wants.saturating_add(one_if(code == 0xfe)),
            faults: self.faults.saturating_add(one_if(code == 0xfd)),
            height,
        }
    }
}

/// The tip's height before a command that is accepted, and behind it. A save comes at any.
fn heights_of(command: usize, height: usize) -> (usize, usize) {
    match command.saturating_sub(HIGHEST) {
        0 if command < HIGHEST => (command, command.saturating_add(1)),
        0 => (height, height),
        place => {
            let behind = HIGHEST.saturating_sub(place);
            (behind.saturating_add(1), behind)
        }
    }
}

/// The code of a command that isn't due: a block that isn't on the tip, or the hash of another block than the tip.
fn refusal_of(command: usize, height: usize) -> u8 {
    match (command < HIGHEST, height) {
        (true, _) => 2,
        (false, 0) => 7,
        _ => 6,
    }
}

/// Adds such a refusal, which tells the tip if it isn't the base.
fn add_refusal(
    wanted: &mut Vec<u8>,
    all: &[u8],
    code: u8,
    height: usize,
) -> Result<(), AllocError> {
    if code == 7 {
        return wanted.extend_from_slice(&[7, 0, 0, 0, 0]);
    }
    wanted.extend_from_slice(&[code, 32, 0, 0, 0])?;
    let end = told(height);
    match all.get(end.saturating_sub(32)..end) {
        Some(tip) if height > 0 => wanted.extend_from_slice(tip),
        _ => wanted.extend_from_slice(&[0; 32]),
    }
}

/// Adds the reply of this code to a command, and gives the height behind it; None where it can't come.
fn add_reply(
    wanted: &mut Vec<u8>,
    all: &[u8],
    command: usize,
    code: u8,
    height: usize,
) -> Result<Option<usize>, AllocError> {
    let (before, behind) = heights_of(command, height);
    if code == 0xfd || code == 0xfe {
        wanted.extend_from_slice(&[code, 0, 0, 0, 0])?;
        return Ok(Some(height));
    }
    if height != before && code == refusal_of(command, height) {
        add_refusal(wanted, all, code, height)?;
        return Ok(Some(height));
    }
    match all.get(told(command)..told(command.saturating_add(1))) {
        Some(reply) if height == before && code == 0 => {
            wanted.extend_from_slice(reply)?;
            Ok(Some(behind))
        }
        _ => Ok(None),
    }
}

/// Where these replies lead, and what they are if none is wrong.
fn read_all(wanted: &mut Vec<u8>, all: &[u8], output: &[u8]) -> Result<Led, AllocError> {
    let mut led = Led {
        replies: 0,
        wants: 0,
        faults: 0,
        height: 0,
    };
    for command in 0..COMMANDS {
        let code = output.get(wanted.len()).copied().unwrap_or(0xff);
        if let Some(height) = add_reply(wanted, all, command, code, led.height)? {
            led = led.by(code, height);
        }
    }
    Ok(led)
}

/// The same of the replies of a run; None where one is wrong.
fn read(alloc: Global, output: &[u8]) -> Result<Option<Led>, AllocError> {
    let all = answers(alloc)?;
    let mut wanted = Vec::new(alloc);
    let led = read_all(&mut wanted, &all, output)?;
    Ok(if output == wanted.as_slice() {
        Some(led)
    } else {
        None
    })
}

/// Whether a run may end so behind these replies.
fn is_end(status: Status, led: Led) -> bool {
    match status {
        Status::Done => led.replies == COMMANDS && led.faults == 0 && led.wants < 2,
        Status::DiskFault => led.wants == 0 && (led.replies == 0 || led.faults == 1),
        Status::SinkFault => led.wants == 0 && led.faults == 0,
        Status::NoMemory => led.replies == 0,
        _ => false,
    }
}

/// Whether the tip may have this height then: that behind the accepted commands or, where a call of the disk or of the sink failed,
/// behind one more.
fn is_height(status: Status, led: Led, height: Option<usize>) -> bool {
    let (_, next) = heights_of(led.replies.saturating_sub(led.faults), led.height);
    match status {
        Status::DiskFault | Status::SinkFault => {
            height == Some(led.height) || height == Some(next)
        }
        _ => height == Some(led.height),
    }
}

/// How many replies a run over new files gave, and whether these and the files are right. The error is that there was no memory to
/// say so.
fn lived_on(alloc: Global, outside: &mut Outside) -> Result<(usize, bool), NoMemory> {
    if end_of(alloc, outside, INIT) != Status::Done {
        return Err(NoMemory);
    }
    let status = replay_all(alloc, outside)?;
    let led = read(alloc, outside.sink.bytes())?;
    let height = height_of(alloc, outside)?;
    Ok(match led {
        Some(led) => (
            led.replies.saturating_sub(led.wants),
            is_end(status, led) && is_height(status, led, height),
        ),
        None => (0, false),
    })
}

fn lived(alloc: Global) -> Result<(usize, bool), NoMemory> {
    let mut outside = Outside::new(alloc)?;
    lived_on(alloc, &mut outside)
}

// `checks/failing_trials_table` runs these two with each allocation failing in turn: the first passes whichever it is, and the
// second where there is none.
#[test]
fn a_run_without_memory_keeps_what_it_accepted(rt: HostRuntime) {
    let is_right = match lived(rt.alloc()) {
        Ok((_, is_right)) => is_right,
        Err(NoMemory) => true,
    };
    holds(&rt, is_right, "a run without memory");
}

#[test]
fn with_memory_each_command_is_accepted(rt: HostRuntime) {
    let end = lived(rt.alloc());
    holds(&rt, end == Ok((COMMANDS, true)), "a run with memory");
}
