//! The program: it follows frames on standard input or a feed, keeps them in the files of the folder that it runs in, and answers
//! queries over a port.
#![tactic(auto)]

mod forms;

use bridge_commands::{Status, run};
use forms::tell_forms;
use nmc_base::{Bytes, NoMemory, Words};
use std::process::ExitCode;
use std::rt::Env;
use std::{env, io};
use system_io::{FileDisk, People, ReaderSource, SocketPort, WriterSink};

/// A part of the stack that is taken at the start: eight of them are more than any later call takes, which is below 320 KiB.
const PART: usize = 64 << 10;

/// Has the system hand out the stack at once. It would do so as calls go deeper, and where no memory is left end the program by a signal
/// in the middle of a save.
#[inline(never)]
fn take_stack(rt: &impl Env) {
    let mut parts = [[0; PART]; 8];
    let _ = rt.arg(0, &mut parts[0]);
}

/// What the program was called with: the words behind its name, or none where they are no text.
fn words_of(rt: &(impl Env + AllocGlobal)) -> Result<Words, NoMemory> {
    let mut words = Words::new(rt.alloc());
    let args = match env::args(rt) {
        Ok(args) => args,
        Err(error) if error.kind() == io::ErrorKind::OutOfMemory => return Err(NoMemory),
        Err(_) => return Ok(words),
    };
    for arg in args.skip(1) {
        words.reserve(1)?;
        words.push(Bytes::copy_of(rt.alloc(), arg.as_bytes())?);
    }
    Ok(words)
}

fn status_of(rt: &HostRuntime, people: &People<'_>) -> Status {
    match words_of(rt) {
        Ok(words) => {
            let mut source = ReaderSource::new(rt.reader(), people);
            let mut sink = WriterSink::new(io::writer(rt), people);
            let mut disk = FileDisk::new(rt, people);
            let mut port = SocketPort::new(rt, people);
            let status = run(
                rt.alloc(),
                &words,
                &mut source,
                &mut sink,
                &mut disk,
                &mut port,
            );
            let was_bound = port.finish();
            match status {
                Status::Words => tell_forms(people, &words),
                Status::Done if was_bound => people.tell("all turns are made"),
                _ => {}
            }
            status
        }
        Err(NoMemory) => Status::NoMemory,
    }
}

fn main(rt: HostRuntime) -> ExitCode {
    take_stack(&rt);
    let people = People::of(&rt);
    let status = status_of(&rt, &people);
    if status != Status::Done {
        let _ = eprintln!(rt; "{status}");
    }
    ExitCode::from(status.number())
}
