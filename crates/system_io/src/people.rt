//! Who is told causes, and the program's own name.

ghost use Rattle.std.specs.Prelude.{◌≡◌};

use crate::cause::Cause;
use std::io::{self, IsTerminal};
use std::os::unix::fs::MetadataExt;
use std::rt::Env;
use std::{fmt, fs, str};

/// The longest name of a program that is told, and the longest text of a device and an inode.
const ROOM: usize = 256;

/// What the program is called where it isn't told its own name.
const NAME: &str = "jaqhumpi";

/// The variable of the environment that is `1` where whoever reads standard error is to be told all.
const TELLS: &str = "JAQHUMPI_TELLS";

/// Those who read standard error at a terminal or in a journal, or who have asked for it by `JAQHUMPI_TELLS=1`, as for a file or a
/// container's log. They are told what goes on and why it ended, a line for each thing. Where a program reads it, nothing is told here:
/// its one line is that of the status.
#[derive(Drop)]
pub struct People<'a> {
    rt: &'a HostRuntime,
    are_there: bool,
}

impl<'a> People<'a> {
    /// Looks who reads standard error.
    pub fn of(rt: &'a HostRuntime) -> Self {
        People {
            rt,
            are_there: rt.stderr().is_terminal() || is_asked(rt) || is_journal(rt),
        }
    }

    /// A line that begins with the program's name. Where it can't be written, it is lost.
    pub fn tell<T: fmt::Display + Drop>(&self, text: T) {
        if self.are_there {
            let mut room = [0; ROOM];
            let name = own_name(self.rt, &mut room);
            let _ = eprintln!(self.rt; "{name}: {text}");
        }
    }

    /// Tells why a call on a file or a stream failed, if it did.
    pub(crate) fn heard<T>(
        &self,
        thing: &'static str,
        call: &'static str,
        answer: io::Result<T>,
    ) -> io::Result<T>
        ensures { result ≡ answer }
    {
        if let Err(error) = &answer {
            self.tell(Cause::Failed {
                thing,
                call,
                error: *error,
            });
        }
        answer
    }
}

/// What the program was called as, without its folder.
fn own_name<'b>(rt: &impl Env, room: &'b mut [u8; ROOM]) -> &'b str {
    let count = rt.arg(0, room).unwrap_or(0);
    let path = str::from_utf8(&room[..count]).unwrap_or(NAME);
    match path.rsplit('/').next() {
        Some(name) if !name.is_empty() => name,
        _ => NAME,
    }
}

/// Whether the environment asks for all to be told.
fn is_asked(rt: &impl Env) -> bool {
    let mut room = [0; ROOM];
    matches!(rt.var(TELLS, &mut room), Ok(1)) && room[0] == b'1'
}

/// Whether standard error is the stream that the system's journal made for it: `JOURNAL_STREAM` has its device and its inode,
/// as systemd.exec(5) says. A program that has this variable may well have another standard error.
fn is_journal(rt: &HostRuntime) -> bool {
    let mut room = [0; ROOM];
    let count = rt.var("JOURNAL_STREAM", &mut room).unwrap_or(0);
    let text = str::from_utf8(&room[..count]).unwrap_or("");
    match fs::metadata(rt, "/proc/self/fd/2") {
        Ok(found) => are_numbers(text, found.dev(), found.ino()),
        Err(_) => false,
    }
}

/// Whether the text is these two numbers with a colon between them.
fn are_numbers(text: &str, device: u64, inode: u64) -> bool {
    let mut parts = text.split(':');
    match (parts.next(), parts.next(), parts.next()) {
        (Some(first), Some(second), None) => is_number(first, device) && is_number(second, inode),
        _ => false,
    }
}

fn is_number(text: &str, number: u64) -> bool {
    text.parse::<u64>() == Ok(number)
}
