//! What people are told where the words ask for nothing: what is wrong with the first wrong one, and the forms of all commands.
use bridge_commands::{
    Field, Form, LONGEST_HOST_NAME, MOST_BLOCKS, MOST_ROWS, MOST_TURNS, Wrong, read_words,
};
use nmc_base::{HIGHEST_HEIGHT, Words};
use std::{fmt, str};
use system_io::People;

/// What each command is called with.
const FORMS: [&str; 9] = [
    "the commands:",
    "  init PROFILE HEIGHT HASH HOST        makes the files of a chain's base in this folder",
    "  init-from PROFILE HEIGHT HASH HOST   makes them with the names of a snapshot from standard input",
    "  serve UDP_PORT FEED_PORT TURNS       answers queries, and takes blocks from a feed",
    "  replay                               takes blocks from standard input, and replies on standard output",
    "  list ROWS                            does the same, and lists the names by pages of so many rows",
    "  dump                                 writes what each name has to standard output",
    "  selftest BLOCKS SEED                 plays a generated chain over files in memory, and writes a summary",
    "the manual jaqhumpi(8) says more",
];

/// A word, and what is to be said of it.
#[derive(Drop)]
struct Complaint<'w> {
    word: &'w [u8],
    wrong: Wrong,
}

impl<'w> fmt::Display for Complaint<'w> {
    fn fmt<W: fmt::Write>(&self, f: &mut fmt::Formatter<W>) -> fmt::Result {
        write!(f, "{:?} ", shown(self.word))?;
        match self.wrong {
            Wrong::Missing | Wrong::Help => write!(f, "asks for help"),
            Wrong::NoCommand => write!(f, "is no command"),
            Wrong::Count(form) => write!(f, "takes {}", fields_of(form)),
            Wrong::Field(field) => write_field(f, field),
        }
    }
}

fn shown(word: &[u8]) -> &str {
    str::from_utf8(word).unwrap_or("?")
}

/// What the form's command takes.
fn fields_of(form: Form) -> &'static str {
    match form {
        Form::Init => "four words: init PROFILE HEIGHT HASH HOST",
        Form::InitFrom => "four words: init-from PROFILE HEIGHT HASH HOST",
        Form::Serve => "three words: serve UDP_PORT FEED_PORT TURNS",
        Form::Listing => "one word: list ROWS",
        Form::SelfTest => "two words: selftest BLOCKS SEED",
        Form::Replay | Form::Dump => "no other word",
    }
}

/// What a word isn't that is none of the field.
fn write_field<W: fmt::Write>(f: &mut fmt::Formatter<W>, field: Field) -> fmt::Result {
    match field {
        Field::Profile => write!(f, "isn't a profile: regtest or main"),
        Field::Height => write!(
            f,
            "isn't a height: a number from 0 to {HIGHEST_HEIGHT}, without a leading zero"
        ),
        Field::Hash => write!(f, "isn't a block's hash: 64 hexadecimal digits"),
        Field::Host => write!(
            f,
            "isn't a host: a domain name with a dot at its end, of at most {LONGEST_HOST_NAME} bytes in a message"
        ),
        Field::Port => write!(
            f,
            "isn't a port: a number from 1 to {}, without a leading zero",
            u16::MAX
        ),
        Field::Turns => write!(
            f,
            "isn't a number of turns: from 1 to {MOST_TURNS}, without a leading zero"
        ),
        Field::Rows => write!(
            f,
            "isn't a number of rows: from 1 to {MOST_ROWS}, without a leading zero"
        ),
        Field::Blocks => write!(
            f,
            "isn't a number of blocks: from 1 to {MOST_BLOCKS}, without a leading zero"
        ),
        Field::Seed => write!(
            f,
            "isn't a seed: a number from 0 to {}, without a leading zero",
            u64::MAX
        ),
    }
}

/// The first wrong word, where one is to be spoken of.
fn complaint_of(words: &Words) -> Option<Complaint<'_>> {
    let first = read_words(words).err()?;
    match first.wrong {
        Wrong::Missing | Wrong::Help => None,
        wrong => Some(Complaint {
            word: words.as_slice().get(first.place)?.as_slice(),
            wrong,
        }),
    }
}

/// Tells people what is wrong with words that ask for nothing, and what may be asked for.
pub(crate) fn tell_forms(people: &People<'_>, words: &Words) {
    if let Some(complaint) = complaint_of(words) {
        people.tell(complaint);
    }
    for form in FORMS {
        people.tell(form);
    }
}
