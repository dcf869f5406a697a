//! The texts of what people are told.

use std::{fmt, io};

/// What people are told of: why a call failed, or what else stands behind a status.
#[derive(Drop)]
pub(crate) enum Cause {
    /// This call on a file or a stream failed.
    Failed {
        thing: &'static str,
        call: &'static str,
        error: io::Error,
    },
    /// A file isn't as it has to be, or what else is to be said of a thing.
    Odd {
        thing: &'static str,
        text: &'static str,
    },
    /// A port couldn't be bound.
    Unbound {
        number: u16,
        what: &'static str,
        error: io::Error,
    },
    /// The ports are bound.
    Listening {
        udp: u16,
        feed: u16,
        tip: u32,
    },
    /// The feed's connection is another user's.
    Stranger {
        user: u32,
        own: u32,
    },
}

fn write_failed<W: fmt::Write>(
    f: &mut fmt::Formatter<W>,
    thing: &str,
    call: &str,
    error: &io::Error,
) -> fmt::Result {
    write!(f, "{thing}: {call}: {error}")
}

fn write_odd<W: fmt::Write>(f: &mut fmt::Formatter<W>, thing: &str, text: &str) -> fmt::Result {
    write!(f, "{thing}: {text}")
}

fn write_unbound<W: fmt::Write>(
    f: &mut fmt::Formatter<W>,
    number: u16,
    what: &str,
    error: &io::Error,
) -> fmt::Result {
    write!(f, "port {number} ({what}): {error}")
}

fn write_listening<W: fmt::Write>(
    f: &mut fmt::Formatter<W>,
    udp: u16,
    feed: u16,
    tip: u32,
) -> fmt::Result {
    write!(
        f,
        "queries are taken at 127.0.0.1 port {udp} (UDP and TCP), and a feed at 127.0.0.1 port {feed} (TCP); the tip is at height {tip}"
    )
}

fn write_stranger<W: fmt::Write>(f: &mut fmt::Formatter<W>, user: u32, own: u32) -> fmt::Result {
    write!(
        f,
        "a connection of the user {user} to the feed was closed: only those of the user {own} and of root are taken"
    )
}

// One function writes each: the proof of a function with five texts takes many times that of five with one.
impl fmt::Display for Cause {
    fn fmt<W: fmt::Write>(&self, f: &mut fmt::Formatter<W>) -> fmt::Result {
        match self {
            Cause::Failed { thing, call, error } => write_failed(f, thing, call, error),
            Cause::Odd { thing, text } => write_odd(f, thing, text),
            Cause::Unbound {
                number,
                what,
                error,
            } => write_unbound(f, *number, what, error),
            Cause::Listening { udp, feed, tip } => write_listening(f, *udp, *feed, *tip),
            Cause::Stranger { user, own } => write_stranger(f, *user, *own),
        }
    }
}
