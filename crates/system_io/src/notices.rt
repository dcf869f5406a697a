//! Lines about connections that people are told, a line at times.

use crate::cause::Cause;
use crate::clock::SECOND;
use crate::people::People;

/// How long people are told nothing behind a line.
const SILENCE: u64 = 60 * SECOND;

/// What people are told about connections: a line at times, since whoever reaches a listener can make as many as he likes.
#[derive(Drop)]
pub(crate) struct Notices<'a> {
    people: &'a People<'a>,
    silent_until: u64,
}

impl<'a> Notices<'a> {
    pub(crate) fn new(people: &'a People<'a>) -> Notices<'a> {
        Notices {
            people,
            silent_until: 0,
        }
    }

    /// Tells people of a connection that wasn't taken, unless they were told of another just now.
    pub(crate) fn tell(&mut self, now: u64, cause: Cause) {
        if now >= self.silent_until {
            self.people.tell(cause);
            self.silent_until = now.saturating_add(SILENCE);
        }
    }
}
