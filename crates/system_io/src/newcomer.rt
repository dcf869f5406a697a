//! A connection of which it isn't known yet whose it is.

ghost use Rattle.std.specs.Prelude.{◌≡◌, ◌⊎◌, ◌↔◌, IsTrue, IsSome, IfOk};
ghost use Rattle.system_io.specs.declared.newcomer.Verdict.TheVariants.{Taken};

use crate::owner::{Ends, Holder, is_taken};
use crate::search::{Found, Search, Tables};
use std::io::{self, ErrorKind};
use std::net::{SocketAddr, SocketAddrV4, TcpStream};

/// A connection that was just made, while it isn't known yet whose it is.
#[derive(Drop)]
pub(crate) struct Newcomer {
    stream: TcpStream,
    ends: Ends,
    search: Search,
    // what a first search found
    first: Option<Holder>,
    // what is known so far
    verdict: Verdict,
}

/// A connection that the door lets in.
#[derive(Drop)]
pub(crate) struct Guest {
    stream: TcpStream,
    verdict: Verdict,
    ghost taken: { verdict ≡ Taken },
}

impl Guest {
    pub(crate) fn into_stream(self) -> TcpStream {
        self.stream
    }
}

/// Whether a connection is taken.
#[derive(Clone, Copy)]
pub(crate) enum Verdict {
    /// It isn't known yet.
    Open,
    Taken,
    /// It is this user's.
    Stranger(u32),
    /// Whose it is can't be told.
    Unknown,
}

impl Newcomer {
    /// It is none where the other end has closed it already, with nothing sent: no user has to be looked for then.
    pub(crate) fn new(stream: TcpStream, peer: SocketAddrV4) -> io::Result<Newcomer> {
        stream.set_nonblocking(true)?;
        if let Ok(0) = stream.peek(&mut [0; 1]) {
            return Err(ErrorKind::UnexpectedEof.into());
        }
        let own = match stream.local_addr()? {
            SocketAddr::V4(address) => address,
            SocketAddr::V6(_) => return Err(ErrorKind::Unsupported.into()),
        };
        let ends = Ends {
            own: peer,
            other: own,
        };
        Ok(Newcomer {
            stream,
            ends,
            search: Search::new(ends),
            first: None,
            verdict: Verdict::Open,
        })
    }

    /// Lets it in, where that is what looking came to.
    pub(crate) fn let_in(self) -> Option<Guest>
        ensures { IsSome result ↔ (self.verdict ≡ Verdict.Taken) }
    {
        match self.verdict {
            Verdict::Taken => Some(Guest {
                stream: self.stream,
                verdict: self.verdict,
            }),
            _ => None,
        }
    }

    /// Looks on for a while whose the connection is.
    pub(crate) fn judge(&mut self, tables: &Tables, own: u32) -> io::Result<Verdict>
        ensures { IfOk result (λ verdict. self.new.verdict ≡ verdict) }
    {
        let verdict = self.look_on(tables, own)?;
        self.verdict = verdict;
        Ok(verdict)
    }

    fn look_on(&mut self, tables: &Tables, own: u32) -> io::Result<Verdict> {
        let holder = match self.search.go_on(tables)? {
            Found::Nothing => return Ok(Verdict::Open),
            Found::Nobody => return Ok(Verdict::Unknown),
            Found::Holder(holder) => holder,
        };
        let first = self.first;
        match first {
            None if is_taken(holder.user, own) => {
                self.first = Some(holder);
                self.search = Search::new(self.ends);
                Ok(Verdict::Open)
            }
            None => Ok(Verdict::Stranger(holder.user)),
            Some(first) => Ok(verdict_on(first, holder, own, self.stream.peer_addr().is_ok())),
        }
    }
}

/// What comes of two looks, and of whether this end of the connection stands still behind both.
///
/// What a row says of a user and of a number isn't read by the system at one moment: where the other end is closed in between,
/// the user may be root's, which stands for none. A number that stands there a second time was there at the first, and so was
/// its user. And the row was that of this very connection only if this end stands still: another with the same two addresses
/// can't have been made before.
fn verdict_on(first: Holder, second: Holder, own: u32, stands: bool) -> Verdict
    ensures user { result ≡ Verdict.Taken → (second.user ≡ own) ⊎ (second.user ≡ 0) }
    ensures same { result ≡ Verdict.Taken → first ≡ second }
    ensures stands { result ≡ Verdict.Taken → IsTrue stands }
{
    if !is_taken(second.user, own) {
        Verdict::Stranger(second.user)
    } else if first == second && stands {
        Verdict::Taken
    } else {
        Verdict::Unknown
    }
}
