//! The listener of the feed, and who of those that come is let in.

ghost use Rattle.std.specs.Prelude.{◌≡◌, IsSome, Ok};
ghost use Rattle.system_io.specs.Loopback.{loopback_bytes, Asks};

use crate::cause::Cause;
use crate::clock::{self, NEVER, SECOND};
use crate::loopback::bind_listener;
use crate::net::Net;
use crate::newcomer::{Guest, Newcomer, Verdict};
use crate::notices::Notices;
use crate::people::People;
use crate::search::Tables;
use libc::net::POLLIN;
use libc::types::pollfd;
use std::io::{self, ErrorKind};
use std::net::{SocketAddr, TcpListener};
use std::os::fd::AsRawFd;

/// So much longer than it looked whose a connection is does the door do nothing: of five parts of the time four are others'.
const PARTS_OF_OTHERS: u64 = 4;

/// How long it does nothing behind a connection that couldn't be taken.
const REST: u64 = SECOND;

/// What is asked of the system about nothing.
pub(crate) const NOTHING_ASKED: pollfd = pollfd {
    fd: -1,
    events: 0,
    revents: 0,
};

/// The listener for the feed's connections: it lets in those of the program's own user and of root, one by one.
///
/// Whoever reaches the feed can own every name, and each user of the machine reaches the loopback address. So it asks the
/// system whose the other end of a connection is, a piece of its table at a time, and closes the others at once.
#[derive(Drop)]
pub(crate) struct Door<'a> {
    rt: &'a HostRuntime,
    notices: Notices<'a>,
    listener: TcpListener,
    tables: Option<Tables>,
    newcomer: Option<Newcomer>,
    // nothing is done before
    rests_until: u64,
}

impl<'a> Door<'a> {
    pub(crate) fn bind<N: Net>(
        net: &mut N,
        rt: &'a HostRuntime,
        people: &'a People<'a>,
        number: u16,
    ) -> io::Result<Door<'a>>
        ensures { Asks (N.told net.old) (N.told net.new) (loopback_bytes number) }
    {
        let listener = bind_listener(net, number)?;
        Ok(Door {
            rt,
            notices: Notices::new(people),
            listener,
            tables: people
                .heard("/proc/self/net/tcp", "open", Tables::open(rt))
                .ok(),
            newcomer: None,
            rests_until: 0,
        })
    }

    /// What a wait is to look at.
    pub(crate) fn asked(&self, now: u64) -> pollfd {
        if self.newcomer.is_some() || now < self.rests_until {
            return NOTHING_ASKED;
        }
        pollfd {
            fd: self.listener.as_raw_fd(),
            events: POLLIN,
            revents: 0,
        }
    }

    /// When there is something to do, whatever comes.
    pub(crate) fn due(&self, now: u64) -> u64 {
        if self.newcomer.is_some() || now < self.rests_until {
            self.rests_until
        } else {
            NEVER
        }
    }

    fn tell_failed(&mut self, now: u64, call: &'static str, error: io::Error) {
        let thing = "the feed";
        self.notices.tell(now, Cause::Failed { thing, call, error });
    }

    /// Takes the connection that waits first, if one does.
    fn accept(&mut self, now: u64) -> io::Result<()> {
        match self.listener.accept() {
            Ok((stream, SocketAddr::V4(peer))) => {
                self.newcomer = Newcomer::new(stream, peer).ok();
                Ok(())
            }
            Ok(_) => Ok(()),
            Err(error) => match error.kind() {
                ErrorKind::WouldBlock | ErrorKind::ConnectionAborted => Ok(()),
                _ => {
                    self.rests_until = now.saturating_add(REST);
                    self.tell_failed(now, "accept", error);
                    Err(error)
                }
            },
        }
    }

    /// Looks on whose the newcomer's connection is.
    fn judge(&mut self, newcomer: &mut Newcomer) -> io::Result<Verdict> {
        let own = libc::geteuid();
        match &self.tables {
            Some(tables) => match newcomer.judge(tables, own)? {
                Verdict::Open => newcomer.judge(tables, own),
                verdict => Ok(verdict),
            },
            None => Err(ErrorKind::Unsupported.into()),
        }
    }

    /// What comes of a verdict: the connection that is let in, if it is.
    fn decide(
        &mut self,
        now: u64,
        newcomer: Newcomer,
        verdict: io::Result<Verdict>,
    ) -> Option<Guest>
        ensures { IsSome result → verdict ≡ Ok Verdict.Taken }
    {
        match verdict {
            Ok(Verdict::Taken) => return newcomer.let_in(),
            Ok(Verdict::Open) => self.newcomer = Some(newcomer),
            Ok(Verdict::Stranger(user)) => {
                let own = libc::geteuid();
                self.notices.tell(now, Cause::Stranger { user, own });
            }
            Ok(Verdict::Unknown) => self.notices.tell(
                now,
                Cause::Odd {
                    thing: "the feed",
                    text: "a connection was closed: whose it is can't be told, since its other end has gone",
                },
            ),
            Err(error) => self.tell_failed(now, "whose a connection is can't be told", error),
        }
        None
    }

    /// The next connection that is let in, where one is there.
    pub(crate) fn next(&mut self, now: u64) -> io::Result<Option<Guest>> {
        if now < self.rests_until {
            return Ok(None);
        }
        if self.newcomer.is_none() {
            self.accept(now)?;
        }
        match self.newcomer.take() {
            None => Ok(None),
            Some(mut newcomer) => {
                let verdict = self.judge(&mut newcomer);
                let behind = clock::now(self.rt);
                let spent = behind.saturating_sub(now);
                self.rests_until = behind.saturating_add(spent.saturating_mul(PARTS_OF_OTHERS));
                Ok(self.decide(behind, newcomer, verdict))
            }
        }
    }
}
