//! The streams of several clients, each of which gives its whole messages.

ghost use Rattle.std.specs.Prelude.{◌≡◌, ◌≤◌, ◌<◌, ◌+◌, ◌++◌, ◌∷◌, [], length, vec_len, vec_capacity, IfOk, None, position};
ghost use Rattle.std.specs.Bool.{OnTrue, OnFalse};
ghost use Rattle.std.specs.Borrow.{sem};
ghost use Rattle.dns_tcp.specs.Streams.{may_hold, IsWaiting, first_client, left_of, left_or_nothing, with_left, without};
ghost use Rattle.dns_tcp.specs.Held.{is_of};
ghost use Rattle.dns_tcp.specs.Lend.{ends_as};
ghost use Rattle.dns_tcp.specs.declared.streams.TheConstants.{CLIENTS, LONGEST_PIECE};

use crate::buffer::Buffer;
use nmc_base::NoMemory;
use std::alloc::Global;
use std::marker::Model;

/// So many clients are held at most.
pub const CLIENTS: usize = 16;

/// A piece of a stream has at most so many bytes.
pub const LONGEST_PIECE: usize = 65_536;

/// A client that is held.
#[derive(Drop)]
struct Held {
    client: u64,
    buffer: Buffer,
}

/// The streams of up to 16 clients, fed in any pieces. Contracts see the clients in the order in which they came to
/// be held, and of each the bytes that were fed and not given as messages.
///
/// All memory is taken at once, some 2 MiB: a buffer for each client. A message lies in it in one piece, and is given
/// without a copy.
#[derive(Drop)]
pub struct Streams {
    held: Vec<Held>,
    spare: Vec<Buffer>,
}

impl Model for Streams {
    ghost use Rattle.std.specs.Prelude.{◌≡◌, ◌+◌, ◌≤◌, List, vec_len, vec_capacity};
    ghost use Rattle.dns_tcp.specs.Streams.{Stream, AreDistinct};
    ghost use Rattle.dns_tcp.specs.Held.{streams_of};
    ghost use Rattle.dns_tcp.specs.declared.streams.TheConstants.{CLIENTS};

    ghost Value = { List Stream };

    ghost view = { λ s. streams_of s.held.items };

    ghost invariant = { λ s. (vec_len s.held + vec_len s.spare ≡ CLIENTS) × (CLIENTS ≤ vec_capacity s.held) × (CLIENTS ≤ vec_capacity s.spare) × AreDistinct (streams_of s.held.items) };
}

impl Streams {
    /// Holds no client yet.
    pub fn new(alloc: Global) -> Result<Streams, NoMemory>
        ensures { IfOk result (λ streams. streams ≡ []) }
    {
        Ok(Streams {
            held: Vec::with_capacity(alloc, CLIENTS)?,
            spare: spare_buffers(alloc)?,
        })
    }

    /// Takes the piece behind what is left of the client, which is held from now on. `false` says that there is no room
    /// for one more client.
    ///
    /// A client whose whole messages were all given may be fed.
    pub fn feed(&mut self, client: u64, piece: &[u8]) -> bool
        requires waiting { IsWaiting client self.old }
        requires piece { length piece.now ≤ LONGEST_PIECE }
        ensures answer { result ≡ may_hold client self.old }
        ensures fed { OnTrue result (self.new ≡ with_left client (left_or_nothing client self.old ++ piece.now) self.old) }
        ensures refused { OnFalse result (self.new ≡ self.old) }
    {
        match place_of(&self.held, client) {
            Some(at) => {
                self.held[at].buffer.append(piece);
                true
            }
            None => match self.spare.pop() {
                Some(buffer) => {
                    push(&mut self.held, newcomer(client, buffer, piece));
                    true
                }
                None => false,
            },
        }
    }

    /// The next whole message of the client. `None` says that what is left of it is less than a whole message, or that
    /// it isn't held.
    pub fn next(&mut self, client: u64) -> Option<&[u8]>
        ensures* ends { sem 𝓛 (ends_as self.entry client result) }
    {
        let at = place_of(&self.held, client)?;
        let count = self.held[at].buffer.next()?;
        Some(self.held[at].buffer.last(count))
    }

    /// Forgets all clients.
    #[tactic(auto, using(crate::proofs::StreamLemmas::fewer_without, crate::proofs::StreamLemmas::no_first))]
    pub fn clear(&mut self)
        ensures { self.new ≡ [] }
    {
        while let Some(client) = self.first() {
            self.end(client);
        }
    }

    /// The client that came to be held first.
    fn first(&self) -> Option<u64>
        ensures { result ≡ first_client self.now }
    {
        self.held.first().map(|it| it.client)
    }

    /// Forgets the client, if it is held.
    pub fn end(&mut self, client: u64)
        ensures now { self.new ≡ without client self.old }
        ensures forgotten { left_of client self.new ≡ None }
    {
        if let Some(at) = place_of(&self.held, client) {
            let Held { buffer, .. } = self.held.remove(at);
            push(&mut self.spare, buffer);
        }
    }
}

/// A buffer for each client.
fn spare_buffers(alloc: Global) -> Result<Vec<Buffer>, NoMemory>
    ensures { IfOk result (λ spare. (vec_len spare ≡ CLIENTS) × (CLIENTS ≤ vec_capacity spare)) }
{
    let mut spare = Vec::with_capacity(alloc, CLIENTS)?;
    for _ in 0..CLIENTS {
        push(&mut spare, Buffer::new(alloc)?);
    }
    Ok(spare)
}

/// Where the client is held.
fn place_of(held: &[Held], client: u64) -> Option<usize>
    ensures { result ≡ position (is_of client) held.now }
{
    held.iter().position(|it| it.client == client)
}

/// A client that comes to be held, with its first piece.
fn newcomer(client: u64, buffer: Buffer, piece: &[u8]) -> Held
    requires { length piece.now ≤ LONGEST_PIECE }
    ensures { result ≡ record { client = client; buffer = record { given = []; left = piece.now } } }
{
    let mut buffer = buffer;
    buffer.clear();
    buffer.append(piece);
    Held { client, buffer }
}

/// Appends an item to a list that has room for it.
fn push<T>(items: &mut Vec<T>, item: T)
    requires { vec_len items.old < vec_capacity items.old }
    ensures items { items.new.items ≡ items.old.items ++ item ∷ [] }
    ensures len { vec_len items.new ≡ vec_len items.old + 1 }
    ensures capacity { vec_capacity items.old ≤ vec_capacity items.new }
{
    match items.push(item) {
        Ok(()) => {}
        Err(_) => unreachable!(),
    }
}
