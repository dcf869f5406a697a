//! Bytes that a peer is still to take.

ghost use Rattle.std.specs.Prelude.{◌≡◌, ◌++◌, ◌==◌, [], length, OnOk, OnErr};
ghost use Rattle.system_io.specs.Net.{Moves};

use crate::link::Link;
use crate::net::Net;
use nmc_base::NoMemory;
use std::alloc::Global;
use std::io::{self, ErrorKind};
use std::marker::Model;

/// Bytes that a peer is still to take, in order.
#[derive(Drop)]
pub(crate) struct Unsent {
    bytes: Vec<u8>,
    // how many of them were taken
    taken: usize,
}

impl Model for Unsent {
    ghost use Rattle.std.specs.Prelude.{◌≤◌, List, ℕ, drop, length};

    ghost Value = { List ℕ };

    ghost view = { λ u. drop u.taken u.bytes.items };

    ghost invariant = { λ u. u.taken ≤ length u.bytes.items };
}

/// A connection that takes nothing of what isn't empty has failed.
fn took_some(count: usize) -> io::Result<bool> {
    if count == 0 {
        return Err(ErrorKind::WriteZero.into());
    }
    Ok(true)
}

impl Unsent {
    pub(crate) fn new(alloc: Global) -> Unsent
        ensures { result ≡ [] }
    {
        Unsent {
            bytes: Vec::new(alloc),
            taken: 0,
        }
    }

    pub(crate) fn is_empty(&self) -> bool
        ensures { result ≡ (length self.now == 0) }
    {
        self.taken == self.bytes.len()
    }

    pub(crate) fn len(&self) -> usize
        ensures { result ≡ length self.now }
    {
        self.bytes.len() - self.taken
    }

    pub(crate) fn extend(&mut self, bytes: &[u8]) -> Result<(), NoMemory>
        ensures ok { OnOk result (self.new ≡ self.old ++ bytes.now) }
        ensures err { OnErr result (self.new ≡ self.old) }
    {
        self.bytes.extend_from_slice(bytes)?;
        Ok(())
    }

    /// Sends what is left over a connection, as much as it takes in one call, and says how much that was.
    #[tactic(auto, using(crate::proofs::NetLemmas::Moves_failed))]
    fn write_once<N: Net>(&mut self, net: &mut N, link: &mut Link) -> io::Result<usize>
        ensures peer { link.new.peer ≡ link.old.peer }
        ensures moved { Moves (N.told net.old) (N.told net.new) link.old.peer self.old self.new }
    {
        let (_, left) = self.bytes.split_at(self.taken);
        let count = net.write(link, left)?;
        self.taken += count;
        Ok(count)
    }

    /// Sends what is left once, and says whether the connection may take more without a wait.
    #[tactic(auto, using(crate::proofs::NetLemmas::Moves_nothing))]
    fn send_some<N: Net>(&mut self, net: &mut N, link: &mut Link) -> io::Result<bool>
        ensures peer { link.new.peer ≡ link.old.peer }
        ensures moved { Moves (N.told net.old) (N.told net.new) link.old.peer self.old self.new }
    {
        if self.is_empty() {
            self.clear();
            return Ok(false);
        }
        match self.write_once(net, link) {
            Ok(count) => took_some(count),
            Err(error) if error.kind() == ErrorKind::Interrupted => Ok(true),
            Err(error) if error.kind() == ErrorKind::WouldBlock => Ok(false),
            Err(error) => Err(error),
        }
    }

    /// Sends what is left, as far as the connection takes it without a wait.
    #[tactic(auto, using(crate::proofs::NetLemmas::Moves_append, crate::proofs::NetLemmas::Moves_nothing))]
    pub(crate) fn send_on<N: Net>(&mut self, net: &mut N, link: &mut Link) -> io::Result<()>
        ensures peer { link.new.peer ≡ link.old.peer }
        ensures moved { Moves (N.told net.old) (N.told net.new) link.old.peer self.old self.new }
    {
        for _ in 0..u64::MAX {
            if !self.send_some(net, link)? {
                break;
            }
        }
        Ok(())
    }

    /// Lets go of what was taken. The room for it is kept.
    fn clear(&mut self)
        requires { length self.old ≡ 0 }
        ensures { self.new ≡ self.old }
    {
        self.bytes.clear();
        self.taken = 0;
    }
}
