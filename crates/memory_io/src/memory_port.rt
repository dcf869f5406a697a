//! A port in memory, whose listed calls fail.

ghost use Rattle.std.specs.Prelude.{◌≡◌, ◌∷◌, ◌++◌, [], drop, length, slice_get, Some, IfOk, OnOk, OnErr, is_err, is_ok, if◌then◌else◌};
ghost use Rattle.std.specs.Option.{option_map};
ghost use Rattle.fault_counts.specs.Counts.{after_call, after_refusal, faults_of, is_next_listed};
ghost use Rattle.fault_counts.specs.Faults.{HasCause, NeverFell, no_faults};
ghost use Rattle.byte_io.specs.declared.port.TheConstants.{POLL_ROOM};
ghost use Rattle.byte_io.specs.Port.{IsBound, Binds, Polls, Sends, Notes, polled, replied, stream_replied, stream_closed, fed_back, closed};
ghost use Rattle.memory_io.specs.Kept.{Fits, Shows, brought, outgoing, seen_note, seen_poll, seen_send, sent_note};
ghost use Rattle.memory_io.specs.MemoryPort.{IsNoted, first_coming, fresh_port, left_coming, memory_seen, next_got};

use crate::kept::{KeptNote, KeptPoll, Recipient};
use crate::port_log::PortLog;
use byte_io::{Failed, Polled, Port, Sent};
use fault_counts::FaultCounts;
use nmc_base::NoMemory;
use std::alloc::Global;
use std::collections::VecDeque;
use std::marker::Model;

/// A port whose polls are added beforehand, which keeps what is sent, and whose listed calls fail.
///
/// The calls that count are binds, polls and sends. No other fails: a call that finds no memory for its note does what
/// it is to do, and counts a refusal; from then on the port tells nothing of its calls.
#[derive(Drop)]
pub struct MemoryPort {
    alloc: Global,
    coming: VecDeque<KeptPoll>,
    log: PortLog,
    // the numbers of UDP and of the feed
    bound: Option<(u16, u16)>,
    counts: FaultCounts,
}

impl Model for MemoryPort {
    ghost use Rattle.std.specs.Prelude.{map};
    ghost use Rattle.memory_io.specs.Kept.{seen_poll};
    ghost use Rattle.memory_io.specs.MemoryPort.{PortView};

    ghost Value = { PortView };

    ghost view = { λ p. record { coming = map seen_poll p.coming.items; log = p.log; bound = p.bound; counts = p.counts } };
}

impl MemoryPort {
    /// A port with no polls to come, of which the calls whose numbers are in `fail` are to fail, counted from 1.
    pub fn new(alloc: Global, fail: &[u64]) -> Result<MemoryPort, NoMemory>
        ensures fresh { IfOk result (λ port. port ≡ fresh_port fail.now) }
        ensures faults { IfOk result (λ port. faults_of port.counts ≡ no_faults) }
    {
        Ok(MemoryPort {
            alloc,
            coming: VecDeque::new(alloc),
            log: PortLog::new(alloc),
            bound: None,
            counts: FaultCounts::new(alloc, fail)?,
        })
    }

    /// Adds a poll, and the bytes that it brings.
    ///
    /// Where memory runs out, none is added.
    pub fn add(&mut self, polled: Polled, bytes: &[u8]) -> Result<(), NoMemory>
        requires { Fits polled bytes.now }
        ensures ok { OnOk result (self.new ≡ record {
          coming = self.old.coming ++ brought polled bytes.now ∷ [];
          log = self.old.log;
          bound = self.old.bound;
          counts = self.old.counts;
        }) }
        ensures err { OnErr result (self.new ≡ self.old) }
    {
        let poll = KeptPoll::copy_of(self.alloc, polled, bytes)?;
        self.coming.push_back(poll)?;
        Ok(())
    }

    /// The send or closing of this number, counted from 0 over those that didn't fail, or None exactly past the last.
    pub fn sent(&self, i: usize) -> Option<Sent<'_>>
        ensures { option_map sent_note result ≡ slice_get (outgoing self.now.log.notes) i }
    {
        self.log.sent(i)
    }

    /// The first of the polls that are left, which is left no longer.
    fn take_next(&mut self) -> KeptPoll
        ensures taken { seen_poll result ≡ first_coming self.old.coming }
        ensures left { self.new ≡ record {
          coming = drop 1 self.old.coming;
          log = self.old.log;
          bound = self.old.bound;
          counts = self.old.counts;
        } }
    {
        self.coming.pop_front().unwrap_or(KeptPoll::Nothing)
    }

    /// Counts a refusal, unless the call was noted.
    fn count_note(&mut self, is_noted: bool)
        ensures counted { self.new ≡ record {
          coming = self.old.coming;
          log = self.old.log;
          bound = self.old.bound;
          counts = (if is_noted then self.old.counts else after_refusal self.old.counts);
        } }
        ensures later { NeverFell (faults_of self.old.counts) (faults_of self.new.counts) }
    {
        if !is_noted {
            self.counts.refuse();
        }
    }

    /// Counts a send, notes it, and answers whether it was sent.
    #[tactic(auto, using(fault_counts::proofs::FaultLemmas::NeverFell_trans, fault_counts::proofs::FaultLemmas::Rose_then_stayed))]
    fn send(&mut self, to: Recipient, bytes: &[u8]) -> Result<(), Failed>
        ensures listed { is_err result ≡ is_next_listed self.old.counts }
        ensures noted { IsNoted self.old self.new (seen_send to bytes.now (is_ok result)) self.old.coming (after_call self.old.counts) }
        ensures cause { HasCause (faults_of self.old.counts) (faults_of self.new.counts) result }
    {
        let is_failed = self.counts.next_call();
        let is_noted = self.log.note_send(to, bytes, !is_failed);
        self.count_note(is_noted);
        if is_failed { Err(Failed) } else { Ok(()) }
    }

    /// Notes a closing.
    #[tactic(auto, using(fault_counts::proofs::FaultLemmas::NeverFell_trans, fault_counts::proofs::FaultLemmas::Rose_then_stayed))]
    fn close(&mut self, note: KeptNote)
        ensures noted { IsNoted self.old self.new (seen_note note) self.old.coming self.old.counts }
        ensures later { NeverFell (faults_of self.old.counts) (faults_of self.new.counts) }
    {
        let is_noted = self.log.note(note);
        self.count_note(is_noted);
    }
}

impl Port for MemoryPort {
    ghost seen = { memory_seen };

    fn bind(&mut self, udp: u16, feed: u16, _tip: u32) -> Result<(), Failed>
        ensures binds { Binds (memory_seen self.old) (memory_seen self.new) udp feed result }
        ensures listed { is_err result ≡ is_next_listed self.old.counts }
        ensures after { self.new ≡ record {
          coming = self.old.coming;
          log = self.old.log;
          bound = (if is_ok result then Some (udp, feed) else self.old.bound);
          counts = after_call self.old.counts;
        } }
    {
        if self.counts.next_call() {
            return Err(Failed);
        }
        self.bound = Some((udp, feed));
        Ok(())
    }

    /// Brings the first of the polls that are left, or nothing past the last. A poll fails exactly where its number is in
    /// the list, and then it takes none of them.
    #[tactic(auto, using(fault_counts::proofs::FaultLemmas::NeverFell_trans, fault_counts::proofs::FaultLemmas::Rose_then_stayed))]
    fn poll(&mut self, buf: &mut [u8]) -> Polled
        requires bound { IsBound (memory_seen self.old) }
        requires room { length buf.old ≡ POLL_ROOM }
        ensures polls { Polls (memory_seen self.old) (memory_seen self.new) buf.new result }
        ensures room { length buf.new ≡ POLL_ROOM }
        ensures brings { Shows result buf.new (next_got self.old) }
        ensures noted { IsNoted self.old self.new (polled (next_got self.old)) (left_coming self.old) (after_call self.old.counts) }
    {
        if self.counts.next_call() {
            let is_noted = self.log.note(KeptNote::FailedPoll);
            self.count_note(is_noted);
            return Polled::Failed;
        }
        let poll = self.take_next();
        let answer = poll.put(buf);
        let is_noted = self.log.note(KeptNote::Polled(poll));
        self.count_note(is_noted);
        answer
    }

    fn reply(&mut self, client: u64, bytes: &[u8]) -> Result<(), Failed>
        requires { IsBound (memory_seen self.old) }
        ensures sends { Sends (memory_seen self.old) (memory_seen self.new) (replied client bytes.now) result }
        ensures listed { is_err result ≡ is_next_listed self.old.counts }
        ensures noted { IsNoted self.old self.new (replied client bytes.now (is_ok result)) self.old.coming (after_call self.old.counts) }
    {
        self.send(Recipient::Client(client), bytes)
    }

    fn stream_reply(&mut self, client: u64, bytes: &[u8]) -> Result<(), Failed>
        requires { IsBound (memory_seen self.old) }
        ensures sends { Sends (memory_seen self.old) (memory_seen self.new) (stream_replied client bytes.now) result }
        ensures listed { is_err result ≡ is_next_listed self.old.counts }
        ensures noted { IsNoted self.old self.new (stream_replied client bytes.now (is_ok result)) self.old.coming (after_call self.old.counts) }
    {
        self.send(Recipient::Stream(client), bytes)
    }

    fn close_stream(&mut self, client: u64)
        requires { IsBound (memory_seen self.old) }
        ensures notes { Notes (memory_seen self.old) (memory_seen self.new) (stream_closed client ∷ []) }
        ensures noted { IsNoted self.old self.new (stream_closed client) self.old.coming self.old.counts }
    {
        self.close(KeptNote::StreamClosed(client));
    }

    fn feed_reply(&mut self, bytes: &[u8]) -> Result<(), Failed>
        requires { IsBound (memory_seen self.old) }
        ensures sends { Sends (memory_seen self.old) (memory_seen self.new) (fed_back bytes.now) result }
        ensures listed { is_err result ≡ is_next_listed self.old.counts }
        ensures noted { IsNoted self.old self.new (fed_back bytes.now (is_ok result)) self.old.coming (after_call self.old.counts) }
    {
        self.send(Recipient::Feed, bytes)
    }

    fn close_feed(&mut self)
        requires { IsBound (memory_seen self.old) }
        ensures notes { Notes (memory_seen self.old) (memory_seen self.new) (closed ∷ []) }
        ensures noted { IsNoted self.old self.new closed self.old.coming self.old.counts }
    {
        self.close(KeptNote::Closed);
    }
}
