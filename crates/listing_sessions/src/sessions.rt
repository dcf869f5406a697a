//! The sessions that are open.

ghost use Rattle.std.specs.Prelude.{◌≡◌, ◌+◌, ◌≤◌, ◌<◌, IfOk, IsTrue, MatchBool, Some, None, length, slice_get, slice_set, vec_capacity, vec_len};
ghost use Rattle.std.specs.Option.{option_map};
ghost use Rattle.nmc_base.specs.Heights.{highest};
ghost use Rattle.chain_commands.specs.Chain.{Chain};
ghost use Rattle.listing_sessions.specs.Sessions.{Opens, Pages, Closes, none_open};
ghost use Rattle.listing_sessions.specs.Pinned.{ArePinnedBy, AreTakenFrom, IsHeldAt, IsLeastEmpty, MakesStep, StandFor, TurnsAt, listing_at};
ghost use Rattle.listing_sessions.specs.declared.page.TheConstants.{LARGEST_PAGE, LONGEST_PAGE};

use crate::listing::Listing;
use crate::page::LONGEST_PAGE;
use crate::replies::{
    lack_memory, refuse_more, refuse_number, tell_closed, tell_number, tell_page,
};
use frame_loop::ReplyBuf;
use nmc_base::{NoMemory, Profile, Steps};
use sliced_save::{Mirror, Rows};
use std::alloc::Global;
use std::marker::Model;
use std::mem;
use std::sync::ledger::Ledger;

/// So many sessions are open at once, at most.
pub const MOST_SESSIONS: usize = 8;

/// The listing sessions that are open, by their numbers from 0 to 7, and room for a page.
///
/// Contracts see the listing of each number, if one is open.
#[derive(Drop)]
pub struct Sessions {
    held: Vec<Option<Listing>>,
    text: Vec<u8>,
}

impl Model for Sessions {
    ghost use Rattle.std.specs.Prelude.{◌≡◌, ◌≤◌, List, Option, length, vec_capacity};
    ghost use Rattle.listing_sessions.specs.Pages.{Pinned};
    ghost use Rattle.listing_sessions.specs.declared.page.TheConstants.{LONGEST_PAGE};
    ghost use Rattle.listing_sessions.specs.declared.sessions.TheConstants.{MOST_SESSIONS};

    ghost Value = { List (Option Pinned) };

    ghost view = { λ s. s.held.items };

    ghost invariant = { λ s. (length s.held.items ≡ MOST_SESSIONS) × (LONGEST_PAGE ≤ vec_capacity s.text) };
}

/// The rows of a mirror, pinned as they are now, where it is there.
fn pinned_now(mirror: Option<&Mirror>) -> Result<Rows, NoMemory>
    ensures { IfOk result (ArePinnedBy (option_map (λ m. m.now) mirror.entry)) }
{
    match mirror {
        None => Err(NoMemory),
        Some(mirror) => mirror.pin_rows(),
    }
}

/// The least number of which nothing is held.
fn least_empty(held: &[Option<Listing>]) -> Option<usize>
    ensures { IsLeastEmpty held.now result }
{
    for number in 0..held.len() {
        if !is_held(held, number) {
            return Some(number);
        }
    }
    None
}

/// Whether a listing is held under the number.
fn is_held(held: &[Option<Listing>], number: usize) -> bool
    ensures { MatchBool result (IsHeldAt held.now number) (listing_at held.now number ≡ None) }
{
    matches!(held.get(number), Some(Some(_)))
}

/// Holds this under the number, and lets go of what was held there.
fn put_at(held: &mut Vec<Option<Listing>>, number: usize, now: Option<Listing>)
    requires { number < length held.old.items }
    ensures { held.new.items ≡ slice_set held.old.items number now }
{
    held[number] = now;
}

/// Takes what is held under the number.
fn take_at(held: &mut Vec<Option<Listing>>, number: usize) -> Option<Listing>
    requires { number < length held.old.items }
    ensures was { Some result ≡ slice_get held.old.items number }
    ensures gone { held.new.items ≡ slice_set held.old.items number None }
{
    mem::replace(&mut held[number], None)
}

/// The rows of what was held under a number.
fn rows_of(was: Option<Listing>) -> Option<Rows>
    ensures { result ≡ option_map (λ l. l.rows) was }
{
    match was {
        None => None,
        Some(listing) => Some(listing.into_rows()),
    }
}

/// Writes the next page of what is held under the number, of so many rows at most, in place of the text; or answers that there is none.
fn turn_at<L: Ledger>(
    held: &mut Vec<Option<Listing>>,
    number: usize,
    size: u32,
    text: &mut Vec<u8>,
    steps: &mut Steps<L>,
) -> bool
    requires size { size ≤ LARGEST_PAGE }
    requires room { LONGEST_PAGE ≤ vec_capacity text.old }
    ensures turns { TurnsAt size held.old.items number text.new.items result held.new.items }
    ensures short { IsTrue result → vec_len text.new ≤ LONGEST_PAGE }
    ensures capacity { vec_capacity text.old ≤ vec_capacity text.new }
    ensures cost { steps.new ≤ steps.old + size }
{
    if !is_held(held, number) {
        return false;
    }
    match take_at(held, number) {
        Some(listing) => {
            let mut listing = listing;
            listing.turn(size, text, steps);
            put_at(held, number, Some(listing));
            true
        }
        None => unreachable!(),
    }
}

impl Sessions {
    /// No session is open. All the memory that pages ever need is taken here.
    pub fn new(alloc: Global) -> Result<Sessions, NoMemory>
        ensures { IfOk result (λ held. StandFor held none_open) }
    {
        let mut held = Vec::with_capacity(alloc, MOST_SESSIONS)?;
        for _ in 0..MOST_SESSIONS {
            held.push(None)?;
        }
        let text = Vec::with_capacity(alloc, LONGEST_PAGE)?;
        Ok(Sessions { held, text })
    }

    /// Opens a session on the chain of whose index this is the mirror, with its profile and the height of its tip, under the least number
    /// that isn't open. Code 0 and the number in 4 bytes, low byte first; code 31 where as many are open as may be; or code FE, want of
    /// memory, which it is too where no mirror is there.
    pub fn open(
        &mut self,
        mirror: Option<&Mirror>,
        profile: Profile,
        height: u32,
        reply: &mut ReplyBuf,
    )
        requires low { height ≤ highest }
        ensures { (chain : Chain) → AreTakenFrom chain (option_map (λ m. m.now) mirror.entry) profile height → MakesStep (Opens chain) self.old reply.new self.new }
    {
        match least_empty(&self.held) {
            None => refuse_more(reply),
            Some(number) => match pinned_now(mirror) {
                Err(NoMemory) => lack_memory(reply),
                Ok(rows) => {
                    let listing = Listing::new(rows, profile, height);
                    put_at(&mut self.held, number, Some(listing));
                    tell_number(reply, number);
                }
            },
        }
    }

    /// Gives the next page of a session, of so many rows at most. Code 0 and the page; or code 32 where no session of this number is
    /// open. It takes no memory.
    pub fn page<L: Ledger>(
        &mut self,
        number: u32,
        size: u32,
        reply: &mut ReplyBuf,
        steps: &mut Steps<L>,
    )
        requires size { size ≤ LARGEST_PAGE }
        ensures step { MakesStep (Pages size number) self.old reply.new self.new }
        // Each of its rows is looked up.
        ensures cost { steps.new ≤ steps.old + size }
    {
        if turn_at(&mut self.held, number as usize, size, &mut self.text, steps) {
            tell_page(reply, &self.text);
        } else {
            refuse_number(reply);
        }
    }

    /// Closes a session. Code 0; or code 32 where no session of this number is open. It hands back the rows that the session pinned, and
    /// lets go of none.
    pub fn close(&mut self, number: u32, reply: &mut ReplyBuf) -> Option<Rows>
        ensures step { MakesStep (Closes number) self.old reply.new self.new }
        ensures rows { result ≡ option_map (λ l. l.rows) (listing_at self.old number) }
    {
        let place = number as usize;
        if is_held(&self.held, place) {
            let was = take_at(&mut self.held, place);
            tell_closed(reply);
            rows_of(was)
        } else {
            refuse_number(reply);
            None
        }
    }
}
