//! Plays the events of a round on a bridge.

ghost use Rattle.std.specs.Prelude.{◌≡◌, ◌≢◌, ◌+◌, ◌<◌, ◌≤◌, ◌^◌, ◌∷◌, [], length, IsTrue, IfOk};
ghost use Rattle.nmc_base.specs.declared.limits.TheConstants.{LONGEST_BLOCK};
ghost use Rattle.dns_message.specs.declared.rcode.TheConstants.{SERVFAIL};
ghost use Rattle.chain_commands.specs.Event.{Connect, Datagram, Disconnect, Do};
ghost use Rattle.generated_chain.specs.Events.{joined_again, saved};
ghost use Rattle.name_store.specs.Stored.{IsOn};
ghost use Rattle.bridge_core.specs.Bridge.{AnswersQuery};
ghost use Rattle.bridge_core.specs.Views.{request_of, IsRequestWithinLimits};
ghost use Rattle.bridge_commands.specs.Playing.{AsksTwice, IsJudged, PlaysRequests, PlaysRound, counted_if, has_answer, is_answered, rcode_in, requests_of};

use crate::course::Course;
use bridge_core::{Bridge, ChainCommand, Request, Turned, act, codes, let_go};
use disk_model::Disk;
use dns_message::Transport;
use dns_message::rcode::{NOERROR, SERVFAIL};
use frame_loop::ReplyBuf;
use generated_chain::Round;
use nmc_base::{Hash32, NoMemory, Steps};
use std::alloc::Global;
use std::sync::ledger::Ledger;

/// Why a self-test stops.
#[derive(Clone, Copy, PartialEq, Eq, Debug)]
pub(crate) enum Stop {
    /// A command or a save was refused.
    Refused,
    /// Memory ran out: that of the disk too.
    NoMemory,
}

/// What the reply to a command or a save says.
fn judge(reply: &ReplyBuf) -> Result<(), Stop>
    ensures { IsJudged reply.now result }
{
    match reply.code() {
        codes::DONE => Ok(()),
        codes::NO_MEMORY | codes::DISK_FAULT => Err(Stop::NoMemory),
        _ => Err(Stop::Refused),
    }
}

/// Has the bridge do a command or a save.
fn play<D: Disk, L: Ledger>(
    bridge: Bridge,
    alloc: Global,
    disk: &mut D,
    request: Request<'_>,
    reply: &mut ReplyBuf,
    steps: &mut Steps<L>,
) -> Result<Bridge, Stop>
    requires within { IsRequestWithinLimits request }
    requires on_disk { IsTrue D.tells → IsOn bridge.store (D.seen disk.old).moments.now }
    ensures { PlaysRequests D.tells D.seen (bridge, disk.old) (request_of request.entry ∷ []) disk.new result }
{
    match act(bridge, alloc, disk, request, reply, steps) {
        Turned::Ended => Err(Stop::NoMemory),
        Turned::On(next) => match judge(reply) {
            Ok(()) => Ok(next),
            Err(stop) => {
                let_go(Turned::On(next));
                Err(stop)
            }
        },
    }
}

/// Has the bridge connect a block.
fn connect<D: Disk, L: Ledger>(
    bridge: Bridge,
    alloc: Global,
    disk: &mut D,
    block: &[u8],
    reply: &mut ReplyBuf,
    steps: &mut Steps<L>,
) -> Result<Bridge, Stop>
    requires short { length block.now ≤ LONGEST_BLOCK }
    requires on_disk { IsTrue D.tells → IsOn bridge.store (D.seen disk.old).moments.now }
    ensures { PlaysRequests D.tells D.seen (bridge, disk.old) (Do (Connect block.now) ∷ []) disk.new result }
{
    let command = ChainCommand::Connect(block);
    play(bridge, alloc, disk, Request::Command(command), reply, steps)
}

/// Has the bridge disconnect the newest block.
fn disconnect<D: Disk, L: Ledger>(
    bridge: Bridge,
    alloc: Global,
    disk: &mut D,
    hash: Hash32,
    reply: &mut ReplyBuf,
    steps: &mut Steps<L>,
) -> Result<Bridge, Stop>
    requires on_disk { IsTrue D.tells → IsOn bridge.store (D.seen disk.old).moments.now }
    ensures { PlaysRequests D.tells D.seen (bridge, disk.old) (Do (Disconnect hash.0) ∷ []) disk.new result }
{
    let command = ChainCommand::Disconnect(hash);
    play(bridge, alloc, disk, Request::Command(command), reply, steps)
}

/// Has the block leave the chain and join it again, where the round says so.
fn rejoin<D: Disk, L: Ledger>(
    bridge: Bridge,
    alloc: Global,
    disk: &mut D,
    round: &Round,
    reply: &mut ReplyBuf,
    steps: &mut Steps<L>,
) -> Result<Bridge, Stop>
    requires short { length round.now.block ≤ LONGEST_BLOCK }
    requires on_disk { IsTrue D.tells → IsOn bridge.store (D.seen disk.old).moments.now }
    ensures { PlaysRequests D.tells D.seen (bridge, disk.old) (joined_again round.now.reconnects round.now.block round.now.hash.0) disk.new result }
{
    if !round.reconnects {
        return Ok(bridge);
    }
    let bridge = disconnect(bridge, alloc, disk, round.hash, reply, steps)?;
    connect(bridge, alloc, disk, round.block.as_slice(), reply, steps)
}

/// Has the bridge save, where the round says so.
fn save<D: Disk, L: Ledger>(
    bridge: Bridge,
    alloc: Global,
    disk: &mut D,
    round: &Round,
    reply: &mut ReplyBuf,
    steps: &mut Steps<L>,
) -> Result<Bridge, Stop>
    requires on_disk { IsTrue D.tells → IsOn bridge.store (D.seen disk.old).moments.now }
    ensures { PlaysRequests D.tells D.seen (bridge, disk.old) (saved round.now.saves) disk.new result }
{
    if round.saves {
        play(bridge, alloc, disk, Request::Save, reply, steps)
    } else {
        Ok(bridge)
    }
}

/// Has the bridge do the commands of the round, and its save.
fn play_requests<D: Disk, L: Ledger>(
    bridge: Bridge,
    alloc: Global,
    disk: &mut D,
    round: &Round,
    reply: &mut ReplyBuf,
    steps: &mut Steps<L>,
) -> Result<Bridge, Stop>
    requires short { length round.now.block ≤ LONGEST_BLOCK }
    requires on_disk { IsTrue D.tells → IsOn bridge.store (D.seen disk.old).moments.now }
    ensures { PlaysRequests D.tells D.seen (bridge, disk.old) (requests_of round.now) disk.new result }
{
    let bridge = connect(bridge, alloc, disk, round.block.as_slice(), reply, steps)?;
    let bridge = rejoin(bridge, alloc, disk, round, reply, steps)?;
    save(bridge, alloc, disk, round, reply, steps)
}

/// The RCODE of a message (RFC 1035, 4.1.1). Without a header it has none, and 0 stands for that.
fn rcode_of(message: &[u8]) -> u8
    ensures { result ≡ rcode_in message.now }
{
    match message {
        [_, _, _, flags, ..] => flags % 16,
        _ => NOERROR,
    }
}

/// Whether a message has RCODE 0, and a record in its answer section.
fn is_answer(message: &[u8]) -> bool
    ensures { result ≡ has_answer message.now }
{
    match message {
        [_, _, _, flags, _, _, high, low, _, _, _, _, ..] => {
            flags % 16 == NOERROR && u16::from_be_bytes([*high, *low]) != 0
        }
        _ => false,
    }
}

/// Asks a message in a datagram, and says whether it got an answer.
fn ask(
    bridge: &mut Bridge,
    alloc: Global,
    message: &[u8],
    reply: &mut ReplyBuf,
) -> Result<bool, NoMemory>
    ensures answers { AnswersQuery bridge.old Datagram message.now reply.new bridge.new }
    ensures taken { IfOk result (λ found. rcode_in reply.new.payload ≢ SERVFAIL) }
    ensures found { IfOk result (λ found. found ≡ is_answered reply.new) }
{
    bridge.query(alloc, Transport::Udp, message, reply);
    if rcode_of(reply.payload()) == SERVFAIL {
        return Err(NoMemory);
    }
    Ok(reply.code() == codes::DONE && is_answer(reply.payload()))
}

/// Asks a message twice, and says how many answers it got.
fn ask_twice(
    bridge: &mut Bridge,
    alloc: Global,
    message: &[u8],
    reply: &mut ReplyBuf,
) -> Result<u32, NoMemory>
    ensures asks { IfOk result (λ answers. AsksTwice bridge.old message.now bridge.new answers) }
    ensures few { IfOk result (λ answers. answers ≤ 2) }
{
    let first = ask(bridge, alloc, message, reply)?;
    let second = ask(bridge, alloc, message, reply)?;
    Ok(u32::from(first) + u32::from(second))
}

/// A count with one more, where that is so.
fn counted_with(count: u32, is_one: bool) -> u32
    requires { count + 1 < 2 ^ 32 }
    ensures { result ≡ counted_if is_one count }
{
    if is_one { count + 1 } else { count }
}

/// Plays the events of a round.
pub(crate) fn play_round<D: Disk, L: Ledger>(
    course: Course,
    alloc: Global,
    disk: &mut D,
    round: &Round,
    reply: &mut ReplyBuf,
    steps: &mut Steps<L>,
) -> Result<Course, Stop>
    requires short { length round.now.block ≤ LONGEST_BLOCK }
    requires on_disk { IsTrue D.tells → IsOn course.bridge.store (D.seen disk.old).moments.now }
    requires answers { course.answers + 2 < 2 ^ 32 }
    requires saves { course.saves + 1 < 2 ^ 32 }
    ensures { PlaysRound D.tells D.seen course disk.old round.now disk.new result }
{
    let Course {
        bridge,
        answers,
        saves,
    } = course;
    let mut bridge = play_requests(bridge, alloc, disk, round, reply, steps)?;
    match ask_twice(&mut bridge, alloc, round.query.as_slice(), reply) {
        Ok(more) => Ok(Course {
            bridge,
            answers: answers + more,
            saves: counted_with(saves, round.saves),
        }),
        Err(NoMemory) => {
            let_go(Turned::On(bridge));
            Err(Stop::NoMemory)
        }
    }
}
