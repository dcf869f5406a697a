//! The replies to those who list.

ghost use Rattle.std.specs.Prelude.{◌≡◌, ◌≤◌, ◌<◌, length};
ghost use Rattle.chain_commands.specs.Reply.{no_memory_reply};
ghost use Rattle.listing_sessions.specs.Sessions.{most_sessions, opened_reply, too_many_reply, no_session_reply, closed_reply};
ghost use Rattle.listing_sessions.specs.declared.page.TheConstants.{LONGEST_PAGE};

use crate::codes;
use frame_loop::ReplyBuf;

/// Code 0, and the number of the session.
pub(crate) fn tell_number(reply: &mut ReplyBuf, number: usize)
    requires { number < most_sessions }
    ensures { reply.new ≡ opened_reply number }
{
    let number = number as u32;
    reply.set(codes::DONE, &number.to_le_bytes(), &[]);
}

/// Code 0, and the page.
pub(crate) fn tell_page(reply: &mut ReplyBuf, text: &[u8])
    requires { length text.now ≤ LONGEST_PAGE }
    ensures { reply.new ≡ record { code = 0; payload = text.now } }
{
    reply.set(codes::DONE, text, &[]);
}

/// Code 0 of a session that was closed.
pub(crate) fn tell_closed(reply: &mut ReplyBuf)
    ensures { reply.new ≡ closed_reply }
{
    reply.set(codes::DONE, &[], &[]);
}

/// Code 31, since as many sessions are open as may be.
pub(crate) fn refuse_more(reply: &mut ReplyBuf)
    ensures { reply.new ≡ too_many_reply }
{
    reply.set(codes::TOO_MANY_SESSIONS, &[], &[]);
}

/// Code 32, since no session of the number is open.
pub(crate) fn refuse_number(reply: &mut ReplyBuf)
    ensures { reply.new ≡ no_session_reply }
{
    reply.set(codes::NO_SESSION, &[], &[]);
}

/// Code FE, want of memory.
pub(crate) fn lack_memory(reply: &mut ReplyBuf)
    ensures { reply.new ≡ no_memory_reply }
{
    reply.set(codes::NO_MEMORY, &[], &[]);
}
