//! The replies to begins and slices. The definitions have each code as a number, so that one that is changed here alone is refused.

ghost use Rattle.std.specs.Prelude.{◌≡◌};
ghost use Rattle.name_lister.specs.Saver.{running_reply, no_save_reply, area_limit_reply, begun_reply, more_reply, selected_reply};

use bridge_core::codes;
use frame_loop::ReplyBuf;

/// A save in slices runs already.
const SAVE_RUNNING: u8 = 33;

/// No save in slices runs.
const NO_SAVE: u8 = 34;

/// The image and the records since the begin are longer than an area may be.
const AREA_LIMIT: u8 = 35;

/// What a slice tells behind code 0: bytes are left.
const MORE: u8 = 0;

/// What a slice tells behind code 0: the area was selected.
const SELECTED: u8 = 1;

/// Code 0 of a save that was begun.
pub(crate) fn tell_begun(reply: &mut ReplyBuf)
    ensures { reply.new ≡ begun_reply }
{
    reply.set(codes::DONE, &[], &[]);
}

/// Code 0 of a slice behind which bytes are left.
pub(crate) fn tell_more(reply: &mut ReplyBuf)
    ensures { reply.new ≡ more_reply }
{
    reply.set(codes::DONE, &[MORE], &[]);
}

/// Code 0 of the last slice, and how many saves were selected since the files were made.
pub(crate) fn tell_selected(reply: &mut ReplyBuf, number: u64)
    ensures { reply.new ≡ selected_reply number }
{
    reply.set(codes::DONE, &[SELECTED], &number.to_le_bytes());
}

/// Code 33, since a save in slices runs.
pub(crate) fn refuse_running(reply: &mut ReplyBuf)
    ensures { reply.new ≡ running_reply }
{
    reply.set(SAVE_RUNNING, &[], &[]);
}

/// Code 34, since no save in slices runs.
pub(crate) fn refuse_idle(reply: &mut ReplyBuf)
    ensures { reply.new ≡ no_save_reply }
{
    reply.set(NO_SAVE, &[], &[]);
}

/// Code 35, since the area would be too long.
pub(crate) fn refuse_area(reply: &mut ReplyBuf)
    ensures { reply.new ≡ area_limit_reply }
{
    reply.set(AREA_LIMIT, &[], &[]);
}
