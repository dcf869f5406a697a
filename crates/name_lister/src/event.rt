//! What a lister is asked to do, read from a whole frame.

ghost use Rattle.std.specs.Prelude.{◌≡◌, length};
ghost use Rattle.std.specs.Int.{w32, to_le_bytes};
ghost use Rattle.feed_frames.specs.Front as feed;
ghost use Rattle.frame_loop.specs.Turns.{IsAskable};
ghost use Rattle.name_lister.specs.Event.{last_list_kind, list_frame};
ghost use Rattle.name_lister.specs.Views.{list_event_of, IsListReadable};

use bridge_core::{Event, read_event};
use feed_frames::Frame;

/// What a lister is asked to do: one whole frame, or a message over a stream.
#[derive(Clone, Copy, Debug)]
pub enum ListEvent<'a> {
    /// What a bridge may be asked.
    Plain(Event<'a>),
    /// A listing session is to be opened on the chain as it is.
    Open,
    /// The next page of the session of this number.
    Page(u32),
    /// The session of this number is to be closed.
    Close(u32),
    /// A save in slices is to begin.
    Begin,
    /// The next slice of that save is to be written, of so many bytes.
    Slice(u32),
}

/// The kind of an opening's frame, which is empty.
const OPEN: u8 = 5;

/// The kind of a page's frame, which has the number of a session.
const PAGE: u8 = 6;

/// The kind of a close's frame, which has the number of a session.
const CLOSE: u8 = 7;

/// The kind of a begin's frame, which is empty.
const BEGIN: u8 = 8;

/// The kind of a slice's frame, which has the number of its bytes.
const SLICE: u8 = 9;

/// The number in a payload of four bytes, low byte first.
fn number_in(payload: &[u8]) -> u32
    requires { length payload.now ≡ 4 }
    ensures { to_le_bytes w32 result ≡ payload.now }
{
    match payload.as_array() {
        Some(bytes) => u32::from_le_bytes(*bytes),
        None => unreachable!(),
    }
}

/// The event of a whole frame.
pub(crate) fn read_list_event(frame: Frame<'_>) -> ListEvent<'_>
    requires { IsAskable last_list_kind (feed.frame_of frame) }
    ensures same { list_frame (list_event_of result) ≡ feed.frame_of frame.entry }
    ensures within { IsListReadable result }
{
    if frame.kind == OPEN {
        return ListEvent::Open;
    }
    if frame.kind == PAGE {
        return ListEvent::Page(number_in(frame.payload));
    }
    if frame.kind == CLOSE {
        return ListEvent::Close(number_in(frame.payload));
    }
    if frame.kind == BEGIN {
        return ListEvent::Begin;
    }
    if frame.kind == SLICE {
        return ListEvent::Slice(number_in(frame.payload));
    }
    ListEvent::Plain(read_event(frame))
}
