//! The reply to one frame, as text.

ghost use Rattle.std.specs.Prelude.{◌≡◌, ◌≤◌, ◌+◌, ◌++◌, ◌∷◌, ◌<◌, ◌^◌, length, take, drop, [], IfOk};
ghost use Rattle.std.specs.Int.{w32, to_le_bytes};
ghost use Rattle.feed_frames.specs.Replies.{reply_text};
ghost use Rattle.frame_loop.specs.declared.reply.TheConstants.{LONGEST_REPLY, REPLY_HEAD, REPLY_ROOM};

use nmc_base::NoMemory;
use std::alloc::Global;
use std::marker::Model;
use std::mem;

/// The longest payload of a reply.
pub const LONGEST_REPLY: usize = 65_535;

/// A reply's code byte and its length.
pub const REPLY_HEAD: usize = 5;

/// The bytes of the longest reply.
pub const REPLY_ROOM: usize = REPLY_HEAD + LONGEST_REPLY;

/// The one reply of the frame that was dealt with last: a code byte, the payload's length in 4 bytes,
/// low byte first, and the payload. Contracts see its code and its payload.
#[derive(Drop)]
pub struct ReplyBuf {
    code: u8,
    size: usize,
    /// The reply, and what is left of the room.
    text: Vec<u8>,
}

impl Model for ReplyBuf {
    ghost use Rattle.std.specs.Prelude.{take, drop};
    ghost use Rattle.feed_frames.specs.Replies.{Reply};
    ghost use Rattle.frame_loop.specs.Rooms.{IsReplyIn};

    ghost Value = { Reply };

    ghost view = { λ r. record { code = r.code; payload = take r.size (drop 5 r.text.items) } };

    ghost invariant = { λ r. IsReplyIn r.code r.size r.text.items };
}

/// Writes a piece at a place, and gives the place behind it.
fn put(text: &mut [u8], at: usize, piece: &[u8]) -> usize
    requires { at + length piece.now ≤ length text.old }
    ensures end { result ≡ at + length piece.now }
    ensures text { text.new ≡ take at text.old ++ (piece.now ++ drop (at + length piece.now) text.old) }
{
    let end = at + piece.len();
    text[at..end].copy_from_slice(piece);
    end
}

/// Writes the head of a reply: its code and how many bytes its payload has.
fn put_head(text: &mut [u8], code: u8, size: usize)
    requires room { REPLY_HEAD ≤ length text.old }
    requires short { size < 2 ^ 32 }
    ensures { text.new ≡ (code ∷ to_le_bytes w32 size) ++ drop REPLY_HEAD text.old }
{
    let [first, second, third, fourth] = (size as u32).to_le_bytes();
    put(text, 0, &[code, first, second, third, fourth]);
}

/// Writes a reply whose payload is two pieces at the front, and gives how many bytes these have.
fn write_reply(text: &mut [u8], code: u8, first: &[u8], second: &[u8]) -> usize
    requires room { length text.old ≡ REPLY_ROOM }
    requires short { length first.now + length second.now ≤ LONGEST_REPLY }
    ensures size { result ≡ length first.now + length second.now }
    ensures head { take REPLY_HEAD text.new ≡ code ∷ to_le_bytes w32 result }
    ensures payload { take result (drop REPLY_HEAD text.new) ≡ first.now ++ second.now }
{
    let end = put(text, REPLY_HEAD, first);
    let end = put(text, end, second);
    let size = end - REPLY_HEAD;
    put_head(text, code, size);
    size
}

impl ReplyBuf {
    /// An empty reply. All the memory that a reply ever needs is taken here: 65,540 bytes.
    pub fn new(alloc: Global) -> Result<ReplyBuf, NoMemory>
        ensures { IfOk result (λ reply. reply ≡ record { code = 0; payload = [] }) }
    {
        let text = vec![in alloc; 0; REPLY_ROOM]?;
        Ok(ReplyBuf {
            code: 0,
            size: 0,
            text,
        })
    }

    /// The code byte.
    pub fn code(&self) -> u8
        ensures { result ≡ self.now.code }
    {
        self.code
    }

    /// The bytes behind the length.
    pub fn payload(&self) -> &[u8]
        ensures value { result.now ≡ self.now.payload }
        ensures short { length result.now ≤ LONGEST_REPLY }
    {
        &self.text[REPLY_HEAD..REPLY_HEAD + self.size]
    }

    /// The whole reply, as it is written.
    pub fn text(&self) -> &[u8]
        ensures { result.now ≡ reply_text self.now }
    {
        &self.text[..REPLY_HEAD + self.size]
    }

    /// Sets the reply to a code and a payload of two pieces.
    pub fn set(&mut self, code: u8, first: &[u8], second: &[u8])
        requires { length first.now + length second.now ≤ LONGEST_REPLY }
        ensures { self.new ≡ record { code = code; payload = first.now ++ second.now } }
    {
        self.size = write_reply(&mut self.text, code, first, second);
        self.code = code;
    }

    /// Sets the reply to a code and as many of the bytes that a room has behind its first five. The room of the reply before is left in its
    /// place.
    pub fn exchange(&mut self, code: u8, room: &mut Vec<u8>, size: usize)
        requires room { length room.old.items ≡ REPLY_ROOM }
        requires size { size ≤ LONGEST_REPLY }
        ensures reply { self.new ≡ record { code = code; payload = take size (drop REPLY_HEAD room.old.items) } }
        ensures room { length room.new.items ≡ REPLY_ROOM }
    {
        mem::swap(&mut self.text, room);
        self.size = size;
        self.code = code;
        put_head(&mut self.text, code, size);
    }
}
