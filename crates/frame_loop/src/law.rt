//! Laws of a run over a stream. Each is the contract of a function that does nothing.

ghost use Rattle.frame_loop.specs.Transcript.{Streams, Transcript};
ghost use Rattle.frame_loop.specs.Determined.{IsDetermined, IsComplete};
ghost use Rattle.frame_loop.specs.declared.answerer.TheConstants.{QUERY, STREAM_QUERY};
ghost use Rattle.frame_loop.specs.declared.following.Ending.{Ending};
ghost use Rattle.frame_loop.specs.declared.reply.TheConstants.{LONGEST_REPLY, REPLY_HEAD, REPLY_ROOM};
ghost use Rattle.feed_frames.specs.Frames.{Frame};
ghost use Rattle.feed_frames.specs.Replies.{Reply};
ghost use Rattle.std.specs.Prelude.{◌≡◌, List, ℕ};

use crate::answerer::Answerer;

/// Where nothing failed, the bytes and the limit decide how a run ends, or what answers ended it before; and whole
/// frames alone, in fewer bytes than the limit, are all answered.
pub fn one_ending<W, T: Answerer<W>>()
    ensures determined { (start : T.Start) (old new : Streams) (limit : ℕ) (how : Ending) (now : T × W)
        → Transcript T.KINDS (T.reached start) (T.broken start) old new limit how now → IsDetermined T.KINDS old new limit how }
    ensures complete { (start : T.Start) (old new : Streams) (limit : ℕ) (how : Ending) (now : T × W)
        → Transcript T.KINDS (T.reached start) (T.broken start) old new limit how now → IsComplete T.KINDS old new limit how }
{}

/// The numbers that definitions cite by their names: the kind of a frame with a message of DNS, and what stands in its place for a
/// message of a client's stream, which is no kind of the feed; and how many bytes the payload of a reply has at most, its head, and both.
pub fn numbers_of_queries()
    ensures { (QUERY ≡ 3) × (STREAM_QUERY ≡ 0) × (LONGEST_REPLY ≡ 65535) × (REPLY_HEAD ≡ 5) × (REPLY_ROOM ≡ 65540) }
{}
