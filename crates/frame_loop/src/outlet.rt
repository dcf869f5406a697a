//! Where the replies to frames go.

ghost use Rattle.std.specs.Prelude.{◌≡◌};
ghost use Rattle.feed_frames.specs.Replies.{Reply, reply_text};
ghost use Rattle.frame_loop.specs.Answering.{GivesOne};
ghost use Rattle.frame_loop.specs.Delivery.{TookAll, TookPart, TookUpTo};

use crate::delivery::{Undelivered, deliver, deliver_part};
use crate::reply::ReplyBuf;
use byte_io::Sink;

/// How the replies to frames are given to something: as text to a sink, or as messages to a port.
pub trait Outlet<K> {
    // what contracts see of it
    ghost Seen: { Type 0 };

    ghost seen: { K → Seen };

    // replies can be given to it
    ghost takes: { Seen → Type 0 };

    // this reply was given; it wasn't, and no more are; it was the last, and was given as far as could be
    ghost gives: { Seen → Reply → Seen → Type 0 };

    ghost refuses: { Seen → Reply → Seen → Type 0 };

    ghost gives_last: { Seen → Reply → Seen → Type 0 };

    /// Gives a reply. At Err no more can be given.
    fn give(to: &mut K, reply: &ReplyBuf) -> Result<(), Undelivered>
        requires { takes (seen to.old) }
        ensures { GivesOne gives refuses (seen to.old) reply.now (seen to.new) result };

    /// Gives the last reply, as far as can be.
    fn give_last(to: &mut K, reply: &ReplyBuf)
        requires { takes (seen to.old) }
        ensures { gives_last (seen to.old) reply.now (seen to.new) };

    // more replies can be given behind one that was given
    ghost still_takes: { (old : Seen) (reply : Reply) (new : Seen) → gives old reply new → takes old → takes new };
}

/// Replies as text, to a sink.
pub struct ToSink;

impl<K: Sink> Outlet<K> for ToSink {
    ghost use Rattle.byte_io.specs.Sink.{SinkSeen};
    ghost use Rattle.feed_frames.specs.Replies.{reply_text};
    ghost use Rattle.frame_loop.specs.Delivery.{TookAll, TookPart, TookUpTo};

    ghost Seen = { SinkSeen };

    ghost seen = { K.seen };

    ghost takes = { λ sink. Unit {0} };

    ghost gives = { λ old reply new. TookAll old new (reply_text reply) };

    ghost refuses = { λ old reply new. TookPart old new (reply_text reply) };

    ghost gives_last = { λ old reply new. TookUpTo old new (reply_text reply) };

    ghost still_takes = { λ old reply new took is. tt };

    fn give(to: &mut K, reply: &ReplyBuf) -> Result<(), Undelivered> {
        deliver(to, reply.text())
    }

    fn give_last(to: &mut K, reply: &ReplyBuf) {
        deliver_part(to, reply.text());
    }
}
