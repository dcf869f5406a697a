//! Room for the longest reply to a message.

ghost use Rattle.std.specs.Prelude.{◌≡◌, length, IfOk};
ghost use Rattle.frame_loop.specs.declared.reply.TheConstants.{REPLY_ROOM};

use frame_loop::REPLY_ROOM;
use nmc_base::NoMemory;
use std::alloc::Global;
use std::marker::Model;

/// Room for the longest reply to a message behind the head of its frame, 65,540 bytes, which is written over with each. So no query
/// clears it first.
#[derive(Drop)]
pub(crate) struct ReplyRoom {
    pub(crate) bytes: Vec<u8>,
}

impl Model for ReplyRoom {
    ghost use Rattle.std.specs.Prelude.{◌≡◌, List, ℕ, length};
    ghost use Rattle.frame_loop.specs.declared.reply.TheConstants.{REPLY_ROOM};

    ghost Value = { List ℕ };

    ghost view = { λ r. r.bytes.items };

    ghost invariant = { λ r. length r.bytes.items ≡ REPLY_ROOM };
}

impl ReplyRoom {
    pub(crate) fn new(alloc: Global) -> Result<ReplyRoom, NoMemory>
        ensures { IfOk result (λ room. length room ≡ REPLY_ROOM) }
    {
        Ok(ReplyRoom {
            bytes: vec![in alloc; 0; REPLY_ROOM]?,
        })
    }
}
