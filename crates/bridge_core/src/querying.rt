//! Answers a message from the chain of a store.

ghost use Rattle.std.specs.Prelude.{◌≡◌, length};
ghost use Rattle.frame_loop.specs.declared.reply.TheConstants.{REPLY_ROOM};
ghost use Rattle.bridge_core.specs.Bridge.{AnswersQuery};
ghost use Rattle.bridge_core.specs.Bridged.{bridged};
ghost use Rattle.bridge_core.specs.Views.{carrier_of};

use crate::codes;
use crate::index_answers::answer;
use bit_resolver::Answered;
use dns_message::Transport;
use frame_loop::{REPLY_HEAD, ReplyBuf};
use kept_answers::Answers;
use name_store::Store;
use port_loop::DROPPED;
use std::alloc::Global;

/// Answers a message of DNS from the names that the store's chain serves, or from an answer that is kept: code 0 and the reply, or code 8
/// where it gets none. The reply is written in the room, which the room of the reply before takes the place of.
pub(crate) fn answer_in(
    alloc: Global,
    answers: &mut Answers,
    store: &Store,
    transport: Transport,
    message: &[u8],
    room: &mut Vec<u8>,
    reply: &mut ReplyBuf,
)
    requires { length room.old.items ≡ REPLY_ROOM }
    ensures room { length room.new.items ≡ REPLY_ROOM }
    ensures reply { AnswersQuery (bridged store.now answers.old) (carrier_of transport) message.now reply.new (bridged store.now answers.new) }
{
    let (chain, host) = (store.chain(), store.host());
    let text = &mut room[REPLY_HEAD..];
    match answer(alloc, answers, chain, host, message, transport, text) {
        Answered::Dropped => reply.set(DROPPED, &[], &[]),
        Answered::Text(size) => reply.exchange(codes::DONE, room, size),
    }
}
