//! What a bridge answers messages by: room for a reply, and the answers that are kept.

ghost use Rattle.std.specs.Prelude.{◌≡◌, IfOk};
ghost use Rattle.kept_answers.specs.Answering.{none_kept, outdated};
ghost use Rattle.bridge_core.specs.Bridge.{AnswersQuery};
ghost use Rattle.bridge_core.specs.Bridged.{bridged};
ghost use Rattle.bridge_core.specs.Views.{carrier_of};

use crate::querying::answer_in;
use crate::reply_room::ReplyRoom;
use dns_message::Transport;
use frame_loop::ReplyBuf;
use kept_answers::{Answers, Cache};
use name_store::Store;
use nmc_base::NoMemory;
use std::alloc::Global;
use std::marker::Model;

/// What a bridge answers messages by beside its store: room for a reply, and the answers that are kept. Contracts see these.
#[derive(Drop)]
pub(crate) struct Desk {
    room: ReplyRoom,
    answers: Answers,
}

impl Model for Desk {
    ghost use Rattle.kept_answers.specs.Answering.{Answering};

    ghost Value = { Answering };

    ghost view = { λ d. d.answers };
}

impl Desk {
    /// No answer is kept yet.
    pub(crate) fn new(alloc: Global) -> Result<Desk, NoMemory>
        ensures { IfOk result (λ answers. answers ≡ none_kept) }
    {
        Ok(Desk {
            room: ReplyRoom::new(alloc)?,
            answers: Answers::new(alloc)?,
        })
    }

    /// The cache of answers.
    pub(crate) fn cache(&self) -> &Cache
        ensures { result.now ≡ self.now.cache }
    {
        self.answers.cache()
    }

    /// A connect or a disconnect was accepted.
    pub(crate) fn outdate(&mut self)
        ensures { self.new ≡ outdated self.old }
    {
        self.answers.outdate();
    }

    /// Answers a message of DNS from the names that the store's chain serves.
    pub(crate) fn answer(
        &mut self,
        alloc: Global,
        store: &Store,
        transport: Transport,
        message: &[u8],
        reply: &mut ReplyBuf,
    )
        ensures { AnswersQuery (bridged store.now self.old) (carrier_of transport) message.now reply.new (bridged store.now self.new) }
    {
        let room = &mut self.room.bytes;
        answer_in(
            alloc,
            &mut self.answers,
            store,
            transport,
            message,
            room,
            reply,
        );
    }
}
