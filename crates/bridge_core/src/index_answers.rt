//! The reply to a message from the names that an index serves.

ghost use Rattle.std.specs.Prelude.{ℕ, ◌≤◌, List, length};
ghost use Rattle.nmc_base.specs.declared.chain_ends.Base.{Base};
ghost use Rattle.chain_names.specs.Log.{Log};
ghost use Rattle.chain_state.specs.Standing.{StandsForChain};
ghost use Rattle.dns_message.specs.Limits.{most_of};
ghost use Rattle.bit_resolver.specs.Replies.{told, IsWithin};
ghost use Rattle.bridge_core.specs.Serving.{AnswersBy, AnswersOn};

use crate::served::Served;
use bit_resolver::Answered;
use chain_state::Chain;
use dns_message::Transport;
use domain_text::Name;
use kept_answers::Answers;
use std::alloc::Global;

/// Writes the reply to a message at the front of the buffer, from the names that the chain serves or from an answer that is kept, in
/// the room that a reply by this transport may take. The zone has this host, and the height of the tip as its serial.
pub fn answer(
    alloc: Global,
    answers: &mut Answers,
    chain: &Chain,
    host: &Name,
    message: &[u8],
    transport: Transport,
    buffer: &mut [u8],
) -> Answered
    requires room { most_of transport ≤ length buffer.old }
    // Where the answers that are kept are right it is the definition's, or SERVFAIL for want of memory, and they are right then too: by
    // the index,
    ensures index { AnswersBy chain.now host.now transport message.now answers.old (told result buffer.new) answers.new }
    // and by the log of every chain that the index stands for.
    ensures chain { (base : Base) (start : Log) (blocks : List (List ℕ)) → StandsForChain base start blocks chain.now
        → AnswersOn base start blocks host.now transport message.now answers.old (told result buffer.new) answers.new }
    ensures within { IsWithin (most_of transport) result }
{
    let served = Served::of(chain);
    let mut values = 0;
    answers.answer(
        alloc,
        &served,
        host,
        chain.tip().height,
        message,
        transport,
        buffer,
        &mut values,
    )
}
