//! What holds of every reply, whatever names are served.

ghost use Rattle.std.specs.Prelude.{◌≡◌, ◌≤◌, ◌↔◌, ℕ, List, length, None, Some};
ghost use Rattle.dns_message.specs.Query.{Query};
ghost use Rattle.dns_message.specs.Query.Reading.{Dropped};
ghost use Rattle.dns_message.specs.Reading.{reading_of};
ghost use Rattle.dns_message.specs.ReplyLaws.{IsHeaded};
ghost use Rattle.dns_message.specs.declared.transport.Transport.{Transport};
ghost use Rattle.import_expand.specs.Sources.{Live};
ghost use Rattle.bit_resolver.specs.Answers.{Answer};
ghost use Rattle.bit_resolver.specs.declared.zone.Zone.{Zone};
ghost use Rattle.bit_resolver.specs.Replies.{MayReply, dns_reply, limit_for, answer_text};

use dns_message::read_query;

/// What holds of every reply to a message, whatever names are served and whether memory runs out.
pub fn replies_are_lawful(message: &[u8])
    // Whether there is none depends on the message alone.
    ensures none { (live : Live) (z : Zone) (transport : Transport) → (dns_reply live z transport message.now ≡ None) ↔ (reading_of message.now ≡ Dropped) }
    // It has no more bytes than the limit.
    ensures within { (live : Live) (z : Zone) (transport : Transport) (text : List ℕ)
        → MayReply live z transport message.now (Some text) → length text ≤ limit_for transport (reading_of message.now) }
    // It gets no reply itself: two servers never answer each other.
    ensures ends { (live : Live) (z : Zone) (transport : Transport) (text : List ℕ)
        → MayReply live z transport message.now (Some text) → reading_of text ≡ Dropped }
{
    let _asked = read_query(message);
}

/// A reply to a question has the answer's AA and RCODE, and the question as it was asked, also where it is truncated.
pub fn truncated_replies_are_headed()
    ensures { (limit : ℕ) (q : Query) (a : Answer) → IsHeaded q a.rcode a.aa (answer_text limit q a) }
{}
