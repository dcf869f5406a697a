//! Laws of streams. Each is the contract of a function that does nothing.

ghost use Rattle.std.specs.Prelude.{◌≡◌, ℕ, ◌<◌, ◌≤◌, List, [], ◌∷◌, ◌++◌, length, Some, None};
ghost use Rattle.dns_tcp.specs.Messages.{IsMessage, message_text, Messages, IsPartialMessage, BeginsWith, AreBytes, HasSplitting};
ghost use Rattle.dns_tcp.specs.Streams.{Stream, left_of, with_left, without, MayHold, AreStreams};
ghost use Rattle.dns_tcp.specs.declared.streams.TheConstants.{CLIENTS};

/// Bytes are whole messages and a part of one or nothing, and in one way: so a stream has one list of messages.
pub fn one_splitting()
    ensures one_at_most { (bytes : List ℕ) (messages others : List (List ℕ)) (rest left : List ℕ)
        → Messages bytes messages rest → IsPartialMessage rest → Messages bytes others left → IsPartialMessage left
        → (messages ≡ others) × (rest ≡ left) }
    ensures one_at_least { (bytes : List ℕ) → AreBytes bytes → HasSplitting bytes }
    ensures whole_or_partial { (bytes message : List ℕ) → BeginsWith bytes message → IsPartialMessage bytes → ⊥ }
{}

/// Fed in any pieces, a stream gives the messages of its joined pieces: a piece comes behind what is left, and a message
/// is given off its front.
pub fn any_pieces()
    ensures nothing { Messages [] [] [] }
    ensures fed { (bytes : List ℕ) (messages : List (List ℕ)) (left piece : List ℕ)
        → Messages bytes messages left → Messages (bytes ++ piece) messages (left ++ piece) }
    ensures gave { (bytes : List ℕ) (messages : List (List ℕ)) (message left : List ℕ)
        → Messages bytes messages (message_text message ++ left) → IsMessage message → Messages bytes (messages ++ message ∷ []) left }
    ensures joined { (bytes : List ℕ) (messages others : List (List ℕ)) (left piece rest : List ℕ)
        → Messages bytes messages left → Messages (left ++ piece) others rest → Messages (bytes ++ piece) (messages ++ others) rest }
{}

/// Whoever is fed, gives a message or ends, nothing else is left of the others. A client stands once among those that
/// are held, and they are never more than 16.
pub fn clients_apart()
    ensures left { (client : ℕ) (left : List ℕ) (streams : List Stream) → left_of client (with_left client left streams) ≡ Some left }
    ensures left_of_another { (client other : ℕ) (left : List ℕ) (streams : List Stream) → ¬ (client ≡ other)
        → left_of other (with_left client left streams) ≡ left_of other streams }
    ensures ended { (client : ℕ) (streams : List Stream) → AreStreams streams → left_of client (without client streams) ≡ None }
    ensures ended_another { (client other : ℕ) (streams : List Stream) → ¬ (client ≡ other)
        → left_of other (without client streams) ≡ left_of other streams }
    ensures none_held { AreStreams [] }
    ensures held { (client : ℕ) (left : List ℕ) (streams : List Stream) → AreStreams streams → MayHold client streams → AreStreams (with_left client left streams) }
    ensures room { (client : ℕ) (streams : List Stream) → length streams < CLIENTS → MayHold client streams }
    ensures no_room { (client : ℕ) (streams : List Stream) → ¬ (MayHold client streams) → (left_of client streams ≡ None) × (CLIENTS ≤ length streams) }
    ensures fewer_held { (client : ℕ) (streams : List Stream) → AreStreams streams → AreStreams (without client streams) }
{}

/// The number that definitions cite by its name: of how many clients the streams are held at once.
pub fn number_of_clients()
    ensures { CLIENTS ≡ 16 }
{}
