//! Laws of a run over a port. Each is the contract of a function that does nothing.

ghost use Rattle.std.specs.Prelude.{◌≡◌, ℕ, List};
ghost use Rattle.byte_io.specs.Port.{Note, Got, nothing};
ghost use Rattle.feed_frames.specs.Frames.{Frame};
ghost use Rattle.feed_frames.specs.Replies.{Reply};
ghost use Rattle.port_loop.specs.Polls.{Parts, Closing, Brings};
ghost use Rattle.port_loop.specs.Transcript.{DealsWithAll, BreaksOff};
ghost use Rattle.port_loop.specs.Laws.{BringsSame, IsInItsPlace, polls_in};
ghost use Rattle.port_loop.specs.Stretches.{KeepsStreams, BreaksStreams};
ghost use Rattle.port_loop.specs.declared.sending.TheConstants.{DROPPED};

/// A poll brings its frames in one way.
pub fn one_reading()
    ensures { (kinds : ℕ) (part : Parts) (got : Got) (frames others : List Frame) (after behind : Parts) (shut others_shut : List Closing)
        → Brings kinds part got frames after shut → Brings kinds part got others behind others_shut
        → BringsSame frames others after behind shut others_shut }
{}

/// Each reply and each closing of the feed stands behind the poll that it comes of, and all polls are told.
pub fn in_its_place()
    ensures place { (kinds polls : ℕ) (part : Parts) (frames : List Frame) (replies : List Reply) (notes : List Note)
        → DealsWithAll kinds polls part frames replies notes → IsInItsPlace nothing notes }
    ensures polls { (kinds polls : ℕ) (part : Parts) (frames : List Frame) (replies : List Reply) (notes : List Note)
        → DealsWithAll kinds polls part frames replies notes → polls_in notes ≡ polls }
{}

/// The messages of a client's stream have their replies over it, in order: of each stretch, from the piece with which a client comes to be
/// held, at each poll up to its end. Nothing else is handed to a stream, and only those whose piece was refused are closed.
pub fn streams_are_answered()
    ensures dealt { (kinds polls : ℕ) (part : Parts) (frames : List Frame) (replies : List Reply) (notes : List Note)
        → (all : DealsWithAll kinds polls part frames replies notes) → KeepsStreams all }
    ensures broken { (kinds polls : ℕ) (part : Parts) (frames : List Frame) (replies : List Reply) (notes : List Note)
        → (all : DealsWithAll kinds polls part frames replies notes) → (last_frames : List Frame) (last_replies : List Reply) (last_notes : List Note)
        → (last : BreaksOff kinds part last_frames last_replies last_notes) → BreaksStreams all last }
{}

/// The number that definitions cite by its name: the code of a message that gets no reply.
pub fn number_of_dropped()
    ensures { DROPPED ≡ 8 }
{}
