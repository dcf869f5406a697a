//! The laws of what is held for a message. Each is the contract of a function that does nothing.

ghost use Rattle.std.specs.Prelude.{◌≡◌};
ghost use Rattle.import_expand.specs.declared.limits.TheConstants.{MOST_HELD};

/// The number that definitions cite by its name: how many bytes are held for one message.
pub fn numbers_of_rooms()
    ensures most { MOST_HELD ≡ 65536 }
{}
