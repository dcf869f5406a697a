//! The number of a port, as definitions cite it.
ghost use Rattle.std.specs.Prelude.{◌≡◌};
ghost use Rattle.byte_io.specs.declared.port.TheConstants.{POLL_ROOM};

/// The number that definitions cite by its name: how many bytes a poll brings at most.
pub fn number_of_a_poll()
    ensures { POLL_ROOM ≡ 65536 }
{}
