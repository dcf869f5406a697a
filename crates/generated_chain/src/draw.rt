//! Draws of numbers.

ghost use Rattle.std.specs.Prelude.{◌≡◌, ◌<◌};
ghost use Rattle.generated_chain.specs.Draws.{next_state as next_state_of, number_drawn as number_drawn_of};

/// What the state is multiplied by.
const MULTIPLIER: u64 = 6_364_136_223_846_793_005;

/// What is added to it.
const INCREMENT: u64 = 1_442_695_040_888_963_407;

/// So many low bits of the state are left out.
const LEFT_OUT: u32 = 33;

/// A name is one of so many.
pub(crate) const NAMES: usize = 64;

/// The state behind one draw more.
pub(crate) fn next_state(state: u64) -> u64
    ensures { result ≡ next_state_of state }
{
    state.wrapping_mul(MULTIPLIER).wrapping_add(INCREMENT)
}

/// The number of the name that the draw which left this state gave.
pub(crate) fn number_drawn(state: u64) -> u8
    ensures number { result ≡ number_drawn_of state }
    ensures low { result < 64 }
{
    ((state >> LEFT_OUT) % NAMES as u64) as u8
}
