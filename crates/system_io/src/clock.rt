//! Times of a clock that never goes back.

use std::time::{Clock, Duration};

/// So many microseconds are a millisecond.
pub(crate) const MILLISECOND: u64 = 1_000;

/// So many are a second.
pub(crate) const SECOND: u64 = 1_000_000;

/// For so long one side is waited for alone.
pub(crate) const LOOK: u64 = 10 * MILLISECOND;

/// No time is later.
pub(crate) const NEVER: u64 = u64::MAX;

/// The time in microseconds since some start. It never goes back.
pub(crate) fn now(rt: &HostRuntime) -> u64 {
    let time = rt.monotonic().unwrap_or(Duration::ZERO);
    let seconds = time.as_secs().saturating_mul(SECOND);
    seconds.saturating_add(u64::from(time.subsec_micros()))
}
