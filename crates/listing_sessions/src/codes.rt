//! The codes of replies to those who list. The definitions have each as a number, so that one that is changed here alone is refused.

/// The session was opened or closed, or the page is given.
pub(crate) const DONE: u8 = 0;
/// As many sessions are open as may be.
pub(crate) const TOO_MANY_SESSIONS: u8 = 31;
/// No session of this number is open.
pub(crate) const NO_SESSION: u8 = 32;
/// Memory ran out.
pub(crate) const NO_MEMORY: u8 = 0xFE;
