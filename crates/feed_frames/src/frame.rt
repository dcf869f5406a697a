//! A whole frame, where it lies.

/// A whole frame: its kind byte, and its payload, which lies where it was fed.
#[derive(Clone, Copy, Debug)]
pub struct Frame<'a> {
    pub kind: u8,
    pub payload: &'a [u8],
}
