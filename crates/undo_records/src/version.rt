//! The versions of texts.

/// The version of a text. It says whether items have a registration height in it, and nothing else.
#[derive(Clone, Copy)]
pub enum Version {
    /// An item has no registration height, and is read with 0.
    One,
    /// An item has its registration height behind its height.
    Two,
}
