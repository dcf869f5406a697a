//! What of a snapshot comes next.

/// What of a snapshot comes next, and how many of them are left.
#[derive(Clone, Copy)]
pub enum Next {
    Head,
    Makes { left: u32 },
}
