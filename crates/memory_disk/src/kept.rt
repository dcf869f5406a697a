//! A call to a file, kept with what it did.

// The calls that a disk in memory keeps.

/// A call to one of the files.
#[derive(Drop)]
pub struct KeptCall {
    pub file: u8,
    pub effect: KeptEffect,
}

/// What the call did.
#[derive(Drop)]
pub enum KeptEffect {
    /// A read or a length: the file is as it was.
    Look,
    Write(u64, Vec<u8>),
    Cut(u64),
    Sync,
    Failed(FailedEffect),
}

/// What a call named that failed.
#[derive(Clone, Copy)]
pub enum FailedEffect {
    /// A read, a length or a sync: the file is as it was.
    FailedLook,

    /// A write at this place, of so many bytes.
    FailedWrite(u64, u64),
    FailedCut(u64),
}
