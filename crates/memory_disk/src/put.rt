//! Puts bytes into a file.

// Bytes put over those of a file.
ghost use Rattle.std.specs.Prelude.{◌≡◌, IfOk, OnOk, OnErr};
ghost use Rattle.disk_model.specs.FileState.{put};

use std::alloc::{AllocError, Global};

/// Puts a piece over the bytes from a position on, and past their end. The error is want of memory,
/// and then nothing was put.
pub fn put(bytes: &mut Vec<u8>, at: usize, piece: &[u8]) -> Result<(), AllocError>
    ensures ok { OnOk result (bytes.new.items ≡ put bytes.old.items at piece.now) }
    ensures err { OnErr result (bytes.new.items ≡ bytes.old.items) }
{
    let start = at.min(bytes.len());
    let over = piece.len().min(bytes.len() - start);
    let (front, rest) = piece.split_at(over);
    bytes.extend_from_slice(rest)?;
    bytes[start..start + over].copy_from_slice(front);
    Ok(())
}

/// The same, with a copy of the piece for whoever keeps the call.
pub fn put_copied(
    alloc: Global,
    bytes: &mut Vec<u8>,
    at: usize,
    piece: &[u8],
) -> Result<Vec<u8>, AllocError>
    ensures copy { IfOk result (λ copy. copy.items ≡ piece.now) }
    ensures ok { OnOk result (bytes.new.items ≡ put bytes.old.items at piece.now) }
    ensures err { OnErr result (bytes.new.items ≡ bytes.old.items) }
{
    let copy = Vec::from_slice(alloc, piece)?;
    put(bytes, at, piece)?;
    Ok(copy)
}
