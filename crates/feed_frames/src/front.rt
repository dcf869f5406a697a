//! What stands at the front of a stream of frames.

ghost use Rattle.std.specs.Prelude.{◌≡◌, ◌↔◌, IsTrue};
ghost use Rattle.std.specs.List.{list_any};
ghost use Rattle.feed_frames.specs.Kinds.{IsKind, IsLength, is_of_kind, allows};
ghost use Rattle.feed_frames.specs.Front.{IsFront};

use crate::frame::Frame;
use crate::kinds::{KINDS, Kind};

/// What stands at the front of the bytes of a stream.
#[derive(Clone, Copy, Debug)]
pub(crate) enum Front<'a> {
    /// A whole frame; bytes may follow it.
    Whole(Frame<'a>),
    /// A part of a frame, or nothing.
    Partial,
    /// What begins no frame.
    Bad,
}

/// Whether one of the rows is of this kind.
fn has_kind(kinds: &[Kind], kind: u8) -> bool
    ensures { result ≡ list_any (is_of_kind kind) kinds.now }
{
    kinds.iter().any(|row| row.byte == kind)
}

/// Whether one of the rows is of this kind and allows a payload of this length.
fn allows_length(kinds: &[Kind], kind: u8, length: usize) -> bool
    ensures { result ≡ list_any (allows kind length) kinds.now }
{
    kinds.iter().any(|row| row.byte == kind && row.least <= length && length <= row.greatest)
}

/// Whether frames of this kind are read, where `kinds` is the greatest that is.
fn is_kind(kinds: u8, kind: u8) -> bool
    ensures { IsTrue result ↔ IsKind kinds kind }
{
    kind <= kinds && has_kind(&KINDS, kind)
}

/// Whether the payload of a frame of this kind, which is read, may have this length.
fn is_length(kinds: u8, kind: u8, length: usize) -> bool
    ensures { IsTrue result ↔ IsLength kinds kind length }
{
    kind <= kinds && allows_length(&KINDS, kind, length)
}

/// The frame at the front: a kind byte, a length of 4 bytes, low byte first, and the payload.
pub(crate) fn front_of(kinds: u8, bytes: &[u8]) -> Front<'_>
    ensures { IsFront kinds bytes.now result }
{
    match bytes {
        [] => Front::Partial,
        [kind, ..] if !is_kind(kinds, *kind) => Front::Bad,
        [kind, a, b, c, d, payload @ ..] => {
            let length = u32::from_le_bytes([*a, *b, *c, *d]) as usize;
            if !is_length(kinds, *kind, length) {
                Front::Bad
            } else if payload.len() < length {
                Front::Partial
            } else {
                let (payload, _) = payload.split_at(length);
                Front::Whole(Frame {
                    kind: *kind,
                    payload,
                })
            }
        }
        _ => Front::Partial,
    }
}
