//! The readers of fields.

ghost use Rattle.std.specs.Prelude.{◌≡◌};
ghost use Rattle.std.specs.Int.{w16, w32};
ghost use Rattle.undo_records.specs.Reading.{number_from, piece_from, name_from, value_length_from, value_from, point_from};
ghost use Rattle.undo_records.specs.Fields.{seen};

use crate::fault::{Fault, FaultKind, cut};
use nmc_base::{Hash32, LONGEST_VALUE, OutPoint};

/// A number of 2 bytes, low byte first.
fn u16_at<'a>(bytes: &'a [u8]) -> Result<(u16, &'a [u8]), Fault<'a>>
    ensures { seen (λ x. (x.0, x.1.now)) result ≡ number_from w16 bytes.now }
{
    match bytes.split_first_chunk() {
        Some((number, rest)) => Ok((u16::from_le_bytes(*number), rest)),
        None => Err(cut()),
    }
}

/// A number of 4 bytes, low byte first.
pub fn u32_at<'a>(bytes: &'a [u8]) -> Result<(u32, &'a [u8]), Fault<'a>>
    ensures { seen (λ x. (x.0, x.1.now)) result ≡ number_from w32 bytes.now }
{
    match bytes.split_first_chunk() {
        Some((number, rest)) => Ok((u32::from_le_bytes(*number), rest)),
        None => Err(cut()),
    }
}

/// 20 bytes.
pub(crate) fn digest_at<'a>(bytes: &'a [u8]) -> Result<([u8; 20], &'a [u8]), Fault<'a>>
    ensures { seen (λ x. (x.0, x.1.now)) result ≡ piece_from 20 bytes.now }
{
    match bytes.split_first_chunk() {
        Some((digest, rest)) => Ok((*digest, rest)),
        None => Err(cut()),
    }
}

/// 32 bytes: a hash, or a txid.
pub fn hash_at<'a>(bytes: &'a [u8]) -> Result<([u8; 32], &'a [u8]), Fault<'a>>
    ensures { seen (λ x. (x.0, x.1.now)) result ≡ piece_from 32 bytes.now }
{
    match bytes.split_first_chunk() {
        Some((hash, rest)) => Ok((*hash, rest)),
        None => Err(cut()),
    }
}

/// So many bytes.
fn piece_at<'a>(count: usize, bytes: &'a [u8]) -> Result<(&'a [u8], &'a [u8]), Fault<'a>>
    ensures { seen (λ x. (x.0.now, x.1.now)) result ≡ piece_from count bytes.now }
{
    match bytes.split_at_checked(count) {
        Some((piece, rest)) => Ok((piece, rest)),
        None => Err(cut()),
    }
}

/// A name behind its length, which is one byte.
#[tactic(auto, unfolding(crate::specs::Reading::name_from))]
pub fn name_at<'a>(bytes: &'a [u8]) -> Result<(&'a [u8], &'a [u8]), Fault<'a>>
    ensures { seen (λ x. (x.0.now, x.1.now)) result ≡ name_from bytes.now }
{
    match bytes.split_first() {
        Some((len, rest)) => piece_at(*len as usize, rest),
        None => Err(cut()),
    }
}

/// The length of a value, which has a limit.
#[tactic(auto, unfolding(crate::specs::Reading::value_length_from))]
fn value_length_at<'a>(bytes: &'a [u8]) -> Result<(u16, &'a [u8]), Fault<'a>>
    ensures { seen (λ x. (x.0, x.1.now)) result ≡ value_length_from bytes.now }
{
    let (len, rest) = u16_at(bytes)?;
    if len as usize > LONGEST_VALUE {
        return Err(Fault {
            kind: FaultKind::BadTag,
            rest: bytes,
        });
    }
    Ok((len, rest))
}

/// A value behind its length.
#[tactic(auto, unfolding(crate::specs::Reading::value_from))]
pub(crate) fn value_at<'a>(bytes: &'a [u8]) -> Result<(&'a [u8], &'a [u8]), Fault<'a>>
    ensures { seen (λ x. (x.0.now, x.1.now)) result ≡ value_from bytes.now }
{
    let (len, rest) = value_length_at(bytes)?;
    piece_at(len as usize, rest)
}

/// An outpoint: its txid, and its index of 4 bytes, low byte first.
#[tactic(auto, unfolding(crate::specs::Reading::point_from))]
pub fn point_at<'a>(bytes: &'a [u8]) -> Result<(OutPoint, &'a [u8]), Fault<'a>>
    ensures { seen (λ x. (x.0, x.1.now)) result ≡ point_from bytes.now }
{
    let (txid, rest) = hash_at(bytes)?;
    let (index, rest) = u32_at(rest)?;
    let point = OutPoint {
        txid: Hash32(txid),
        index,
    };
    Ok((point, rest))
}
