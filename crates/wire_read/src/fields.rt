//! Reads the field at the front of bytes.

ghost use Rattle.std.specs.Prelude.{◌≡◌, ◌-◌, ◌≤◌, length, take};
ghost use Rattle.std.specs.Int.{w32, w64};
ghost use Rattle.block_grammar.specs.Combinators.{nonzero_from};
ghost use Rattle.block_grammar.specs.Reading.{number_from, piece_from, size_from, counted_from};
ghost use Rattle.wire_read.specs.Seen.{seen};

use crate::cursor::{Cursor, WireFault};
use crate::fault::{Fault, cut};
use block_grammar::TxKind;

/// A number of 4 bytes, low byte first.
pub fn u32_at<'a>(bytes: &'a [u8]) -> Result<(u32, &'a [u8]), Fault<'a>>
    ensures { seen (λ x. (x.0, x.1.now)) result ≡ number_from w32 bytes.now }
{
    match bytes.split_first_chunk() {
        Some((number, rest)) => Ok((u32::from_le_bytes(*number), rest)),
        None => Err(cut()),
    }
}

/// A number of 8 bytes, low byte first.
pub fn u64_at<'a>(bytes: &'a [u8]) -> Result<(u64, &'a [u8]), Fault<'a>>
    ensures { seen (λ x. (x.0, x.1.now)) result ≡ number_from w64 bytes.now }
{
    match bytes.split_first_chunk() {
        Some((number, rest)) => Ok((u64::from_le_bytes(*number), rest)),
        None => Err(cut()),
    }
}

/// A hash: 32 bytes.
pub fn hash_at<'a>(bytes: &'a [u8]) -> Result<([u8; 32], &'a [u8]), Fault<'a>>
    ensures { seen (λ x. (x.0, x.1.now)) result ≡ piece_from 32 bytes.now }
{
    match bytes.split_first_chunk() {
        Some((hash, rest)) => Ok((*hash, rest)),
        None => Err(cut()),
    }
}

/// A compact size, of the shortest form alone.
pub fn size_at<'a>(bytes: &'a [u8]) -> Result<(u64, &'a [u8]), Fault<'a>>
    ensures { seen (λ x. (x.0, x.1.now)) result ≡ size_from bytes.now }
{
    let mut cursor = Cursor::new(bytes);
    match cursor.size() {
        Ok(number) => Ok((number, bytes.split_at(cursor.at()).1)),
        Err(WireFault::Cut { .. }) => Err(cut()),
        Err(WireFault::LongForm { at }) => {
            let rest = bytes.split_at(at).1;
            Err(Fault {
                kind: TxKind::LongForm,
                rest,
            })
        }
    }
}

/// A compact size that isn't 0. Where it is, the fault is of this kind.
pub fn some_size_at<'a>(kind: TxKind, bytes: &'a [u8]) -> Result<(u64, &'a [u8]), Fault<'a>>
    ensures { seen (λ x. (x.0, x.1.now)) result ≡ nonzero_from kind size_from bytes.now }
{
    if let Some(0) = bytes.first() {
        return Err(Fault { kind, rest: bytes });
    }
    size_at(bytes)
}

/// Bytes behind their number.
#[tactic(auto, unfolding(block_grammar::specs::Reading::counted_from))]
pub fn counted_at<'a>(bytes: &'a [u8]) -> Result<(&'a [u8], &'a [u8]), Fault<'a>>
    ensures { seen (λ x. (x.0.now, x.1.now)) result ≡ counted_from bytes.now }
{
    let (len, rest) = size_at(bytes)?;
    match rest.split_at_checked(len as usize) {
        Some((piece, after)) => Ok((piece, after)),
        None => Err(cut()),
    }
}

/// The bytes before the last ones.
pub fn before<'a>(bytes: &'a [u8], rest: &[u8]) -> &'a [u8]
    requires { length rest.now ≤ length bytes.now }
    ensures { result.now ≡ take (length bytes.now - length rest.now) bytes.now }
{
    bytes.split_at(bytes.len() - rest.len()).0
}
