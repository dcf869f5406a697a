//! The readers of the fields of a make that no other text has so.

ghost use Rattle.std.specs.Prelude.{◌≡◌};
ghost use Rattle.undo_records.specs.Fields.{seen};
ghost use Rattle.undo_records.specs.Reading.{piece_from, value_length_from, value_from};

use nmc_base::LONGEST_VALUE;
use undo_records::coins::bad_tag;
use undo_records::fault::{Fault, cut};

/// 20 bytes: a commitment.
pub(crate) fn digest_at<'a>(bytes: &'a [u8]) -> Result<([u8; 20], &'a [u8]), Fault<'a>>
    ensures { seen (λ x. (x.0, x.1.now)) result ≡ piece_from 20 bytes.now }
{
    match bytes.split_first_chunk() {
        Some((digest, rest)) => Ok((*digest, rest)),
        None => Err(cut()),
    }
}

/// The length of a value, 2 bytes with the low byte first, which has a limit.
#[tactic(auto, unfolding(undo_records::specs::Reading::value_length_from))]
fn value_length_at<'a>(bytes: &'a [u8]) -> Result<(u16, &'a [u8]), Fault<'a>>
    ensures { seen (λ x. (x.0, x.1.now)) result ≡ value_length_from bytes.now }
{
    let Some((number, rest)) = bytes.split_first_chunk() else {
        return Err(cut());
    };
    let len = u16::from_le_bytes(*number);
    if len as usize > LONGEST_VALUE {
        return Err(bad_tag(bytes));
    }
    Ok((len, rest))
}

/// A value behind its length.
#[tactic(auto, unfolding(undo_records::specs::Reading::value_from))]
pub(crate) fn value_at<'a>(bytes: &'a [u8]) -> Result<(&'a [u8], &'a [u8]), Fault<'a>>
    ensures { seen (λ x. (x.0.now, x.1.now)) result ≡ value_from bytes.now }
{
    let (len, rest) = value_length_at(bytes)?;
    match rest.split_at_checked(len as usize) {
        Some((value, rest)) => Ok((value, rest)),
        None => Err(cut()),
    }
}
