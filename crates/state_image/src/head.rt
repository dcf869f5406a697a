//! The readers of the head of an image.

ghost use Rattle.std.specs.Prelude.{◌≡◌};
ghost use Rattle.nmc_base.specs.declared.chain_ends.Base.{Base};
ghost use Rattle.undo_records.specs.Fields.{seen};
ghost use Rattle.image_grammar.specs.Reading.{first_other, exactly_from, version_from, profile_from, head_from};
ghost use Rattle.image_grammar.specs.Stages.{opening_from};
ghost use Rattle.image_grammar.specs.Text.{magic};

use nmc_base::{Base, Hash32, Profile};
use undo_records::Version;
use undo_records::coins::bad_tag;
use undo_records::fault::{Fault, cut};
use undo_records::fields::{hash_at, u32_at};

/// An image begins with these bytes.
const MAGIC: [u8; 4] = *b"NMCI";

/// The bytes from the first one on that differs from what is wanted, or none.
fn first_other<'a>(want: &[u8], bytes: &'a [u8]) -> &'a [u8]
    ensures { result.now ≡ first_other want.entry.now bytes.entry.now }
{
    let mut wanted = want;
    let mut rest = bytes;
    while let [byte, more @ ..] = wanted {
        let Some((first, behind)) = rest.split_first() else {
            return &[];
        };
        if *first != *byte {
            return rest;
        }
        wanted = more;
        rest = behind;
    }
    &[]
}

/// Bytes that must be these: the first that differs is the fault's place.
fn exactly_at<'a>(want: &[u8], bytes: &'a [u8]) -> Result<(&'a [u8], &'a [u8]), Fault<'a>>
    ensures { seen (λ x. (x.0.now, x.1.now)) result ≡ exactly_from want.entry.now bytes.entry.now }
{
    let Some((piece, rest)) = bytes.split_at_checked(want.len()) else {
        return Err(cut());
    };
    let other = first_other(want, bytes);
    match other {
        [] => Ok((piece, rest)),
        [_, ..] => Err(bad_tag(other)),
    }
}

/// The version of the text. A byte of no version is a fault.
fn version_at<'a>(bytes: &'a [u8]) -> Result<(Version, &'a [u8]), Fault<'a>>
    ensures { seen (λ x. (x.0, x.1.now)) result ≡ version_from bytes.now }
{
    let Some((byte, rest)) = bytes.split_first() else {
        return Err(cut());
    };
    match *byte {
        1 => Ok((Version::One, rest)),
        2 => Ok((Version::Two, rest)),
        _ => Err(bad_tag(bytes)),
    }
}

/// The profile of the base. A byte of no profile is a fault.
fn profile_at<'a>(bytes: &'a [u8]) -> Result<(Profile, &'a [u8]), Fault<'a>>
    ensures { seen (λ x. (x.0, x.1.now)) result ≡ profile_from bytes.now }
{
    let Some((byte, rest)) = bytes.split_first() else {
        return Err(cut());
    };
    match *byte {
        1 => Ok((Profile::Regtest, rest)),
        2 => Ok((Profile::Main, rest)),
        _ => Err(bad_tag(bytes)),
    }
}

/// The version and the base.
fn head_at<'a>(bytes: &'a [u8]) -> Result<(Version, Base, &'a [u8]), Fault<'a>>
    ensures { seen (λ x. ((x.0, x.1), x.2.now)) result ≡ head_from bytes.now }
{
    let (_, rest) = exactly_at(&MAGIC, bytes)?;
    let (version, rest) = version_at(rest)?;
    let (profile, rest) = profile_at(rest)?;
    let (height, rest) = u32_at(rest)?;
    let (hash, rest) = hash_at(rest)?;
    let base = Base {
        profile,
        height,
        hash: Hash32(hash),
    };
    Ok((version, base, rest))
}

/// The version, the base, and the number of records.
pub(crate) fn opening_at<'a>(bytes: &'a [u8]) -> Result<(Version, Base, u32, &'a [u8]), Fault<'a>>
    ensures { seen (λ x. (((x.0, x.1), x.2), x.3.now)) result ≡ opening_from bytes.now }
{
    let (version, base, rest) = head_at(bytes)?;
    let (undos, rest) = u32_at(rest)?;
    Ok((version, base, undos, rest))
}
