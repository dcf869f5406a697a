//! Shapes that elements of several items share.

ghost use Rattle.std.specs.Prelude.{◌≡◌, ◌≤◌, Some, None, IfOk, IfSome};
ghost use Rattle.std.specs.Option.{option_map};
ghost use Rattle.serde_json.specs.View.{view};
ghost use Rattle.ifa_value.specs.Shapes.{whole as whole_of, digest as digest_of, host as host_of, two as two_of, three as three_of, four as four_of};

use base64::DecodeAllocError;
use base64::engine::general_purpose::STANDARD;
use domain_text::read_host;
use nmc_base::{Bytes, NoMemory};
use serde_json::Value;
use std::alloc::Global;

/// A whole number up to the greatest.
fn whole(value: &Value, greatest: u64) -> Option<u64>
    ensures value { result ≡ whole_of greatest (view value.now) }
    ensures bound { IfSome result (λ n. n ≤ greatest) }
{
    let number = value.as_u64()?;
    if number <= greatest {
        Some(number)
    } else {
        None
    }
}

/// A whole number of 16 bits.
pub(crate) fn whole16(value: &Value) -> Option<u16>
    ensures { result ≡ whole_of 65535 (view value.now) }
{
    let number = whole(value, 65535)?;
    Some(number as u16)
}

/// A whole number of 8 bits.
pub(crate) fn whole8(value: &Value) -> Option<u8>
    ensures { result ≡ whole_of 255 (view value.now) }
{
    let number = whole(value, 255)?;
    Some(number as u8)
}

/// The bytes of padded base64 text, at least one.
pub(crate) fn digest(alloc: Global, value: &Value) -> Result<Option<Bytes>, NoMemory>
    ensures { IfOk result (λ d. d ≡ digest_of (view value.now)) }
{
    let Some(text) = value.as_str() else {
        return Ok(None);
    };
    let decoded = match STANDARD.decode(alloc, text.as_bytes()) {
        Ok(decoded) => decoded,
        Err(DecodeAllocError::DecodeError(_)) => return Ok(None),
        Err(DecodeAllocError::OutOfMemory) => return Err(NoMemory),
    };
    match decoded.as_slice() {
        [] => Ok(None),
        digest => Ok(Some(Bytes::copy_of(alloc, digest)?)),
    }
}

/// A host text.
pub(crate) fn host(alloc: Global, value: &Value) -> Result<Option<Bytes>, NoMemory>
    ensures { IfOk result (λ h. h ≡ host_of (view value.now)) }
{
    let Some(text) = value.as_str() else {
        return Ok(None);
    };
    match read_host(text.as_bytes()) {
        Some(_) => Ok(Some(Bytes::copy_of(alloc, text.as_bytes())?)),
        None => Ok(None),
    }
}

/// The members of a list of exactly two.
pub(crate) fn two(value: &Value) -> Option<(&Value, &Value)>
    ensures { option_map (λ p. (view p.0.now, view p.1.now)) result ≡ two_of (view value.now) }
{
    let first = value.get(0usize)?;
    let second = value.get(1usize)?;
    if value.get(2usize).is_some() {
        return None;
    }
    Some((first, second))
}

/// The members of a list of exactly three.
pub(crate) fn three(value: &Value) -> Option<(&Value, &Value, &Value)>
    ensures { option_map (λ p. (view p.0.now, view p.1.now, view p.2.now)) result ≡ three_of (view value.now) }
{
    let first = value.get(0usize)?;
    let second = value.get(1usize)?;
    let third = value.get(2usize)?;
    if value.get(3usize).is_some() {
        return None;
    }
    Some((first, second, third))
}

/// The members of a list of exactly four.
pub(crate) fn four(value: &Value) -> Option<(&Value, &Value, &Value, &Value)>
    ensures { option_map (λ p. (view p.0.now, view p.1.now, view p.2.now, view p.3.now)) result ≡ four_of (view value.now) }
{
    let first = value.get(0usize)?;
    let second = value.get(1usize)?;
    let third = value.get(2usize)?;
    let fourth = value.get(3usize)?;
    if value.get(4usize).is_some() {
        return None;
    }
    Some((first, second, third, fourth))
}
