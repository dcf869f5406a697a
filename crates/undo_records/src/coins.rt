//! The readers of coins and items.

ghost use Rattle.std.specs.Prelude.{◌≡◌};
ghost use Rattle.undo_records.specs.Reading.{new_coin_from, named_coin_from, registered_from, item_from, before_from};
ghost use Rattle.undo_records.specs.Fields.{seen, seen_coin, seen_item, seen_before};

use crate::fault::{Fault, FaultKind, cut};
use crate::fields::{digest_at, name_at, point_at, u32_at, value_at};
use crate::found::{FoundCoin, FoundItem};
use crate::version::Version;
use nmc_base::Hash20;

/// The tag of a commitment's coin.
pub const NEW: u8 = 1;

/// The tag of a name's coin.
pub const NAMED: u8 = 2;

/// The byte of an operation that has an item before it.
pub(crate) const SOME_BEFORE: u8 = 1;

/// The byte of an operation that has none.
pub(crate) const NONE_BEFORE: u8 = 0;

/// A tag that isn't allowed stands at the front of these bytes.
pub fn bad_tag<'a>(rest: &'a [u8]) -> Fault<'a>
    ensures kind { result.kind ≡ FaultKind.BadTag }
    ensures rest { result.rest.now ≡ rest.entry.now }
{
    Fault {
        kind: FaultKind::BadTag,
        rest,
    }
}

/// The coin of a commitment: its tag, its height and its hash. A tag other than `NEW` is a fault at the tag.
#[tactic(auto, unfolding(crate::specs::Reading::new_coin_from))]
pub fn new_coin_at<'a>(bytes: &'a [u8]) -> Result<(FoundCoin<'a>, &'a [u8]), Fault<'a>>
    ensures { seen (λ x. (seen_coin x.0, x.1.now)) result ≡ new_coin_from bytes.now }
{
    let Some((tag, rest)) = bytes.split_first() else {
        return Err(cut());
    };
    if *tag != NEW {
        return Err(bad_tag(bytes));
    }
    let (height, rest) = u32_at(rest)?;
    let (digest, rest) = digest_at(rest)?;
    let hash = Hash20(digest);
    Ok((FoundCoin::New { hash, height }, rest))
}

/// The coin of a name: its tag, its height, and the name behind its length. A tag other than `NAMED` is a fault at the tag.
#[tactic(auto, unfolding(crate::specs::Reading::named_coin_from))]
pub fn named_coin_at<'a>(bytes: &'a [u8]) -> Result<(FoundCoin<'a>, &'a [u8]), Fault<'a>>
    ensures { seen (λ x. (seen_coin x.0, x.1.now)) result ≡ named_coin_from bytes.now }
{
    let Some((tag, rest)) = bytes.split_first() else {
        return Err(cut());
    };
    if *tag != NAMED {
        return Err(bad_tag(bytes));
    }
    let (height, rest) = u32_at(rest)?;
    let (name, rest) = name_at(rest)?;
    Ok((FoundCoin::Named { name, height }, rest))
}

/// A registration height, which version 1 leaves out.
fn registered_at<'a>(version: Version, bytes: &'a [u8]) -> Result<(u32, &'a [u8]), Fault<'a>>
    ensures { seen (λ x. (x.0, x.1.now)) result ≡ registered_from version bytes.now }
{
    match version {
        Version::One => Ok((0, bytes)),
        Version::Two => u32_at(bytes),
    }
}

/// An item of a history: its height, in version 2 its registration height, its outpoint, and its value behind its length.
#[tactic(auto, unfolding(crate::specs::Reading::item_from))]
pub fn item_at<'a>(
    version: Version,
    bytes: &'a [u8],
) -> Result<(FoundItem<'a>, &'a [u8]), Fault<'a>>
    ensures { seen (λ x. (seen_item x.0, x.1.now)) result ≡ item_from version bytes.now }
{
    let (height, rest) = u32_at(bytes)?;
    let (registered, rest) = registered_at(version, rest)?;
    let (at, rest) = point_at(rest)?;
    let (value, rest) = value_at(rest)?;
    let item = FoundItem {
        height,
        registered,
        at,
        value,
    };
    Ok((item, rest))
}

/// The item before, if there was one.
#[tactic(auto, unfolding(crate::specs::Reading::before_from))]
pub(crate) fn before_at<'a>(
    version: Version,
    bytes: &'a [u8],
) -> Result<(Option<FoundItem<'a>>, &'a [u8]), Fault<'a>>
    ensures { seen (λ x. (seen_before x.0, x.1.now)) result ≡ before_from version bytes.now }
{
    let Some((first, rest)) = bytes.split_first() else {
        return Err(cut());
    };
    if *first == NONE_BEFORE {
        return Ok((None, rest));
    }
    if *first != SOME_BEFORE {
        return Err(bad_tag(bytes));
    }
    let (item, rest) = item_at(version, rest)?;
    Ok((Some(item), rest))
}
