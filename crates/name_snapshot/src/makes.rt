//! The reader of a make, and whether it may stand behind those before it.

ghost use Rattle.std.specs.Prelude.{◌≡◌, ◌<◌, ◌≤◌};
ghost use Rattle.chain_names.specs.Tables.{names_in};
ghost use Rattle.nmc_base.specs.Heights.{highest};
ghost use Rattle.undo_records.specs.Fields.{seen};
ghost use Rattle.undo_records.specs.Reading.{is_after};
ghost use Rattle.name_snapshot.specs.Fields.{seen_told, seen_make};
ghost use Rattle.name_snapshot.specs.Reading.{commitment_from, given_from, told_from, make_from, is_none, may_give, may_stand, next_by};

use crate::found::{FoundMake, FoundTold};
use crate::values::{digest_at, value_at};
use name_table::Table;
use nmc_base::{Base, Hash20, OutPoint, Steps};
use std::cmp::Ordering;
use std::marker::Brand;
use std::sync::ledger::{Blank, Ledger};
use undo_records::coins::bad_tag;
use undo_records::fault::{Fault, cut};
use undo_records::fields::{name_at, point_at, u32_at};

/// The tag of a commitment, OP_1 (Namecoin's OP_NAME_NEW).
const NEW: u8 = 0x51;

/// The tag of a name's value, OP_3 (Namecoin's OP_NAME_UPDATE).
const UPDATE: u8 = 0x53;

/// The height of a commitment, and the commitment.
fn commitment_at<'a>(bytes: &'a [u8]) -> Result<(u32, FoundTold<'a>, &'a [u8]), Fault<'a>>
    ensures { seen (λ x. ((x.0, seen_told x.1), x.2.now)) result ≡ commitment_from bytes.now }
{
    let (height, rest) = u32_at(bytes)?;
    let (digest, rest) = digest_at(rest)?;
    let hash = Hash20(digest);
    Ok((height, FoundTold::Commitment { hash }, rest))
}

/// The height of a value, its name and the value.
fn given_at<'a>(bytes: &'a [u8]) -> Result<(u32, FoundTold<'a>, &'a [u8]), Fault<'a>>
    ensures { seen (λ x. ((x.0, seen_told x.1), x.2.now)) result ≡ given_from bytes.now }
{
    let (height, rest) = u32_at(bytes)?;
    let (name, rest) = name_at(rest)?;
    let (value, rest) = value_at(rest)?;
    Ok((height, FoundTold::Value { name, bytes: value }, rest))
}

/// The height and what the make leaves, behind its tag.
fn told_at<'a>(bytes: &'a [u8]) -> Result<(u32, FoundTold<'a>, &'a [u8]), Fault<'a>>
    ensures { seen (λ x. ((x.0, seen_told x.1), x.2.now)) result ≡ told_from bytes.now }
{
    let Some((tag, rest)) = bytes.split_first() else {
        return Err(cut());
    };
    match *tag {
        NEW => commitment_at(rest),
        UPDATE => given_at(rest),
        _ => Err(bad_tag(bytes)),
    }
}

/// A make: its outpoint, and the rest.
fn make_at<'a>(bytes: &'a [u8]) -> Result<(FoundMake<'a>, &'a [u8]), Fault<'a>>
    ensures { seen (λ x. (seen_make x.0, x.1.now)) result ≡ make_from bytes.now }
{
    let (at, rest) = point_at(bytes)?;
    let (height, told, rest) = told_at(rest)?;
    Ok((FoundMake { at, height, told }, rest))
}

/// Whether the outpoint is greater than the one before, if there is one.
fn is_after(last: Option<OutPoint>, point: &OutPoint) -> bool
    ensures { result ≡ is_after last point.now }
{
    match last {
        Some(before) => match before.order(point) {
            Ordering::Less => true,
            Ordering::Equal => false,
            Ordering::Greater => false,
        },
        None => true,
    }
}

/// Whether the name has no value yet. Nobody reads the step that it takes.
fn is_none<L: Ledger>(names: &Table, name: &[u8], blank: Blank) -> bool
    requires name { blank.name ≡ L.name }
    requires parts { blank.parts ≡ L.parts }
    requires some { 0 < blank.parts }
    ensures { result ≡ is_none (names_in names.now name.now) }
{
    let mut steps = Steps::<L>::new(blank);
    names.history(name, &mut steps).is_empty()
}

/// Whether what the make leaves isn't expired in the block after the base, and goes to a name that has no value yet.
fn may_give(base: &Base, names: &Table, height: u32, told: FoundTold<'_>) -> bool
    requires low { base.now.height ≤ highest }
    requires made { height ≤ base.now.height }
    ensures { result ≡ may_give base.now (names_in names.now) height (seen_told told.entry) }
{
    match told {
        FoundTold::Commitment { .. } => true,
        FoundTold::Value { name, .. } => {
            if base.profile.expired(height, base.height + 1) {
                return false;
            }
            is_none::<Brand>(names, name, Blank::new(1))
        }
    }
}

/// Whether the make may stand behind those before it.
fn may_stand(base: &Base, last: Option<OutPoint>, names: &Table, make: FoundMake<'_>) -> bool
    requires { base.now.height ≤ highest }
    ensures { result ≡ may_stand base.now last (names_in names.now) (seen_make make.entry) }
{
    if !is_after(last, &make.at) {
        return false;
    }
    if make.height > base.height {
        return false;
    }
    may_give(base, names, make.height, make.told)
}

/// A make that may stand behind those before it. One that may not is a fault at its first byte.
pub(crate) fn next_at<'a>(
    base: &Base,
    last: Option<OutPoint>,
    names: &Table,
    bytes: &'a [u8],
) -> Result<(FoundMake<'a>, &'a [u8]), Fault<'a>>
    requires { base.now.height ≤ highest }
    ensures { seen (λ x. (seen_make x.0, x.1.now)) result ≡ next_by base.now last (names_in names.now) bytes.now }
{
    let (make, rest) = make_at(bytes)?;
    if may_stand(base, last, names, make) {
        return Ok((make, rest));
    }
    Err(bad_tag(bytes))
}
