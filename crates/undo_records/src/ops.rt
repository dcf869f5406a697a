//! The readers of operations.

ghost use Rattle.std.specs.Prelude.{◌≡◌};
ghost use Rattle.block_grammar.specs.Combinators.{map_from};
ghost use Rattle.chain_names.specs.declared.undo.UndoOp.TheVariants.{New as op_new};
ghost use Rattle.undo_records.specs.Reading.{point_from, change_from, op_from};
ghost use Rattle.undo_records.specs.Fields.{seen, seen_coin, seen_op, op_of, spent_from};

use crate::coins::{bad_tag, before_at, named_coin_at, new_coin_at};
use crate::fault::{Fault, cut};
use crate::fields::{name_at, point_at};
use crate::found::{ChangeKind, FoundChange, FoundCoin, FoundOp};
use crate::version::Version;

/// The tag of a commitment (OP_NAME_NEW).
pub const MADE: u8 = 0x51;

/// The tag of a first change (OP_NAME_FIRSTUPDATE).
pub const FIRST: u8 = 0x52;

/// The tag of an update (OP_NAME_UPDATE).
pub const UPDATE: u8 = 0x53;

/// The coin that a change of this kind spends.
fn spent_coin_at<'a>(
    kind: ChangeKind,
    bytes: &'a [u8],
) -> Result<(FoundCoin<'a>, &'a [u8]), Fault<'a>>
    ensures { seen (λ x. (seen_coin x.0, x.1.now)) result ≡ spent_from kind bytes.now }
{
    match kind {
        ChangeKind::First => new_coin_at(bytes),
        ChangeKind::Update => named_coin_at(bytes),
    }
}

/// A change of this kind, behind its tag.
#[tactic(auto, unfolding(crate::specs::Reading::change_from))]
fn change_at<'a>(
    version: Version,
    kind: ChangeKind,
    bytes: &'a [u8],
) -> Result<(FoundOp<'a>, &'a [u8]), Fault<'a>>
    ensures { seen (λ x. (seen_op x.0, x.1.now)) result ≡ map_from (op_of kind) (change_from version (spent_from kind)) bytes.now }
{
    let (made, rest) = point_at(bytes)?;
    let (spent, rest) = point_at(rest)?;
    let (coin, rest) = spent_coin_at(kind, rest)?;
    let (name, rest) = name_at(rest)?;
    let (before, rest) = before_at(version, rest)?;
    let change = FoundChange {
        made,
        spent,
        coin,
        name,
        before,
    };
    Ok((FoundOp::Change(kind, change), rest))
}

/// A commitment that is made, behind its tag.
fn made_at<'a>(bytes: &'a [u8]) -> Result<(FoundOp<'a>, &'a [u8]), Fault<'a>>
    ensures { seen (λ x. (seen_op x.0, x.1.now)) result ≡ map_from (λ point. op_new point) point_from bytes.now }
{
    let (made, rest) = point_at(bytes)?;
    Ok((FoundOp::New { made }, rest))
}

/// An operation, behind its tag. A tag other than `MADE`, `FIRST` or `UPDATE` is a fault at the tag.
#[tactic(auto, unfolding(crate::specs::Reading::op_from))]
pub fn op_at<'a>(version: Version, bytes: &'a [u8]) -> Result<(FoundOp<'a>, &'a [u8]), Fault<'a>>
    ensures { seen (λ x. (seen_op x.0, x.1.now)) result ≡ op_from version bytes.now }
{
    let Some((tag, rest)) = bytes.split_first() else {
        return Err(cut());
    };
    if *tag == MADE {
        return made_at(rest);
    }
    if *tag == FIRST {
        return change_at(version, ChangeKind::First, rest);
    }
    if *tag == UPDATE {
        return change_at(version, ChangeKind::Update, rest);
    }
    Err(bad_tag(bytes))
}
