//! Reads a record, in either version.

ghost use Rattle.std.specs.Prelude.{◌≡◌, ◌++◌, List, ℕ, length, IfOk, IfErr};
ghost use Rattle.chain_names.specs.Undo.{UndoRecord};
ghost use Rattle.chain_names.specs.Seen.{seen_undo};
ghost use Rattle.chain_names.specs.Limits.{IsWithinLimits};
ghost use Rattle.chain_names.specs.Writable.{IsWritable};
ghost use Rattle.undo_records.specs.declared.version.Version.TheVariants.{One, Two};
ghost use Rattle.undo_records.specs.Versions.{without_heights};
ghost use Rattle.undo_records.specs.Reading.{undo_from};
ghost use Rattle.undo_records.specs.Fields.{Gives};
ghost use Rattle.undo_records.specs.Text.{undo_text};
ghost use Rattle.undo_records.specs.Faults.{BeginsWith, HasFault};
ghost use Rattle.undo_records.specs.Answers.{placed_fault, seen_v1, GivesUndo, IsCausedBy, AnswersUndo, AnswersFault};

use crate::fault::{FaultKind, Stop, UndoFault};
use crate::fields::hash_at;
use crate::lists::lists_at;
use crate::version::Version;
use chain_names::Undo;
use nmc_base::{Hash32, RoomyList};
use std::alloc::Global;

/// A record whose items have no registration height: those of its field say nothing.
#[derive(Drop)]
pub struct UndoV1 {
    pub undo: Undo,
}

/// The record at the front, of a text of this version, and the bytes after it.
#[tactic(auto, unfolding(crate::specs::Reading::undo_from))]
pub fn undo_at<'a>(
    alloc: Global,
    version: Version,
    bytes: &'a [u8],
) -> Result<(Undo, &'a [u8]), Stop<'a>>
    ensures { Gives (λ x. (seen_undo x.0, x.1.now)) result (undo_from version bytes.now) }
{
    let (block, rest) = hash_at(bytes)?;
    let mut ops = RoomyList::new(alloc);
    let mut expired = RoomyList::new(alloc);
    let rest = lists_at(alloc, version, &mut ops, &mut expired, rest)?;
    let undo = Undo {
        block: Hash32(block),
        ops,
        expired,
    };
    Ok((undo, rest))
}

/// The fault of a kind at a place.
fn placed_fault(kind: FaultKind, at: usize) -> UndoFault
    ensures { result ≡ placed_fault kind at }
{
    match kind {
        FaultKind::Cut => UndoFault::Cut { at },
        FaultKind::BadTag => UndoFault::BadTag { at },
        FaultKind::Unsorted => UndoFault::Unsorted { at },
    }
}

/// The record at the front with its length, or the fault with its place.
fn read_exactly(alloc: Global, version: Version, bytes: &[u8]) -> Result<(Undo, usize), UndoFault>
    ensures { GivesUndo seen_undo version bytes.now result }
{
    match undo_at(alloc, version, bytes) {
        Ok((undo, rest)) => Ok((undo, bytes.len() - rest.len())),
        Err(Stop::At(fault)) => Err(placed_fault(fault.kind, bytes.len() - fault.rest.len())),
        Err(Stop::NoMemory) => Err(UndoFault::NoMemory),
    }
}

/// The same of version 1, in whose record the registration heights say nothing.
fn exactly_v1(alloc: Global, bytes: &[u8]) -> Result<(UndoV1, usize), UndoFault>
    ensures { GivesUndo seen_v1 One bytes.now result }
{
    let (undo, len) = read_exactly(alloc, Version::One, bytes)?;
    Ok((UndoV1 { undo }, len))
}

/// Reads the record at the front, of a text of version 2, and says how many bytes its text has. Bytes may follow it.
///
/// Reading stops at the first fault. Want of memory may stand in the place of every answer. The memory that it takes
/// goes by the bytes that are read, and not by a number that stands in them.
pub fn read(alloc: Global, bytes: &[u8]) -> Result<(Undo, usize), UndoFault>
    // What is read stands at the front, and can be written.
    ensures read { IfOk result (λ x. BeginsWith Two bytes.now (seen_undo x.0) x.1) }
    ensures within { IfOk result (λ x. IsWithinLimits (seen_undo x.0)) }
    // What can be written and stands at the front is read.
    ensures only { (undo : UndoRecord) (more : List ℕ) → IsWritable undo → bytes.now ≡ undo_text Two undo ++ more → AnswersUndo seen_undo undo (length (undo_text Two undo)) result }
    // Each fault has its cause, and each cause its fault.
    ensures wrong { IfErr result (IsCausedBy (HasFault Two bytes.now)) }
    ensures only_wrong { (fault : UndoFault) → HasFault Two bytes.now fault → AnswersFault fault result }
    // The same, by the reader on lists.
    ensures exact { GivesUndo seen_undo Two bytes.now result }
{
    read_exactly(alloc, Version::Two, bytes)
}

/// The same of a text of version 1, in which items have no registration height. Each registration height of the record's
/// field is 0.
pub fn read_v1(alloc: Global, bytes: &[u8]) -> Result<(UndoV1, usize), UndoFault>
    // What is read stands at the front, each of its registration heights is 0, and it can be written.
    ensures read { IfOk result (λ x. BeginsWith One bytes.now (seen_v1 x.0) x.1) }
    ensures within { IfOk result (λ x. IsWithinLimits (seen_v1 x.0)) }
    // What can be written and stands at the front is read, without its registration heights.
    ensures only { (undo : UndoRecord) (more : List ℕ) → IsWritable undo → bytes.now ≡ undo_text One undo ++ more → AnswersUndo seen_v1 (without_heights undo) (length (undo_text One undo)) result }
    // Each fault has its cause, and each cause its fault.
    ensures wrong { IfErr result (IsCausedBy (HasFault One bytes.now)) }
    ensures only_wrong { (fault : UndoFault) → HasFault One bytes.now fault → AnswersFault fault result }
    // The same, by the reader on lists.
    ensures exact { GivesUndo seen_v1 One bytes.now result }
{
    exactly_v1(alloc, bytes)
}
