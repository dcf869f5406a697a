//! The operation of a name script.

ghost use Rattle.std.specs.Prelude.{◌≡◌, ◌↔◌, Some, IsNone};
ghost use Rattle.std.specs.Option.{option_map};
ghost use Rattle.name_script.specs.NameScript.{NameOperation, IsNameScript};
ghost use Rattle.name_script.specs.Reading.{new_at, firstupdate_at, update_at, name_op};
ghost use Rattle.name_script.specs.Seen.{seen_operation};

use crate::push::{ends_pushes, push_of};

/// OP_1.
const OP_NAME_NEW: u8 = 0x51;
/// OP_2.
const OP_NAME_FIRSTUPDATE: u8 = 0x52;
/// OP_3.
const OP_NAME_UPDATE: u8 = 0x53;

/// What a name script does (Namecoin's CNameScript). The fields are slices of the script, of any lengths.
#[derive(Clone, Copy, PartialEq, Eq, Debug)]
pub enum NameOp<'a> {
    /// Commits to a name, by the hash of a salt and the name.
    New {
        hash: &'a [u8],
    },
    /// Opens a name that was committed to, with the salt of that hash, and gives the name its first value.
    First {
        name: &'a [u8],
        rand: &'a [u8],
        value: &'a [u8],
    },
    /// Gives a name a new value.
    Update {
        name: &'a [u8],
        value: &'a [u8],
    },
}

fn new_of(script: &[u8]) -> Option<NameOp<'_>>
    ensures { option_map seen_operation result ≡ new_at script.now }
{
    let (hash, rest) = push_of(script)?;
    if !ends_pushes(rest) {
        return None;
    }
    Some(NameOp::New { hash })
}

fn first_of(script: &[u8]) -> Option<NameOp<'_>>
    ensures { option_map seen_operation result ≡ firstupdate_at script.now }
{
    let (name, rest) = push_of(script)?;
    let (rand, rest) = push_of(rest)?;
    let (value, rest) = push_of(rest)?;
    if !ends_pushes(rest) {
        return None;
    }
    Some(NameOp::First { name, rand, value })
}

fn update_of(script: &[u8]) -> Option<NameOp<'_>>
    ensures { option_map seen_operation result ≡ update_at script.now }
{
    let (name, rest) = push_of(script)?;
    let (value, rest) = push_of(rest)?;
    if !ends_pushes(rest) {
        return None;
    }
    Some(NameOp::Update { name, value })
}

#[tactic(auto, unfolding(crate::specs::Reading::name_op))]
fn operation_of(script: &[u8]) -> Option<NameOp<'_>>
    ensures { option_map seen_operation result ≡ name_op script.now }
{
    let (opcode, rest) = script.split_first()?;
    match *opcode {
        OP_NAME_NEW => new_of(rest),
        OP_NAME_FIRSTUPDATE => first_of(rest),
        OP_NAME_UPDATE => update_of(rest),
        _ => None,
    }
}

/// The operation of a name script: an opcode, as many whole pushes as the operation takes, a drop, and then
/// anything. Pushes need not be of the shortest form. Any other script is none, also one whose last push is cut.
pub fn read_name<'a>(script: &'a [u8]) -> Option<NameOp<'a>>
    // An operation is read exactly where the script is that operation's.
    ensures some { (operation : NameOperation)
        → (option_map seen_operation result ≡ Some operation) ↔ IsNameScript script.now operation }
    ensures none { IsNone result ↔ ((operation : NameOperation) → ¬ (IsNameScript script.now operation)) }
    // The same, by the reader on lists.
    ensures exact { option_map seen_operation result ≡ name_op script.now }
{
    operation_of(script)
}
