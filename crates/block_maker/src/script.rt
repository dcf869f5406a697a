//! Writes the script of a name operation.

ghost use Rattle.std.specs.Prelude.{◌≡◌, ◌+◌, ◌++◌, ◌≤◌, length, IfOk, OnOk};
ghost use Rattle.name_script.specs.NameScript.{IsNameScript};
ghost use Rattle.block_maker.specs.declared.operation.TheConstants.{LONGEST_PART};
ghost use Rattle.block_maker.specs.Script.{push_head, shortest_push, pushes_of, script_of, HasShortPushes};
ghost use Rattle.block_maker.specs.Seen.{operation_of, HasShortParts};

use crate::operation::MakeOp;
use nmc_base::{Bytes, NoMemory};
use std::alloc::Global;

/// The opcodes up to this one, OP_0 among them, push as many bytes as they say.
const LAST_DIRECT: usize = 0x4B;

const OP_PUSHDATA1: u8 = 0x4C;

const OP_PUSHDATA2: u8 = 0x4D;

const OP_1: u8 = 0x51;

/// OP_1.
const OP_NAME_NEW: u8 = 0x51;

/// OP_2.
const OP_NAME_FIRSTUPDATE: u8 = 0x52;

/// OP_3.
const OP_NAME_UPDATE: u8 = 0x53;

const OP_2DROP: u8 = 0x6D;

/// Appends the opcode of the shortest push of so many bytes, and their number where the opcode doesn't say it.
#[tactic(auto, unfolding(crate::specs::Script::push_head))]
fn push_head_to(script: &mut Bytes, count: u16) -> Result<(), NoMemory>
    ensures head { OnOk result (script.new ≡ script.old ++ push_head count) }
    ensures short { OnOk result (length script.new ≤ length script.old + 3) }
{
    if usize::from(count) <= LAST_DIRECT {
        return script.extend(&[count as u8]);
    }
    if count < 0x100 {
        return script.extend(&[OP_PUSHDATA1, count as u8]);
    }
    script.extend(&[OP_PUSHDATA2])?;
    script.extend(&count.to_le_bytes())
}

/// Appends the shortest push of a value.
fn push_to(script: &mut Bytes, value: &[u8]) -> Result<(), NoMemory>
    requires { length value.now ≤ LONGEST_PART }
    ensures push { OnOk result (script.new ≡ script.old ++ shortest_push value.now) }
    ensures short { OnOk result (length script.new ≤ length script.old + length value.now + 3) }
{
    push_head_to(script, value.len() as u16)?;
    script.extend(value)
}

/// The opcode and the pushes of an operation.
fn pushes_in(alloc: Global, op: &MakeOp<'_>) -> Result<Bytes, NoMemory>
    requires { HasShortParts op.now }
    ensures pushes { IfOk result (λ script. script ≡ pushes_of (operation_of op.now)) }
    ensures short { IfOk result (λ script. length script ≤ 196615) }
    ensures parts { IfOk result (λ _. HasShortPushes (operation_of op.now)) }
{
    let mut script = Bytes::new(alloc);
    match op {
        MakeOp::New { hash } => {
            script.extend(&[OP_NAME_NEW])?;
            push_to(&mut script, &hash.0)?;
        }
        MakeOp::First {
            name,
            rand,
            value,
            ..
        } => {
            script.extend(&[OP_NAME_FIRSTUPDATE])?;
            push_to(&mut script, name)?;
            push_to(&mut script, rand)?;
            push_to(&mut script, value)?;
        }
        MakeOp::Update { name, value, .. } => {
            script.extend(&[OP_NAME_UPDATE])?;
            push_to(&mut script, name)?;
            push_to(&mut script, value)?;
        }
    }
    Ok(script)
}

/// The script of an operation.
#[tactic(auto, unfolding(crate::specs::Script::script_of))]
pub(crate) fn script_in(alloc: Global, op: &MakeOp<'_>) -> Result<Bytes, NoMemory>
    requires { HasShortParts op.now }
    ensures script { IfOk result (λ script. script ≡ script_of (operation_of op.now)) }
    ensures short { IfOk result (λ script. length script ≤ 196617) }
    ensures name { IfOk result (λ script. IsNameScript script (operation_of op.now)) }
{
    let mut script = pushes_in(alloc, op)?;
    script.extend(&[OP_2DROP, OP_1])?;
    Ok(script)
}
