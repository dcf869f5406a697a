//! Writes transactions of one input and one output.

ghost use Rattle.std.specs.Prelude.{◌≡◌, ◌++◌, ◌<◌, ◌≤◌, ◌^◌, length, IfOk, OnOk};
ghost use Rattle.block_grammar.specs.Transaction.{input_text, output_text};
ghost use Rattle.block_maker.specs.Generated.{height_script, coinbase_at, name_transaction};
ghost use Rattle.block_maker.specs.Carried.{IsNameTransaction};
ghost use Rattle.block_maker.specs.Seen.{outpoint_spent, making_at, HasShortParts};
ghost use Rattle.block_maker.specs.Pieces.{seen_single, IsShortTransaction};

use crate::fields::counted_to;
use crate::operation::MakeOp;
use crate::script::script_in;
use nmc_base::{Bytes, Hash32, NAME_VERSION, NoMemory, OutPoint};
use std::alloc::Global;

/// What the output of a name operation holds, in units.
const NAME_AMOUNT: u64 = 1_000_000;

/// The sequence number of an input that waits for nothing.
const FINAL: u32 = 0xFFFF_FFFF;

const OP_1: u8 = 0x51;

/// A transaction without witness, of one input and one output.
#[derive(Clone, Copy, Debug)]
pub(crate) struct Single<'a> {
    version: u32,
    spent: OutPoint,
    unlocking: &'a [u8],
    amount: u64,
    locking: &'a [u8],
}

#[tactic(auto, unfolding(block_grammar::specs::Transaction::input_text))]
fn input_to(out: &mut Bytes, spent: &OutPoint, script: &[u8]) -> Result<(), NoMemory>
    requires { length script.now < 2 ^ 32 }
    ensures { OnOk result (out.new ≡ out.old
        ++ input_text (record { txid = spent.now.txid.0; index = spent.now.index; script = script.now; sequence = 0xFFFF_FFFF })) }
{
    out.extend(&spent.txid.0)?;
    out.extend(&spent.index.to_le_bytes())?;
    counted_to(out, script)?;
    out.extend(&FINAL.to_le_bytes())
}

#[tactic(auto, unfolding(block_grammar::specs::Transaction::output_text))]
fn output_to(out: &mut Bytes, amount: u64, script: &[u8]) -> Result<(), NoMemory>
    requires { length script.now < 2 ^ 32 }
    ensures { OnOk result (out.new ≡ out.old ++ output_text (record { value = amount; script = script.now })) }
{
    out.extend(&amount.to_le_bytes())?;
    counted_to(out, script)
}

fn text_of(alloc: Global, t: Single<'_>) -> Result<Bytes, NoMemory>
    requires unlocking { length t.unlocking.now ≤ 60 }
    requires locking { length t.locking.now ≤ 200000 }
    ensures { IfOk result (λ text. IsShortTransaction text (seen_single t.entry)) }
{
    let mut text = Bytes::copy_of(alloc, &t.version.to_le_bytes())?;
    text.extend(&[1])?;
    input_to(&mut text, &t.spent, t.unlocking)?;
    text.extend(&[1])?;
    output_to(&mut text, t.amount, t.locking)?;
    text.extend(&[0; 4])?;
    Ok(text)
}

/// The script of a coinbase at a height.
fn height_script_in(alloc: Global, height: u32) -> Result<Bytes, NoMemory>
    ensures { IfOk result (λ script. script ≡ height_script height) }
{
    let mut script = Bytes::copy_of(alloc, &[4])?;
    script.extend(&height.to_le_bytes())?;
    Ok(script)
}

/// The coinbase of a block at a height.
#[tactic(auto, unfolding(crate::specs::Generated::coinbase_at))]
pub(crate) fn coinbase_text(alloc: Global, height: u32) -> Result<Bytes, NoMemory>
    ensures { IfOk result (λ text. IsShortTransaction text (coinbase_at height)) }
{
    let script = height_script_in(alloc, height)?;
    let coinbase = Single {
        version: 1,
        spent: OutPoint {
            txid: Hash32([0; 32]),
            index: 0xFFFF_FFFF,
        },
        unlocking: script.as_slice(),
        amount: 0,
        locking: &[OP_1],
    };
    text_of(alloc, coinbase)
}

/// The output that an operation spends, in a block at a height.
fn spent_by(height: u32, op: &MakeOp<'_>) -> OutPoint
    ensures { result ≡ outpoint_spent height op.now }
{
    match op {
        MakeOp::New { .. } => OutPoint {
            txid: Hash32([0xEE; 32]),
            index: height,
        },
        MakeOp::First { spent, .. } => *spent,
        MakeOp::Update { spent, .. } => *spent,
    }
}

/// The transaction of a name operation in a block at a height.
#[tactic(auto, unfolding(crate::specs::Generated::name_transaction))]
pub(crate) fn name_text(alloc: Global, height: u32, op: &MakeOp<'_>) -> Result<Bytes, NoMemory>
    requires { HasShortParts op.now }
    ensures text { IfOk result (λ text. IsShortTransaction text (name_transaction (making_at height op.now))) }
    ensures name { IfOk result (λ _. IsNameTransaction (name_transaction (making_at height op.now)) (making_at height op.now)) }
{
    let script = script_in(alloc, op)?;
    let transaction = Single {
        version: NAME_VERSION,
        spent: spent_by(height, op),
        unlocking: &[],
        amount: NAME_AMOUNT,
        locking: script.as_slice(),
    };
    text_of(alloc, transaction)
}
