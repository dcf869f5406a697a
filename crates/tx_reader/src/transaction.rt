//! A transaction, read in place.

ghost use Rattle.std.specs.Prelude.{◌≡◌, ℕ, ◌≤◌, ◌++◌, length, IfOk, Ok, Err};
ghost use Rattle.std.specs.Int.{w32, to_le_bytes};
ghost use Rattle.block_grammar.specs.Transaction.{input_text, output_text, Transaction, FitsTransaction, transaction_text, txid_of};
ghost use Rattle.block_grammar.specs.CompactSize.{counted_list};
ghost use Rattle.block_grammar.specs.Combinators.{then_from, map_from};
ghost use Rattle.block_grammar.specs.Reading.{some_from, input_from, output_from, plain_body_from, flagged_body_from, body_from, with_body, transaction_from};
ghost use Rattle.wire_read.specs.Seen.{seen};
ghost use Rattle.block_grammar.specs.Fault.{StandsFirst};
ghost use Rattle.block_grammar.specs.FaultRows.{TransactionByte};
ghost use Rattle.wire_read.specs.Front.{IsRead, Gives};

use crate::inputs::{Inputs, inputs_in};
use crate::outputs::{Outputs, outputs_in};
use crate::witness::{Witness, witness_in};
use block_grammar::TxKind;
use nmc_base::Hash32;
use sha2::{Digest, Sha256};
use std::marker::Model;
use wire_read::{Fault, TxFault, before, cut, u32_at};

/// A transaction (Bitcoin's "tx"), with a witness (BIP 144) or without one. Contracts see its contents.
#[derive(Drop)]
pub struct Tx<'a> {
    version: u32,
    inputs: Inputs<'a>,
    outputs: Outputs<'a>,
    witness: Option<Witness<'a>>,
    lock_time: u32,
    /// These three, joined, are the text that the txid covers. Of a plain transaction it is the first alone.
    front: &'a [u8],
    body: &'a [u8],
    tail: &'a [u8],
}

impl<'a> Model for Tx<'a> {
    ghost use Rattle.std.specs.Prelude.{◌≡◌, ◌++◌};
    ghost use Rattle.block_grammar.specs.Transaction.{Transaction, stripped_text};

    ghost Value = { Transaction };

    ghost view = { λ t. record { version = t.version; inputs = t.inputs; outputs = t.outputs; witness = t.witness; lock_time = t.lock_time } };

    ghost invariant = { λ t. t.front.now ++ (t.body.now ++ t.tail.now) ≡ stripped_text (record { version = t.version; inputs = t.inputs; outputs = t.outputs; witness = t.witness; lock_time = t.lock_time }) };
}

impl<'a> Tx<'a> {
    /// The version. Its four bytes stand low byte first, as those of each number.
    pub fn version(&self) -> u32
        ensures { result ≡ self.now.version }
    {
        self.version
    }

    /// The inputs, in order.
    pub fn inputs(&self) -> Inputs<'a>
        ensures { result ≡ self.now.inputs }
    {
        self.inputs.again()
    }

    /// The outputs, in order.
    pub fn outputs(&self) -> Outputs<'a>
        ensures { result ≡ self.now.outputs }
    {
        self.outputs.again()
    }
}

/// The transaction's id: the double SHA-256 of its text without marker, flag and witness. Each byte is hashed once.
#[tactic(auto, unfolding(block_grammar::specs::Transaction::txid_of))]
pub fn txid(tx: &Tx<'_>) -> Hash32
    ensures { result.0 ≡ txid_of tx.now }
{
    let mut hasher = Sha256::new();
    hasher.update(tx.front);
    hasher.update(tx.body);
    hasher.update(tx.tail);
    Hash32(Sha256::digest(hasher.finalize()))
}

/// The inputs and the outputs, and their text.
#[derive(Drop)]
struct Puts<'a> {
    inputs: Inputs<'a>,
    outputs: Outputs<'a>,
    text: &'a [u8],
}

fn puts_in<'a>(bytes: &'a [u8]) -> Result<(Puts<'a>, &'a [u8]), Fault<'a>>
    ensures exact { seen (λ x. ((x.0.inputs, x.0.outputs), x.1.now)) result
        ≡ then_from (some_from TxKind.NoInput input_from) (λ _. some_from TxKind.NoOutput output_from) bytes.now }
    ensures text { IfOk result (λ x. x.0.text.now ≡ counted_list input_text x.0.inputs ++ counted_list output_text x.0.outputs) }
    ensures whole { IfOk result (λ x. bytes.now ≡ x.0.text.now ++ x.1.now) }
    ensures some { IfOk result (λ x. 1 ≤ length x.0.inputs) }
{
    let (inputs, rest) = inputs_in(bytes)?;
    let (outputs, after) = outputs_in(rest)?;
    let text = before(bytes, after);
    Ok((
        Puts {
            inputs,
            outputs,
            text,
        },
        after,
    ))
}

/// What stands behind the version of a plain transaction. The version and all that follows it is `whole`.
#[tactic(auto, unfolding(block_grammar::specs::Reading::plain_body_from))]
fn plain_in<'a>(
    version: u32,
    whole: &'a [u8],
    bytes: &'a [u8],
) -> Result<(Tx<'a>, &'a [u8]), Fault<'a>>
    requires { whole.now ≡ to_le_bytes w32 version ++ bytes.now }
    ensures { seen (λ x. (x.0, x.1.now)) result ≡ map_from (with_body version) plain_body_from bytes.now }
{
    let (puts, rest) = puts_in(bytes)?;
    let (lock_time, after) = u32_at(rest)?;
    let front = before(whole, after);
    let tx = Tx {
        version,
        inputs: puts.inputs,
        outputs: puts.outputs,
        witness: None,
        lock_time,
        front,
        body: &[],
        tail: &[],
    };
    Ok((tx, after))
}

/// What stands behind the flag of a transaction with a witness. The text of its version is `front`.
#[tactic(auto, unfolding(block_grammar::specs::Reading::flagged_body_from))]
fn flagged_in<'a>(
    version: u32,
    front: &'a [u8],
    bytes: &'a [u8],
) -> Result<(Tx<'a>, &'a [u8]), Fault<'a>>
    requires { front.now ≡ to_le_bytes w32 version }
    ensures { seen (λ x. (x.0, x.1.now)) result ≡ map_from (with_body version) flagged_body_from bytes.now }
{
    let (puts, rest) = puts_in(bytes)?;
    let (witness, rest) = witness_in(puts.inputs.how_many(), rest)?;
    let (lock_time, after) = u32_at(rest)?;
    let tail = before(rest, after);
    let tx = Tx {
        version,
        inputs: puts.inputs,
        outputs: puts.outputs,
        witness: Some(witness),
        lock_time,
        front,
        body: puts.text,
        tail,
    };
    Ok((tx, after))
}

/// What stands behind the version: the marker 00 and the flag 01 of a witness, or the inputs of a plain transaction.
/// The version and all that follows it is `whole`.
#[tactic(auto, unfolding(block_grammar::specs::Reading::body_from, block_grammar::specs::Reading::flag_from))]
fn body_in<'a>(
    version: u32,
    whole: &'a [u8],
    bytes: &'a [u8],
) -> Result<(Tx<'a>, &'a [u8]), Fault<'a>>
    requires { whole.now ≡ to_le_bytes w32 version ++ bytes.now }
    ensures { seen (λ x. (x.0, x.1.now)) result ≡ map_from (with_body version) body_from bytes.now }
{
    match bytes {
        [] | [0] => Err(cut()),
        [0, 1, rest @ ..] => flagged_in(version, before(whole, bytes), rest),
        [0, rest @ ..] => Err(Fault {
            kind: TxKind::BadFlag,
            rest,
        }),
        _ => plain_in(version, whole, bytes),
    }
}

#[tactic(auto, unfolding(block_grammar::specs::Reading::transaction_from))]
fn transaction_in<'a>(bytes: &'a [u8]) -> Result<(Tx<'a>, &'a [u8]), Fault<'a>>
    ensures { seen (λ x. (x.0, x.1.now)) result ≡ transaction_from bytes.now }
{
    let (version, rest) = u32_at(bytes)?;
    body_in(version, bytes, rest)
}

/// Reads the transaction at the front, and says how many bytes it takes. Bytes may follow it.
pub fn read_tx<'a>(bytes: &'a [u8]) -> Result<(Tx<'a>, usize), TxFault>
    // What is read is there, and each fault is the first.
    ensures read { IsRead transaction_text FitsTransaction TransactionByte bytes.now result }
    // A transaction at the front is read.
    ensures only { (t : Transaction) (n : ℕ) → StandsFirst transaction_text FitsTransaction bytes.now t n → result ≡ Ok (t, n) }
    // The same, by the reader on lists.
    ensures exact { Gives transaction_from bytes.now result }
{
    match transaction_in(bytes) {
        Ok((tx, rest)) => Ok((tx, bytes.len() - rest.len())),
        Err(fault) => Err(TxFault {
            kind: fault.kind,
            at: bytes.len() - fault.rest.len(),
        }),
    }
}
