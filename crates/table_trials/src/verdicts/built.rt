//! Transactions as bytes.

use name_script::NameOp;
use std::alloc::Global;
use std::test::Fail;

/// The amount of an output, and what it does to names.
pub(super) type Output<'a> = (u64, Option<NameOp<'a>>);

/// A push of the bytes, behind their number of two bytes.
fn push(script: &mut Vec<u8>, bytes: &[u8]) -> Result<(), Fail> {
    script.push(0x4d)?;
    script.extend_from_slice(&u16::try_from(bytes.len())?.to_le_bytes())?;
    script.extend_from_slice(bytes)?;
    Ok(())
}

/// Adds the operation's number and its pushes, or what does nothing to names.
fn put_operation(script: &mut Vec<u8>, operation: Option<NameOp<'_>>) -> Result<(), Fail> {
    match operation {
        None => script.push(0x6a)?,
        Some(NameOp::New { hash }) => {
            script.push(0x51)?;
            push(script, hash)?;
        }
        Some(NameOp::First { name, rand, value }) => {
            script.push(0x52)?;
            push(script, name)?;
            push(script, rand)?;
            push(script, value)?;
        }
        Some(NameOp::Update { name, value }) => {
            script.push(0x53)?;
            push(script, name)?;
            push(script, value)?;
        }
    }
    script.push(0x75)?;
    Ok(())
}

/// Adds a script behind its length.
fn put_script(bytes: &mut Vec<u8>, script: &[u8]) -> Result<(), Fail> {
    match u16::try_from(script.len())? {
        short @ 0..=252 => bytes.push(short as u8)?,
        long => {
            bytes.push(0xfd)?;
            bytes.extend_from_slice(&long.to_le_bytes())?;
        }
    }
    bytes.extend_from_slice(script)?;
    Ok(())
}

/// Adds an output of this amount, behind the others.
fn put_output(
    bytes: &mut Vec<u8>,
    alloc: Global,
    amount: u64,
    operation: Option<NameOp<'_>>,
) -> Result<(), Fail> {
    bytes.extend_from_slice(&amount.to_le_bytes())?;
    let mut script = Vec::new(alloc);
    put_operation(&mut script, operation)?;
    put_script(bytes, &script)
}

fn put_inputs(bytes: &mut Vec<u8>, inputs: &[u8]) -> Result<(), Fail> {
    bytes.push(u8::try_from(inputs.len())?)?;
    for number in inputs {
        bytes.extend_from_slice(&[*number; 32])?;
        bytes.extend_from_slice(&[*number, 0, 0, 0, 0, 0xff, 0xff, 0xff, 0xff])?;
    }
    Ok(())
}

fn put_outputs(bytes: &mut Vec<u8>, alloc: Global, outputs: &[Output<'_>]) -> Result<(), Fail> {
    bytes.push(u8::try_from(outputs.len())?)?;
    for (amount, operation) in outputs {
        put_output(bytes, alloc, *amount, *operation)?;
    }
    bytes.extend_from_slice(&[0; 4])?;
    Ok(())
}

/// A plain transaction. An input of the number n spends the output n of the transaction whose txid is 32 bytes n.
pub(super) fn transaction(
    alloc: Global,
    version: u32,
    inputs: &[u8],
    outputs: &[Output<'_>],
) -> Result<Vec<u8>, Fail> {
    let mut bytes = version.to_le_bytes().to_vec(alloc)?;
    put_inputs(&mut bytes, inputs)?;
    put_outputs(&mut bytes, alloc, outputs)?;
    Ok(bytes)
}
