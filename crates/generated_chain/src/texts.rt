//! Writes names, values and queries.

ghost use Rattle.std.specs.Prelude.{◌≡◌, ◌≤◌, ◌++◌, length, decimal, IfOk, OnOk};
ghost use Rattle.generated_chain.specs.Texts.{name_text as name_of, value_text as value_of, query_text as query_of};

use itoa::Buffer;
use nmc_base::{Bytes, NoMemory};
use std::alloc::Global;

/// RD, in the high byte of a query's flags (RFC 1035, 4.1.1).
const RD: u8 = 1;

/// The label `bit` and the root; the type A, and the class IN (RFC 1035, 3.2.2 and 3.2.4).
const BIT_A_IN: [u8; 9] = [3, b'b', b'i', b't', 0, 0, 1, 0, 1];

/// Appends a number.
fn number_to(text: &mut Bytes, number: u32) -> Result<(), NoMemory>
    ensures { OnOk result (text.new ≡ text.old ++ decimal number) }
{
    text.extend(Buffer::new().format(number).as_bytes())
}

/// A name.
pub(crate) fn name_text(alloc: Global, number: u8) -> Result<Bytes, NoMemory>
    ensures { IfOk result (λ text. text ≡ name_of number) }
{
    let mut text = Bytes::copy_of(alloc, b"d/n")?;
    number_to(&mut text, u32::from(number))?;
    Ok(text)
}

/// The value that a block at a height gives a name.
pub(crate) fn value_text(alloc: Global, height: u32) -> Result<Bytes, NoMemory>
    ensures { IfOk result (λ text. text ≡ value_of height) }
{
    let mut text = Bytes::copy_of(alloc, b"{\"ip\":\"10.0.")?;
    number_to(&mut text, height / 256 % 256)?;
    text.extend(b".")?;
    number_to(&mut text, height % 256)?;
    text.extend(b"\"}")?;
    Ok(text)
}

/// The query of a block at a height.
pub(crate) fn query_text(alloc: Global, height: u32, number: u8) -> Result<Bytes, NoMemory>
    ensures { IfOk result (λ text. text ≡ query_of height number) }
{
    let mut buffer = Buffer::new();
    let digits = buffer.format(u32::from(number)).as_bytes();
    let label = 1 + digits.len() as u8;
    let [high, low] = ((height % 65_536) as u16).to_be_bytes();
    // The ID, the flags and the counts, and the label's front.
    let front = [high, low, RD, 0, 0, 1, 0, 0, 0, 0, 0, 0, label, b'n'];
    let mut text = Bytes::copy_of(alloc, &front)?;
    text.extend(digits)?;
    text.extend(&BIT_A_IN)?;
    Ok(text)
}
