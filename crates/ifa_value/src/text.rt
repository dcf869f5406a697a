//! Texts, cut into strings of up to 255 bytes (RFC 1035, 3.3).

ghost use Rattle.std.specs.Prelude.{◌≡◌, ◌++◌, IfOk, OnOk};
ghost use Rattle.serde_json.specs.Data.{array};
ghost use Rattle.serde_json.specs.View.{view, items_view};
ghost use Rattle.ifa_value.specs.Shapes.{strings as strings_of, texts as texts_of, txt as txt_of};

use nmc_base::{Bytes, NoMemory};
use serde_json::Value;
use std::alloc::Global;

/// No string of a TXT record has more bytes.
const LONGEST_STRING: usize = 255;

/// Appends the strings of a text, each behind its length.
fn strings(text: &[u8], out: &mut Bytes) -> Result<(), NoMemory>
    ensures { OnOk result (out.new ≡ out.old ++ strings_of text.now) }
{
    let mut rest = text;
    while rest.len() > LONGEST_STRING {
        let (front, more) = rest.split_at(LONGEST_STRING);
        out.extend(&[255])?;
        out.extend(front)?;
        rest = more;
    }
    out.extend(&[rest.len() as u8])?;
    out.extend(rest)
}

/// The strings of all texts, where each member is a text.
fn texts(alloc: Global, values: &[Value]) -> Result<Option<Bytes>, NoMemory>
    ensures { IfOk result (λ t. t ≡ texts_of (items_view values.now)) }
{
    let mut out = Bytes::new(alloc);
    for value in values {
        match value.as_str() {
            Some(text) => strings(text.as_bytes(), &mut out)?,
            None => return Ok(None),
        }
    }
    Ok(Some(out))
}

/// The strings of one text.
fn one_text(alloc: Global, text: &[u8]) -> Result<Bytes, NoMemory>
    ensures { IfOk result (λ t. t ≡ strings_of text.now) }
{
    let mut out = Bytes::new(alloc);
    strings(text, &mut out)?;
    Ok(out)
}

/// The strings of the texts of a list, which isn't empty.
fn list_of_texts(alloc: Global, values: &[Value]) -> Result<Option<Bytes>, NoMemory>
    ensures { IfOk result (λ t. t ≡ txt_of (array (items_view values.now))) }
{
    match values.split_first() {
        Some(_) => texts(alloc, values),
        None => Ok(None),
    }
}

/// The data of one record: a text, or the texts of a list that isn't empty.
pub(crate) fn txt(alloc: Global, value: &Value) -> Result<Option<Bytes>, NoMemory>
    ensures { IfOk result (λ t. t ≡ txt_of (view value.now)) }
{
    match value.as_str() {
        Some(text) => return Ok(Some(one_text(alloc, text.as_bytes())?)),
        None => {}
    }
    match value.as_array() {
        Some(list) => list_of_texts(alloc, list.as_slice()),
        None => Ok(None),
    }
}
