//! The labels of an object's map, by numbers that stand for them.

ghost use Rattle.std.specs.Prelude.{◌≡◌, ℕ, List, ◌++◌, IfOk, OnOk};
ghost use Rattle.serde_json.specs.Find.{as_object};
ghost use Rattle.serde_json.specs.View.{members_view, view};
ghost use Rattle.ifa_value.specs.Labels.{key_of_object, keys_of, label_number as number_of_label, label_numbers};

use nmc_base::NoMemory;
use serde_json::{Map, Value};
use std::string::String;

/// What is left of a number when the next byte comes: so no step overflows.
const WRAP: u64 = 1 << 55;

/// A number that stands for a label where two are compared. No two labels of up to six bytes have the same.
pub fn label_number(label: &[u8]) -> u64
    ensures { result ≡ number_of_label label.now }
{
    let mut number = 0u64;
    for byte in label {
        number = number % WRAP * 257 + (*byte as u64 + 1);
    }
    number
}

/// Adds the number of a key, where an object stands under it.
fn add_number(key: &[u8], value: &Value, into: &mut Vec<u64>) -> Result<(), NoMemory>
    ensures { OnOk result ((more : List (List ℕ)) → into.new.items ++ label_numbers more ≡ into.old.items ++ label_numbers (key_of_object key.now (as_object (view value.now)) more)) }
{
    if value.is_object() {
        into.push(label_number(key))?;
    }
    Ok(())
}

/// Adds the numbers of the keys of an object's members, of those under which an object stands.
pub(crate) fn add_numbers(members: &Map<String, Value>, into: &mut Vec<u64>) -> Result<(), NoMemory>
    ensures { OnOk result (into.new.items ≡ into.old.items ++ label_numbers (keys_of (members_view members.now.entries))) }
{
    for (key, value) in members.iter() {
        add_number(key.as_bytes(), value, into)?;
    }
    Ok(())
}
