//! Reads values.

ghost use Rattle.std.specs.Prelude.{◌≡◌, IfOk};
ghost use Rattle.ifa_value.specs.Object.{members};
ghost use Rattle.ifa_value.specs.Values.{object_of};

use crate::object::IfaObject;
use nmc_base::NoMemory;
use serde_json::Value;
use std::alloc::Global;

/// The object that a value is. A value that isn't a JSON object, or isn't read, is the empty object.
#[tactic(auto, unfolding(crate::specs::Values::object_of))]
pub fn read_value(alloc: Global, value: &[u8]) -> Result<IfaObject, NoMemory>
    ensures { IfOk result (λ object. members object ≡ object_of value.now) }
{
    match Value::from_slice(alloc, value) {
        Ok(value) => Ok(IfaObject::of(alloc, value)),
        Err(error) => {
            if error.is_memory() {
                Err(NoMemory)
            } else {
                Ok(IfaObject::of(alloc, Value::Null))
            }
        }
    }
}
