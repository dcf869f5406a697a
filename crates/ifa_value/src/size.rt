//! How much JSON a value is.

ghost use Rattle.std.specs.Prelude.{◌≡◌, ◌-◌};
ghost use Rattle.serde_json.specs.View.{view, items_view, members_view};
ghost use Rattle.ifa_value.specs.Sizes.{size, items_size, members_size};

use serde_json::{Map, Value};
use std::string::String;

/// What a value leaves of so many bytes: none where it has as many or more.
#[cycle(left_by)]
pub(crate) fn left_by(value: &Value, left: usize) -> usize
    ensures { result ≡ left - size (view value.now) }
{
    match value {
        Value::Null | Value::Bool(_) | Value::Number(_) => left.saturating_sub(1),
        Value::String(text) => left.saturating_sub(2).saturating_sub(text.len()),
        Value::Array(items) => left_by_items(items, left.saturating_sub(2)),
        Value::Object(members) => left_by_members(members, left.saturating_sub(2)),
    }
}

/// What the elements of a list leave.
#[cycle(left_by)]
fn left_by_items(items: &Vec<Value>, left: usize) -> usize
    ensures { result ≡ left - items_size (items_view items.now.items) }
{
    let mut rest = left;
    for item in items {
        rest = left_by(item, rest);
    }
    rest
}

/// What the members of an object leave.
#[cycle(left_by)]
pub(crate) fn left_by_members(members: &Map<String, Value>, left: usize) -> usize
    ensures { result ≡ left - members_size (members_view members.now.entries) }
{
    let mut rest = left;
    for (key, member) in members.iter() {
        rest = left_by(member, rest.saturating_sub(3).saturating_sub(key.len()));
    }
    rest
}
