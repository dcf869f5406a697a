//! Imports.

ghost use Rattle.std.specs.Prelude.{◌≡◌, IfOk};
ghost use Rattle.std.specs.Option.{option_map};
ghost use Rattle.serde_json.specs.View.{view};
ghost use Rattle.ifa_value.specs.Shapes.{selector_in};
ghost use Rattle.ifa_value.specs.Elements.{import as import_of};

use crate::item::Element;
use domain_text::are_labels;
use nmc_base::{Bytes, NoMemory};
use serde_json::Value;
use std::alloc::Global;

/// The selector behind the name, which may be left out.
fn selector(value: Option<&Value>) -> Option<&[u8]>
    ensures { option_map (λ s. s.now) result ≡ selector_in (option_map (λ v. view v.now) value.entry) }
{
    let Some(value) = value else {
        return Some(&[]);
    };
    let text = value.as_str()?.as_bytes();
    if text.is_empty() || are_labels(text) {
        Some(text)
    } else {
        None
    }
}

/// A list of a name, and maybe a selector.
pub(crate) fn import(alloc: Global, value: &Value) -> Result<Option<Element>, NoMemory>
    ensures { IfOk result (λ e. e ≡ import_of (view value.now)) }
{
    let Some(first) = value.get(0usize) else {
        return Ok(None);
    };
    let Some(name) = first.as_str() else {
        return Ok(None);
    };
    let Some(selector) = selector(value.get(1usize)) else {
        return Ok(None);
    };
    if value.get(2usize).is_some() {
        return Ok(None);
    }
    Ok(Some(Element::Import {
        name: Bytes::copy_of(alloc, name.as_bytes())?,
        selector: Bytes::copy_of(alloc, selector)?,
    }))
}
