//! The object that a value is.

ghost use Rattle.std.specs.Prelude.{◌≡◌, ◌-◌, ◌+◌, [], true, is_some, IfOk, IfSome, OnOk};
ghost use Rattle.std.specs.Option.{option_map};
ghost use Rattle.std.proofs.Props.{props};
ghost use Rattle.serde_json.specs.View.{view};
ghost use Rattle.ifa_value.specs.Elements.{elements_in, elements_of};
ghost use Rattle.ifa_value.specs.declared.item.Key.TheVariants.{Alias, Import, Map as OfMap, Ns, Translate};
ghost use Rattle.domain_text.specs.Label.{is_entry_label as is_entry_label_of};
ghost use Rattle.ifa_value.specs.Labels.{map_labels, label_numbers};
ghost use Rattle.ifa_value.specs.Made.{AreMade};
ghost use Rattle.ifa_value.specs.Sizes.{members_size};
ghost use Rattle.ifa_value.specs.Values.{item_of, members_of, entry_of, IsSimple};

use crate::elements::{alone, each, element, imports};
use crate::item::{Element, Elements, Key};
use crate::labels::add_numbers;
use crate::made::MadeItem;
use crate::size::left_by_members;
use domain_text::is_entry_label;
use nmc_base::NoMemory;
use serde_json::Value;
use std::alloc::Global;

/// The object that a value is (IFA-0001). Contracts see its members.
#[derive(Drop)]
pub struct IfaObject {
    value: Value,
    ns: bool,
    alias: bool,
    translate: bool,
    map: bool,
    import: bool,
    /// There is an object under the empty text in the map.
    below: bool,
    /// The elements of some items, made once.
    made: Vec<MadeItem>,
    ghost is_ns: { ns ≡ is_some (item_of Ns (members_of (view value))) },
    ghost is_alias: { alias ≡ is_some (item_of Alias (members_of (view value))) },
    ghost is_translate: { translate ≡ is_some (item_of Translate (members_of (view value))) },
    ghost is_map: { map ≡ is_some (item_of OfMap (members_of (view value))) },
    ghost is_import: { import ≡ is_some (item_of Import (members_of (view value))) },
    ghost is_below: { below ≡ is_some (entry_of [] (members_of (view value))) },
    ghost are_made: { AreMade (members_of (view value)) made.items } by { Prim.hlevel props },
}

/// Whether a value has the item, whatever its shape.
fn has_item(value: &Value, key: Key) -> bool
    ensures { result ≡ is_some (item_of key (members_of (view value.now))) }
{
    value.get(key.name()).is_some()
}

/// Whether there is an object under a label in a value's map. The label is `*` or empty or a label without capital letters.
fn has_object(value: &Value, label: &str) -> bool
    requires { is_entry_label_of label.now ≡ true }
    ensures { result ≡ is_some (entry_of label.now (members_of (view value.now))) }
{
    match value.get("map") {
        Some(map) => match map.get(label) {
            Some(value) => value.is_object(),
            None => false,
        },
        None => false,
    }
}

/// The elements of a value's item.
fn elements_at(alloc: Global, value: &Value, key: Key) -> Result<Elements, NoMemory>
    ensures { IfOk result (λ v. v.items ≡ elements_of key (members_of (view value.now))) }
{
    match value.get(key.name()) {
        Some(item) => elements(alloc, key, item),
        None => Ok(Elements::new(alloc)),
    }
}

/// Whether a value has a map, and whether there is an object under the empty text in it.
fn has_map(value: &Value) -> (bool, bool)
    ensures map { result.0 ≡ is_some (item_of OfMap (members_of (view value.now))) }
    ensures below { result.1 ≡ is_some (entry_of [] (members_of (view value.now))) }
{
    match value.get("map") {
        Some(map) => match map.get("") {
            Some(value) => (true, value.is_object()),
            None => (true, false),
        },
        None => (false, false),
    }
}

/// Adds the elements of an item, where there is one.
fn add_made(
    alloc: Global,
    value: &Value,
    key: Key,
    into: &mut Vec<MadeItem>,
) -> Result<(), NoMemory>
    ensures { OnOk result (AreMade (members_of (view value.now)) into.old.items → AreMade (members_of (view value.now)) into.new.items) }
{
    if has_item(value, key) {
        let elements = elements_at(alloc, value, key)?;
        into.push(MadeItem { key, elements })?;
    }
    Ok(())
}

/// How many members a value has.
fn members_in(value: &Value) -> usize {
    match value.as_object() {
        Some(members) => members.len(),
        None => 0,
    }
}

/// The elements of all items but the map and the imports. No item is looked for where each member is one that was found.
fn made_items(alloc: Global, value: &Value) -> Result<Vec<MadeItem>, NoMemory>
    ensures { IfOk result (λ v. AreMade (members_of (view value.now)) v.items) }
{
    let most = members_in(value);
    let keys = [
        Key::Ip,
        Key::Ip6,
        Key::Ns,
        Key::Alias,
        Key::Translate,
        Key::Ds,
        Key::Tls,
        Key::Sshfp,
        Key::Txt,
        Key::Srv,
        Key::Mx,
    ];
    let mut made = Vec::new(alloc);
    for key in keys {
        if made.len() == most {
            return Ok(made);
        }
        add_made(alloc, value, key, &mut made)?;
    }
    Ok(made)
}

impl IfaObject {
    ghost use Rattle.ifa_value.specs.Object.{members};

    /// The object that a JSON value is. What is no JSON object is the empty object.
    pub(crate) fn of(alloc: Global, value: Value) -> IfaObject
        ensures { members result ≡ members_of (view value) }
    {
        let ns = has_item(&value, Key::Ns);
        let alias = has_item(&value, Key::Alias);
        let translate = has_item(&value, Key::Translate);
        let import = has_item(&value, Key::Import);
        let (map, below) = has_map(&value);
        IfaObject {
            value,
            ns,
            alias,
            translate,
            map,
            import,
            below,
            made: Vec::new(alloc),
        }
    }

    /// Makes the elements of all items but the map and the imports. Where memory runs out, none are made.
    pub fn make(&mut self, alloc: Global)
        ensures { members self.new ≡ members self.old }
    {
        if let Ok(made) = made_items(alloc, &self.value) {
            self.made = made;
        }
    }

    /// The elements of an item, where they are made already.
    pub fn made(&self, key: Key) -> Option<&[Element]>
        ensures { IfSome result (λ es. es.now ≡ elements_of key (members self.now)) }
    {
        for item in self.made.as_slice() {
            if item.key == key {
                return Some(item.elements.as_slice());
            }
        }
        None
    }

    /// Whether the object has no `ns`, no import and no entry under the empty text.
    pub fn is_simple(&self) -> bool
        ensures { result ≡ true → IsSimple (members self.now) }
    {
        if self.ns || self.import {
            return false;
        }
        !self.below
    }

    /// Whether the object has the item, whatever its shape.
    pub fn has(&self, key: Key) -> bool
        ensures { result ≡ is_some (item_of key (members self.now)) }
    {
        match key {
            Key::Ns => self.ns,
            Key::Alias => self.alias,
            Key::Translate => self.translate,
            Key::Map => self.map,
            Key::Import => self.import,
            _ => has_item(&self.value, key),
        }
    }

    /// The well-shaped elements of an item, in order. The map has none.
    pub fn elements(&self, alloc: Global, key: Key) -> Result<Elements, NoMemory>
        ensures { IfOk result (λ v. v.items ≡ elements_of key (members self.now)) }
    {
        elements_at(alloc, &self.value, key)
    }

    /// The object under a label in the map. None exactly where the label is neither `*` nor empty nor a label
    /// without capital letters, or there is no object under it.
    pub fn entry(&self, alloc: Global, label: &[u8]) -> Result<Option<IfaObject>, NoMemory>
        ensures { IfOk result (λ o. option_map members o ≡ entry_of label.now (members self.now)) }
    {
        if !is_entry_label(label) {
            return Ok(None);
        }
        let name = match std::str::from_utf8(label) {
            Ok(name) => name,
            Err(_) => return Ok(None),
        };
        let Some(map) = self.value.get("map") else {
            return Ok(None);
        };
        match map.get(name) {
            Some(value) => {
                if value.is_object() {
                    Ok(Some(IfaObject::of(alloc, value.clone()?)))
                } else {
                    Ok(None)
                }
            }
            None => Ok(None),
        }
    }
}

impl IfaObject {
    ghost use Rattle.ifa_value.specs.Object.{members};

    /// Whether there is an object under a label in the map. The label is `*` or empty or a label without capital letters.
    pub fn has_entry(&self, label: &str) -> bool
        requires { is_entry_label_of label.now ≡ true }
        ensures { result ≡ is_some (entry_of label.now (members self.now)) }
    {
        has_object(&self.value, label)
    }

    /// The numbers that stand for the labels of the map under which an object stands, in the order of their bytes.
    pub fn label_numbers(&self, alloc: Global) -> Result<Vec<u64>, NoMemory>
        ensures { IfOk result (λ v. v.items ≡ label_numbers (map_labels (members self.now))) }
    {
        let mut numbers = Vec::new(alloc);
        match self.value.get("map").and_then(Value::as_object) {
            Some(map) => add_numbers(map, &mut numbers)?,
            None => {}
        }
        Ok(numbers)
    }

    /// What the object leaves of so many bytes: none where its members have as many or more.
    pub fn left_of(&self, left: usize) -> usize
        ensures { result ≡ left - members_size (members self.now) }
    {
        match self.value.as_object() {
            Some(members) => left_by_members(members, left),
            None => left,
        }
    }
}

/// The elements that an item holds.
fn elements(alloc: Global, key: Key, item: &Value) -> Result<Elements, NoMemory>
    ensures { IfOk result (λ v. v.items ≡ elements_in key (view item.now)) }
{
    match key {
        Key::Ip | Key::Ip6 | Key::Ns | Key::Txt => match item.as_array() {
            Some(list) => each(alloc, key, list.as_slice()),
            None => alone(alloc, element(alloc, key, item)?),
        },
        Key::Alias | Key::Translate => alone(alloc, element(alloc, key, item)?),
        Key::Ds | Key::Tls | Key::Sshfp | Key::Srv | Key::Mx => match item.as_array() {
            Some(list) => each(alloc, key, list.as_slice()),
            None => Ok(Elements::new(alloc)),
        },
        Key::Import => imports(alloc, item),
        Key::Map => Ok(Elements::new(alloc)),
    }
}
