//! What a name right below `bit.` is answered with at once, without a node: its object gives itself alone as a source, and is no cut.

ghost use Rattle.std.specs.Prelude.{◌≡◌, ◌≤◌, ◌++◌, ℕ, List, Option, Some, true, false, is_some, IfOk, IfErr, IfSome, OnOk};
ghost use Rattle.std.specs.List.{flat_map};
ghost use Rattle.serde_json.specs.Data.{Members};
ghost use Rattle.ifa_value.specs.Elements.{alone, elements_of};
ghost use Rattle.ifa_value.specs.Object.{members};
ghost use Rattle.ifa_value.specs.Values.{item_of};
ghost use Rattle.ifa_value.specs.declared.item.Key.TheVariants.{Alias};
ghost use Rattle.import_expand.specs.Books.{IsAt};
ghost use Rattle.import_expand.specs.Rooms.{objects_in, held, GivesUp, IsSound};
ghost use Rattle.import_expand.specs.Sources.{Live};
ghost use Rattle.bit_resolver.specs.Answers.{by_value, in_zone, matching, record_items, records_at, records_of};
ghost use Rattle.std.specs.Option.{option_and_then};
ghost use Rattle.bit_resolver.specs.Nodes.{Node as NodeOf, first, host_in as host_of, lone, type_of as type_number};
ghost use Rattle.bit_resolver.specs.Places.{IsBelow};
ghost use Rattle.bit_resolver.specs.Rdata.{rdata_of};
ghost use Rattle.bit_resolver.specs.Ends.{seen_asked, seen_below};
ghost use Rattle.bit_resolver.specs.declared.zone.Zone.{Zone as ZoneOf};

use crate::cases::{by_cname, by_object, or_no_data};
use crate::node::type_of;
use crate::place::Below;
use crate::rdata::{absolute_name, rdata};
use crate::resource::{Asked, Resource, Resources, add};
use crate::rr_type;
use crate::zone::Zone;
use domain_text::Name;
use ifa_value::{Element, IfaObject, Key};
use import_expand::{Exhausted, Names, Room};
use nmc_base::NoMemory;
use std::alloc::Global;

/// The one item whose records match a QTYPE, where they name no host.
fn plain_item(kind: u16) -> Option<Key>
    ensures { IfSome result (λ k. (n : NodeOf) → matching n kind record_items ≡ records_at k n) }
{
    if kind == rr_type::A {
        return Some(Key::Ip);
    }
    if kind == rr_type::AAAA {
        return Some(Key::Ip6);
    }
    if kind == rr_type::TXT {
        return Some(Key::Txt);
    }
    if kind == rr_type::TLSA {
        return Some(Key::Tls);
    }
    if kind == rr_type::SSHFP {
        return Some(Key::Sshfp);
    }
    None
}

/// Adds the record of an element that names no host. Whether it is one.
fn add_element(
    alloc: Global,
    owner: &[u8],
    kind: u16,
    element: &Element,
    into: &mut Resources,
) -> Result<bool, NoMemory>
    ensures { IfOk result (λ b. b ≡ true → (name : List ℕ → Option (List ℕ)) → into.new.items ≡ into.old.items ++ records_of owner.now kind (alone (rdata_of name element.now))) }
{
    match rdata(alloc, None, element)? {
        Some(rdata) => {
            add(into, Resource::with(alloc, owner, kind, rdata)?)?;
            Ok(true)
        }
        None => Ok(false),
    }
}

/// Adds the records of the elements. Whether none names a host.
fn add_elements(
    alloc: Global,
    owner: &[u8],
    kind: u16,
    elements: &[Element],
    into: &mut Resources,
) -> Result<bool, NoMemory>
    ensures { IfOk result (λ b. b ≡ true → (name : List ℕ → Option (List ℕ)) → into.new.items ≡ into.old.items ++ records_of owner.now kind (flat_map (λ e. alone (rdata_of name e)) elements.now)) }
{
    into.reserve(elements.len())?;
    for element in elements {
        if !add_element(alloc, owner, kind, element, into)? {
            return Ok(false);
        }
    }
    Ok(true)
}

/// Adds the records of an item of an object. Whether none names a host.
fn add_item(
    alloc: Global,
    owner: &[u8],
    object: &IfaObject,
    key: Key,
    into: &mut Resources,
) -> Result<bool, NoMemory>
    ensures { IfOk result (λ b. b ≡ true → (name : List ℕ → Option (List ℕ)) →
        into.new.items ≡ into.old.items ++ records_of owner.now (type_number key) (flat_map (λ e. alone (rdata_of name e)) (elements_of key (members object.now)))) }
{
    match object.made(key) {
        Some(elements) => add_elements(alloc, owner, type_of(key), elements, into),
        None => {
            let elements = object.elements(alloc, key)?;
            add_elements(alloc, owner, type_of(key), elements.as_slice(), into)
        }
    }
}

/// What a name is answered with whose object has no alias, where no record names a host.
fn by_records(
    alloc: Global,
    zone: &Zone,
    name: &Below,
    object: &IfaObject,
    kind: u16,
) -> Result<Option<Asked>, NoMemory>
    requires name { IsBelow (seen_below name.now) }
    requires alias { is_some (item_of Alias (members object.now)) ≡ false }
    ensures { IfOk result (λ r. IfSome r (λ a. seen_asked a ≡ in_zone zone.now (lone (seen_below name.now) (members object.now)) kind)) }
{
    let Some(key) = plain_item(kind) else {
        return Ok(None);
    };
    let owner = name.owner(alloc)?;
    let mut found = Resources::new(alloc);
    if !add_item(alloc, owner.as_slice(), object, key, &mut found)? {
        return Ok(None);
    }
    Ok(Some(Asked::Done(or_no_data(alloc, zone, found)?)))
}

/// The name of a host element, where it is the same at each node.
fn name_anywhere(element: &Element) -> Option<Name>
    ensures { IfSome result (λ t. (n : NodeOf) → host_of n element.now ≡ Some t) }
{
    match element {
        Element::Host(text) => absolute_name(text.as_slice()),
        _ => None,
    }
}

/// The name of the first of these elements, where it is the same at each node.
fn first_name(elements: &[Element]) -> Option<Name>
    ensures { IfSome result (λ t. (n : NodeOf) → option_and_then (host_of n) (first elements.now) ≡ Some t) }
{
    match elements.first() {
        Some(element) => name_anywhere(element),
        None => None,
    }
}

/// What a name is answered with whose object has an alias of a name that is the same at each node, where it is made.
fn by_alias(
    alloc: Global,
    name: &Below,
    object: &IfaObject,
    kind: u16,
) -> Result<Option<Asked>, NoMemory>
    requires { IsBelow (seen_below name.now) }
    ensures { IfOk result (λ r. IfSome r (λ a. (z : ZoneOf) → seen_asked a ≡ in_zone z (lone (seen_below name.now) (members object.now)) kind)) }
{
    let Some(elements) = object.made(Key::Alias) else {
        return Ok(None);
    };
    let Some(target) = first_name(elements) else {
        return Ok(None);
    };
    let owner = name.owner(alloc)?;
    Ok(Some(by_cname(alloc, kind, owner.as_slice(), target)?))
}

/// What a name below `bit.` is answered with, whose value is the object of this number, where that takes no node.
fn at_once(
    alloc: Global,
    zone: &Zone,
    name: &Below,
    at: usize,
    kind: u16,
    room: &Room,
) -> Result<Option<Asked>, NoMemory>
    requires { IsBelow (seen_below name.now) }
    ensures { IfOk result (λ r. IfSome r (λ a. (live : Live) (o : Members) → IsAt (objects_in room.now) at o → seen_asked a ≡ by_value live zone.now (seen_below name.now) kind (Some o))) }
{
    if name.path.len() > 0 {
        return Ok(None);
    }
    let Some(object) = room.simple(at) else {
        return Ok(None);
    };
    if object.has(Key::Alias) {
        return by_alias(alloc, name, object, kind);
    }
    by_records(alloc, zone, name, object, kind)
}

/// What a name below `bit.` is answered with, whose value is the object of this number.
pub(crate) fn by_number<N: Names>(
    alloc: Global,
    names: &N,
    zone: &Zone,
    name: &Below,
    at: usize,
    kind: u16,
    room: &mut Room,
) -> Result<Asked, Exhausted>
    requires name { IsBelow (seen_below name.now) }
    requires sound { IsSound (N.served names.now) room.old }
    ensures asked { IfOk result (λ a. (o : Members) → IsAt (objects_in room.old) at o → seen_asked a ≡ by_value (N.served names.now) zone.now (seen_below name.now) kind (Some o)) }
    ensures sound { OnOk result (IsSound (N.served names.now) room.new) }
    ensures held { OnOk result (held room.old ≤ held room.new) }
    ensures refused { IfErr result (GivesUp (N.served names.now) room.new) }
{
    match at_once(alloc, zone, name, at, kind, room)? {
        Some(asked) => Ok(asked),
        None => by_object(alloc, names, zone, name, at, kind, room),
    }
}
