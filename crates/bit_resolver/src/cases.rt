//! What a node answers.

ghost use Rattle.std.specs.Prelude.{◌≡◌, ◌≤◌, ◌++◌, [], if◌then◌else◌, drop, length, IfOk, IfErr, OnOk, Some};
ghost use Rattle.serde_json.specs.Data.{Members};
ghost use Rattle.import_expand.specs.Books.{IsAt};
ghost use Rattle.import_expand.specs.Rooms.{objects_in, held, GivesUp, IsSound};
ghost use Rattle.bit_resolver.specs.Nodes.{Node as NodeOf};
ghost use Rattle.bit_resolver.specs.Places.{IsBelow, own_of, top_of};
ghost use Rattle.bit_resolver.specs.Answers.{negative as negative_of, or_no_data as or_no_data_of, apex_records as apex_records_of, answered as answered_of, referral as referral_of, is_asked as is_asked_of, records_at, matching as matching_of, record_items, by_cname as by_cname_of, in_zone as in_zone_of, at_cut as at_cut_of, at_name as at_name_of, by_dname as by_dname_of, dname_of, replaced, by_value};
ghost use Rattle.bit_resolver.specs.Ends.{seen_sections, seen_asked, ShowsNode, seen_below};

use crate::node::{Node, type_of};
use crate::place::{Below, name_before};
use crate::resource::{Asked, Resource, Resources, Sections, add, alone};
use crate::rr_type;
use crate::way::{Walk, go_down};
use crate::zone::Zone;
use dns_message::rcode;
use domain_text::Name;
use ifa_value::Key;
use import_expand::{Exhausted, Names, Room};
use nmc_base::NoMemory;
use std::alloc::Global;

/// Records with authority.
pub(crate) fn answered(alloc: Global, answer: Resources) -> Sections
    ensures { seen_sections result ≡ answered_of answer.items }
{
    Sections {
        answer,
        authority: Resources::new(alloc),
        rcode: rcode::NOERROR,
        aa: true,
    }
}

/// No records, and the SOA in the authority section (RFC 2308, 2).
pub(crate) fn negative(alloc: Global, zone: &Zone, rcode: u8) -> Result<Sections, NoMemory>
    ensures { IfOk result (λ s. seen_sections s ≡ negative_of zone.now rcode) }
{
    let soa = zone.soa(alloc)?;
    let authority = alone(alloc, soa)?;
    Ok(Sections {
        answer: Resources::new(alloc),
        authority,
        rcode,
        aa: true,
    })
}

/// The records, or that there are none.
pub(crate) fn or_no_data(
    alloc: Global,
    zone: &Zone,
    answer: Resources,
) -> Result<Sections, NoMemory>
    ensures { IfOk result (λ s. seen_sections s ≡ or_no_data_of zone.now answer.items) }
{
    if answer.len() == 0 {
        return negative(alloc, zone, rcode::NOERROR);
    }
    Ok(answered(alloc, answer))
}

/// A referral to these name servers.
fn referral(alloc: Global, authority: Resources) -> Sections
    ensures { seen_sections result ≡ referral_of authority.items }
{
    Sections {
        answer: Resources::new(alloc),
        authority,
        rcode: rcode::NOERROR,
        aa: false,
    }
}

/// The records of `bit.` of a type.
pub(crate) fn apex_records(alloc: Global, zone: &Zone, kind: u16) -> Result<Resources, NoMemory>
    ensures { IfOk result (λ v. v.items ≡ apex_records_of zone.now kind) }
{
    let mut found = Resources::new(alloc);
    if kind == rr_type::SOA || kind == rr_type::ANY {
        add(&mut found, zone.soa(alloc)?)?;
    }
    if kind == rr_type::NS || kind == rr_type::ANY {
        add(&mut found, zone.ns(alloc)?)?;
    }
    Ok(found)
}

/// Whether the records of an item match a QTYPE.
fn is_asked(kind: u16, key: Key) -> bool
    ensures { result ≡ is_asked_of kind key }
{
    kind == rr_type::ANY || kind == type_of(key)
}

/// Adds the records of an item, where they match a QTYPE.
fn add_asked(
    alloc: Global,
    node: &Node<'_>,
    kind: u16,
    key: Key,
    room: &Room,
    into: &mut Resources,
) -> Result<(), NoMemory>
    ensures { OnOk result ((n : NodeOf) → ShowsNode room.now node.now n → into.new.items ≡ into.old.items ++ (if is_asked_of kind key then records_at key n else [])) }
{
    if is_asked(kind, key) {
        node.add_item(alloc, key, room, into)?;
    }
    Ok(())
}

/// The records of these items that match a QTYPE.
fn matching(
    alloc: Global,
    node: &Node<'_>,
    kind: u16,
    keys: &[Key],
    room: &Room,
) -> Result<Resources, NoMemory>
    ensures { IfOk result (λ v. (n : NodeOf) → ShowsNode room.now node.now n → v.items ≡ matching_of n kind keys.now) }
{
    let mut found = Resources::new(alloc);
    for key in keys {
        add_asked(alloc, node, kind, *key, room, &mut found)?;
    }
    Ok(found)
}

/// The records of a node that match a QTYPE.
fn matching_any(
    alloc: Global,
    node: &Node<'_>,
    kind: u16,
    room: &Room,
) -> Result<Resources, NoMemory>
    ensures { IfOk result (λ v. (n : NodeOf) → ShowsNode room.now node.now n → v.items ≡ matching_of n kind record_items) }
{
    let keys = [
        Key::Ip,
        Key::Mx,
        Key::Txt,
        Key::Ip6,
        Key::Srv,
        Key::Translate,
        Key::Sshfp,
        Key::Tls,
    ];
    let found = matching(alloc, node, kind, &keys, room)?;
    Ok(found)
}

/// A CNAME record, and the name that is asked next unless the record itself is asked for.
pub(crate) fn by_cname(
    alloc: Global,
    kind: u16,
    own: &[u8],
    target: Name,
) -> Result<Asked, NoMemory>
    ensures { IfOk result (λ a. seen_asked a ≡ by_cname_of kind own.now target) }
{
    let record = Resource::new(alloc, own, rr_type::CNAME, target.wire())?;
    let found = alone(alloc, record)?;
    if kind == rr_type::CNAME || kind == rr_type::ANY {
        return Ok(Asked::Done(answered(alloc, found)));
    }
    Ok(Asked::Renamed(found, target))
}

/// What the node of a name answers that is no cut.
fn in_zone(
    alloc: Global,
    zone: &Zone,
    node: &Node<'_>,
    kind: u16,
    room: &Room,
) -> Result<Asked, NoMemory>
    ensures { IfOk result (λ a. (n : NodeOf) → ShowsNode room.now node.now n → seen_asked a ≡ in_zone_of zone.now n kind) }
{
    match node.target(alloc, Key::Alias, room)? {
        None => {
            let found = matching_any(alloc, node, kind, room)?;
            Ok(Asked::Done(or_no_data(alloc, zone, found)?))
        }
        Some(target) => {
            let asked = by_cname(alloc, kind, node.own.wire(), target)?;
            Ok(asked)
        }
    }
}

/// What a cut at the name itself answers: DS stands above the cut.
fn at_cut(
    alloc: Global,
    zone: &Zone,
    node: &Node<'_>,
    kind: u16,
    room: &Room,
) -> Result<Sections, NoMemory>
    ensures { IfOk result (λ s. (n : NodeOf) → ShowsNode room.now node.now n → seen_sections s ≡ at_cut_of zone.now n kind) }
{
    if kind == rr_type::DS {
        let found = node.records(alloc, Key::Ds, room)?;
        let sections = or_no_data(alloc, zone, found)?;
        return Ok(sections);
    }
    let servers = node.records(alloc, Key::Ns, room)?;
    Ok(referral(alloc, servers))
}

/// What the node of a name answers.
fn at_name(
    alloc: Global,
    zone: &Zone,
    node: &Node<'_>,
    kind: u16,
    room: &Room,
) -> Result<Asked, NoMemory>
    ensures { IfOk result (λ a. (n : NodeOf) → ShowsNode room.now node.now n → seen_asked a ≡ at_name_of zone.now n kind) }
{
    if node.is_cut(alloc, room)? {
        return Ok(Asked::Done(at_cut(alloc, zone, node, kind, room)?));
    }
    let asked = in_zone(alloc, zone, node, kind, room)?;
    Ok(asked)
}

/// A DNAME record, and the CNAME that it makes of a name, or that the new name is too long.
fn by_dname(
    alloc: Global,
    dname: Resource,
    own: &Name,
    target: Option<Name>,
) -> Result<Asked, NoMemory>
    ensures { IfOk result (λ a. seen_asked a ≡ by_dname_of dname own.now target) }
{
    let mut found = alone(alloc, dname)?;
    match target {
        None => Ok(Asked::Done(Sections {
            answer: found,
            authority: Resources::new(alloc),
            rcode: rcode::YXDOMAIN,
            aa: true,
        })),
        Some(target) => {
            let record = Resource::new(alloc, own.wire(), rr_type::CNAME, target.wire())?;
            add(&mut found, record)?;
            Ok(Asked::Renamed(found, target))
        }
    }
}

/// What a node answers that is moved to another name, so many labels above the name that is asked.
fn moved(
    alloc: Global,
    name: &Below,
    node: &Node<'_>,
    left: usize,
    target: &Name,
) -> Result<Asked, NoMemory>
    requires name { IsBelow (seen_below name.now) }
    requires top { node.now.top.now ≡ top_of (seen_below name.now) }
    requires left { left ≤ length name.now.path.items }
    ensures { IfOk result (λ a. let b = seen_below name.now in
        seen_asked a ≡ by_dname_of (dname_of node.now.own target.now) (own_of b b.path) (replaced b (drop left b.path) target.now)) }
{
    let own = name.own_at(alloc, node.top, 0)?;
    let renamed = name_before(alloc, &name.path[..left], target)?;
    let dname = Resource::new(alloc, node.own.wire(), rr_type::DNAME, target.wire())?;
    by_dname(alloc, dname, &own, renamed)
}

/// What a name below `bit.` is answered with, whose value is this object.
pub(crate) fn by_object<N: Names>(
    alloc: Global,
    names: &N,
    zone: &Zone,
    name: &Below,
    at: usize,
    kind: u16,
    room: &mut Room,
) -> Result<Asked, Exhausted>
    requires name { IsBelow (seen_below name.now) }
    requires sound { IsSound (N.served names.now) room.old }
    ensures asked { IfOk result (λ a. (o : Members) → IsAt (objects_in room.old) at o → seen_asked a ≡ by_value (N.served names.now) zone.now (seen_below name.now) kind (Some o)) }
    ensures sound { OnOk result (IsSound (N.served names.now) room.new) }
    ensures held { OnOk result (held room.old ≤ held room.new) }
    ensures refused { IfErr result (GivesUp (N.served names.now) room.new) }
{
    let top = name.top();
    match go_down(alloc, names, name, &top, at, room)? {
        Walk::Missing => Ok(Asked::Done(negative(alloc, zone, rcode::NXDOMAIN)?)),
        Walk::Cut(node, _) => {
            let servers = node.records(alloc, Key::Ns, room)?;
            Ok(Asked::Done(referral(alloc, servers)))
        }
        Walk::Moved(node, left, target) => {
            let asked = moved(alloc, name, &node, left, &target)?;
            Ok(asked)
        }
        Walk::Arrived(node) => {
            let asked = at_name(alloc, zone, &node, kind, room)?;
            Ok(asked)
        }
    }
}
