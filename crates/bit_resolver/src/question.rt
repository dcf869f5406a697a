//! Answers of questions.

ghost use Rattle.std.specs.Prelude.{◌≡◌, ◌≤◌, ◌++◌, IfOk, IfErr, OnOk};
ghost use Rattle.domain_text.specs.Names.{IsName, IsWireLabel};
ghost use Rattle.dns_message.specs.Query.{query_of};
ghost use Rattle.import_expand.specs.Books.{Finds};
ghost use Rattle.import_expand.specs.Rooms.{objects_in, held, GivesUp, IsSound};
ghost use Rattle.bit_resolver.specs.Places.{IsPlace, place_of};
ghost use Rattle.bit_resolver.specs.Answers.{value_of, asked_at, after_records as after_records_of, chase as chase_of, is_refused as is_refused_of, answer_at, answer_to};
ghost use Rattle.bit_resolver.specs.Held.{HoldsValue, HoldsPlace, HoldsUnlessRefused, HoldsAsked};
ghost use Rattle.bit_resolver.specs.Laws.{IsLawful};
ghost use Rattle.bit_resolver.specs.Ends.{seen_place, seen_sections, seen_asked};
ghost use Rattle.bit_resolver.specs.declared.limits.TheConstants.{MOST_CNAMES as GREATEST};

use crate::cases::{answered, apex_records, negative, or_no_data};
use crate::limits::{CLASS_IN, MOST_CNAMES};
use crate::place::{Place, find_place, is_domain_label, value_name};
use crate::resource::{Asked, Resources, Sections, append};
use crate::rr_type;
use crate::simple::by_number;
use crate::zone::Zone;
use dns_message::{Question, rcode};
use domain_text::Name;
use import_expand::{Exhausted, Names, Room};
use nmc_base::NoMemory;
use std::alloc::Global;

/// The number of the object of the name `d/` and this label. None exactly where the label is no domain label, or the name isn't served.
fn value<N: Names>(
    alloc: Global,
    names: &N,
    x: &[u8],
    room: &mut Room,
) -> Result<Option<usize>, Exhausted>
    requires name { IsWireLabel x.now }
    requires sound { IsSound (N.served names.now) room.old }
    ensures found { IfOk result (λ o. Finds (objects_in room.new) o (value_of (N.served names.now) x.now)) }
    ensures least { OnOk result (HoldsValue (N.served names.now) (held room.new) x.now) }
    ensures sound { OnOk result (IsSound (N.served names.now) room.new) }
    ensures held { OnOk result (held room.old ≤ held room.new) }
    ensures refused { IfErr result (GivesUp (N.served names.now) room.new) }
{
    if !is_domain_label(x) {
        return Ok(None);
    }
    let name = value_name(x);
    let found = room.named(alloc, names, &name[..2 + x.len()])?;
    Ok(found)
}

/// What one name is answered with.
fn ask<N: Names>(
    alloc: Global,
    names: &N,
    zone: &Zone,
    kind: u16,
    place: &Place,
    room: &mut Room,
) -> Result<Asked, Exhausted>
    requires place { IsPlace (seen_place place.now) }
    requires sound { IsSound (N.served names.now) room.old }
    ensures asked { IfOk result (λ a. seen_asked a ≡ asked_at (N.served names.now) zone.now kind (seen_place place.now)) }
    ensures least { OnOk result (HoldsPlace (N.served names.now) (held room.new) (seen_place place.now)) }
    ensures sound { OnOk result (IsSound (N.served names.now) room.new) }
    ensures held { OnOk result (held room.old ≤ held room.new) }
    ensures refused { IfErr result (GivesUp (N.served names.now) room.new) }
{
    match place {
        Place::Outside => Ok(Asked::Done(answered(alloc, Resources::new(alloc)))),
        Place::Apex => {
            let found = apex_records(alloc, zone, kind)?;
            Ok(Asked::Done(or_no_data(alloc, zone, found)?))
        }
        Place::Below(name) => match value(alloc, names, name.x.as_slice(), room)? {
            None => Ok(Asked::Done(negative(alloc, zone, rcode::NXDOMAIN)?)),
            Some(at) => {
                let asked = by_number(alloc, names, zone, name, at, kind, room)?;
                Ok(asked)
            }
        },
    }
}

/// An answer behind the records that were answered before.
fn after_records(before: Resources, last: Sections) -> Result<Sections, NoMemory>
    ensures { IfOk result (λ s. seen_sections s ≡ after_records_of before.items (seen_sections last)) }
{
    if before.len() == 0 {
        return Ok(last);
    }
    let mut answer = before;
    append(last.answer, &mut answer)?;
    Ok(Sections {
        answer,
        authority: last.authority,
        rcode: last.rcode,
        aa: true,
    })
}

/// The place of the name that is asked next.
fn target_place(alloc: Global, target: Name) -> Result<Place, NoMemory>
    ensures place { IfOk result (λ p. seen_place p ≡ place_of target) }
    ensures named { IfOk result (λ p. IsPlace (seen_place p)) }
{
    find_place(alloc, target.wire())
}

/// Asks a name, and each name that it is renamed to.
fn chase<N: Names>(
    alloc: Global,
    names: &N,
    zone: &Zone,
    kind: u16,
    first: Place,
    room: &mut Room,
) -> Result<Sections, Exhausted>
    requires place { IsPlace (seen_place first) }
    requires sound { IsSound (N.served names.now) room.old }
    ensures answer { IfOk result (λ s. seen_sections s ≡ chase_of (N.served names.now) zone.now kind GREATEST (seen_place first)) }
    ensures least { OnOk result (HoldsPlace (N.served names.now) (held room.new) (seen_place first)) }
    ensures refused { IfErr result (GivesUp (N.served names.now) room.new) }
{
    let mut before = Resources::new(alloc);
    let mut place = first;
    let mut left = MOST_CNAMES;
    while left > 0 {
        match ask(alloc, names, zone, kind, &place, room)? {
            Asked::Done(last) => {
                let sections = after_records(before, last)?;
                return Ok(sections);
            }
            Asked::Renamed(found, target) => {
                append(found, &mut before)?;
                place = target_place(alloc, target)?;
            }
        }
        left -= 1;
    }
    Ok(answered(alloc, before))
}

/// Whether a question is refused: it has another class, asks for a zone transfer, or its name isn't within `bit.`
fn is_refused(kind: u16, class: u16, place: &Place) -> bool
    ensures { result ≡ is_refused_of kind class (seen_place place.now) }
{
    class != CLASS_IN || kind == rr_type::IXFR || kind == rr_type::AXFR || place.is_outside()
}

/// The answer of a question whose name has this place.
fn answer_place<N: Names>(
    alloc: Global,
    names: &N,
    zone: &Zone,
    kind: u16,
    class: u16,
    place: Place,
    room: &mut Room,
) -> Result<Sections, Exhausted>
    requires place { IsPlace (seen_place place) }
    requires sound { IsSound (N.served names.now) room.old }
    ensures answer { IfOk result (λ s. seen_sections s ≡ answer_at (N.served names.now) zone.now kind class (seen_place place)) }
    ensures least { OnOk result (HoldsUnlessRefused (N.served names.now) (held room.new) kind class (seen_place place)) }
    ensures refused { IfErr result (GivesUp (N.served names.now) room.new) }
{
    if is_refused(kind, class, &place) {
        return Ok(Sections {
            answer: Resources::new(alloc),
            authority: Resources::new(alloc),
            rcode: rcode::REFUSED,
            aa: false,
        });
    }
    let sections = chase(alloc, names, zone, kind, place, room)?;
    Ok(sections)
}

/// The answer of a question.
fn answer_question<N: Names>(
    alloc: Global,
    names: &N,
    zone: &Zone,
    asked: &Question<'_>,
    room: &mut Room,
) -> Result<Sections, Exhausted>
    requires name { IsName asked.now.name.now }
    requires sound { IsSound (N.served names.now) room.old }
    ensures answer { IfOk result (λ s. seen_sections s ≡ answer_to (N.served names.now) zone.now (query_of asked.now)) }
    ensures least { OnOk result (HoldsAsked (N.served names.now) (held room.new) (query_of asked.now)) }
    ensures refused { IfErr result (GivesUp (N.served names.now) room.new) }
{
    let place = find_place(alloc, asked.name)?;
    let sections = answer_place(alloc, names, zone, asked.kind, asked.class, place, room)?;
    Ok(sections)
}

/// The answer of a question (RFC 1034, 4.3.2): from the value of `d/x` for a name at or below `x.bit.`, from the zone
/// itself for `bit.`, and REFUSED for any other name, another class than IN, and zone transfers. Its values, and
/// the entries of them, are held in the room, and in the place of what it held.
pub fn resolve<N: Names>(
    alloc: Global,
    names: &N,
    zone: &Zone,
    asked: &Question<'_>,
    room: &mut Room,
) -> Result<Sections, Exhausted>
    requires name { IsName asked.now.name.now }
    // It is the definition's.
    ensures answer { IfOk result (λ s. seen_sections s ≡ answer_to (N.served names.now) zone.now (query_of asked.now)) }
    // At least the value of the question's own name is counted.
    ensures least { OnOk result (HoldsAsked (N.served names.now) (held room.new) (query_of asked.now)) }
    // Of each answer: why each record stands where it does, and that it has at most eight CNAME records.
    ensures lawful { IfOk result (λ s. IsLawful asked.now.kind GREATEST (seen_sections s)) }
    // An answer is refused where what has to be held next doesn't fit, and for that cause alone.
    ensures refused { IfErr result (GivesUp (N.served names.now) room.new) }
{
    room.clear(alloc);
    let sections = answer_question(alloc, names, zone, asked, room)?;
    Ok(sections)
}
