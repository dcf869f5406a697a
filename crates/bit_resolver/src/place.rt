//! Where a name stands in the tree of names.

ghost use Rattle.std.specs.Prelude.{◌≡◌, ◌↔◌, IsTrue, ◌≤◌, ◌++◌, ◌∷◌, codes, drop, length, option_map, reverse, take, ◌+◌, IfOk, OnOk};
ghost use Rattle.std.specs.List.{AllByRecursion, list_all};
ghost use Rattle.domain_text.specs.Names.{IsName, IsWireLabel, joined_to, lower, if_fits};
ghost use Rattle.bit_resolver.specs.Places.{apex_name as apex_wire, next_of, place_of, own_of, top_of, is_domain_label as is_domain_label_of, is_letter_digit_hyphen as is_letter_digit_hyphen_of, is_hyphen_first as is_hyphen_first_of, is_outside as is_outside_of, IsPlace, IsBelow};
ghost use Rattle.bit_resolver.specs.Ends.{seen_place, seen_below};
ghost use Rattle.bit_resolver.specs.declared.place.TheConstants.{ROOM};

use crate::short_bytes::ShortBytes;
use domain_text::{LONGEST_WIRE, Name};
use nmc_base::{Bytes, NoMemory};
use std::alloc::Global;

/// The name `bit.` on the wire.
pub(crate) const APEX: &[u8] = b"\x03bit\0";

/// Room for a label, its length and `bit.`, or for a label behind `d/`.
const ROOM: usize = 69;

/// A name below `bit.`, in lower case: the label right below `bit`, and the labels below that, the lowest first.
#[derive(Drop)]
pub(crate) struct Below {
    pub(crate) x: ShortBytes,
    pub(crate) path: Vec<ShortBytes>,
}

/// Where a name stands.
#[derive(Drop)]
pub(crate) enum Place {
    /// Not within `bit.`.
    Outside,
    /// The name `bit.` itself.
    Apex,
    Below(Below),
}

/// The first label, and what stands behind it.
fn next_label(wire: &[u8]) -> Option<(&[u8], &[u8])>
    ensures { option_map (λ p. (p.0.now, p.1.now)) result ≡ next_of wire.now }
{
    let (length, rest) = wire.split_first()?;
    let length = *length as usize;
    if length == 0 || length > rest.len() {
        return None;
    }
    Some((&rest[..length], &rest[length..]))
}

/// Whether the bytes are the name `bit.`, in any case. Most askers write it in lower case, which is compared first.
fn is_apex(wire: &[u8]) -> bool
    ensures { IsTrue result ↔ (lower wire.now ≡ apex_wire) }
{
    if wire == APEX {
        return true;
    }
    wire.eq_ignore_ascii_case(APEX)
}

/// The place of a name, in one walk over its labels.
fn place_in(alloc: Global, wire: &[u8]) -> Result<Place, NoMemory>
    requires { IsName wire.now }
    ensures { IfOk result (λ p. seen_place p ≡ place_of wire.now) }
{
    if is_apex(wire) {
        return Ok(Place::Apex);
    }
    let mut path = Vec::new(alloc);
    let mut rest = wire;
    while let Some((label, more)) = next_label(rest) {
        let label = ShortBytes::lower(alloc, label)?;
        if is_apex(more) {
            return Ok(Place::Below(Below { x: label, path }));
        }
        path.push(label)?;
        rest = more;
    }
    Ok(Place::Outside)
}

/// The place of a name.
pub(crate) fn find_place(alloc: Global, wire: &[u8]) -> Result<Place, NoMemory>
    requires { IsName wire.now }
    ensures place { IfOk result (λ p. seen_place p ≡ place_of wire.now) }
    ensures named { IfOk result (λ p. IsPlace (seen_place p)) }
{
    let place = place_in(alloc, wire)?;
    Ok(place)
}

impl Place {
    /// Whether the name isn't within `bit.`.
    pub(crate) fn is_outside(&self) -> bool
        ensures { result ≡ is_outside_of (seen_place self.now) }
    {
        match self {
            Place::Outside => true,
            Place::Apex => false,
            Place::Below(_) => false,
        }
    }
}

/// Appends a label behind its length.
fn add_label(label: &[u8], into: &mut Bytes) -> Result<(), NoMemory>
    requires { IsWireLabel label.now }
    ensures { OnOk result (into.new ≡ into.old ++ length label.now ∷ label.now) }
{
    into.extend(&[label.len() as u8])?;
    into.extend(label)
}

/// Labels, the lowest first, before the name that they stand below.
fn joined(alloc: Global, labels: &[ShortBytes], end: &[u8]) -> Result<Bytes, NoMemory>
    requires { AllByRecursion IsWireLabel labels.now }
    ensures { IfOk result (λ b. b ≡ joined_to labels.now end.now) }
{
    let mut found = Bytes::new(alloc);
    for label in labels {
        add_label(label.as_slice(), &mut found)?;
    }
    found.extend(end)?;
    Ok(found)
}

/// The name that these labels make below a name. None exactly where it would have more than 255 bytes.
#[tactic(auto, using(crate::proofs::PlaceLemmas::fits_is_name, crate::proofs::PlaceLemmas::too_long, crate::proofs::PlaceLemmas::short_enough))]
pub(crate) fn name_before(
    alloc: Global,
    labels: &[ShortBytes],
    end: &Name,
) -> Result<Option<Name>, NoMemory>
    requires { AllByRecursion IsWireLabel labels.now }
    ensures { IfOk result (λ o. o ≡ if_fits (joined_to labels.now end.now)) }
{
    let wire = joined(alloc, labels, end.wire())?;
    if wire.as_slice().len() > LONGEST_WIRE {
        return Ok(None);
    }
    match Name::from_wire(wire.as_slice()) {
        Some(name) => Ok(Some(name)),
        None => unreachable!(),
    }
}

/// The bytes, with a piece written over those behind the first so many.
fn with_piece(bytes: [u8; ROOM], first: usize, piece: &[u8]) -> [u8; ROOM]
    requires { first + length piece.now ≤ ROOM }
    ensures { take (first + length piece.now) result ≡ take first bytes ++ piece.now }
{
    let mut bytes = bytes;
    bytes[first..first + piece.len()].copy_from_slice(piece);
    bytes
}

/// The name `d/` and this label, and more bytes behind it.
pub(crate) fn value_name(label: &[u8]) -> [u8; ROOM]
    requires { IsWireLabel label.now }
    ensures { take (2 + length label.now) result ≡ codes "d/" ++ label.now }
{
    let name = with_piece([0; ROOM], 0, b"d/");
    with_piece(name, 2, label)
}

/// The name of a label right below `bit.` on the wire, and more bytes behind it.
fn top_wire(label: &[u8]) -> [u8; ROOM]
    requires { IsWireLabel label.now }
    ensures { take (1 + length label.now + 5) result ≡ length label.now ∷ (label.now ++ apex_wire) }
{
    let wire = [label.len() as u8; ROOM];
    let wire = with_piece(wire, 1, label);
    with_piece(wire, 1 + label.len(), APEX)
}

impl Below {
    /// The name right below `bit.` that this one ends with.
    pub(crate) fn top(&self) -> Name
        requires { IsBelow (seen_below self.now) }
        ensures { result ≡ top_of (seen_below self.now) }
    {
        let x = self.x.as_slice();
        let wire = top_wire(x);
        match Name::from_wire(&wire[..1 + x.len() + APEX.len()]) {
            Some(name) => name,
            None => unreachable!(),
        }
    }

    /// That name as the owner of a record.
    pub(crate) fn owner(&self, alloc: Global) -> Result<ShortBytes, NoMemory>
        requires { IsBelow (seen_below self.now) }
        ensures { IfOk result (λ o. o ≡ top_of (seen_below self.now)) }
    {
        let x = self.x.as_slice();
        let wire = top_wire(x);
        ShortBytes::copy_of(alloc, &wire[..1 + x.len() + APEX.len()])
    }

    /// The domain name of the node so many labels above this name.
    pub(crate) fn own_at(&self, alloc: Global, top: &Name, left: usize) -> Result<Name, NoMemory>
        requires name { IsBelow (seen_below self.now) }
        requires top { top.now ≡ top_of (seen_below self.now) }
        requires left { left ≤ length self.now.path.items }
        ensures { IfOk result (λ n. n ≡ own_of (seen_below self.now) (drop left self.now.path.items)) }
    {
        if left == self.path.len() {
            return Ok(top.copy());
        }
        match name_before(alloc, &self.path[left..], top)? {
            Some(name) => Ok(name),
            None => unreachable!(),
        }
    }
}

/// Whether a label is made of letters, digits and inner hyphens.
pub(crate) fn is_domain_label(x: &[u8]) -> bool
    ensures { result ≡ is_domain_label_of x.now }
{
    has_domain_bytes(x) && !is_hyphen_first(x) && !is_hyphen_last(x)
}

fn has_domain_bytes(x: &[u8]) -> bool
    ensures { result ≡ list_all is_letter_digit_hyphen_of x.now }
{
    x.iter().all(|c| is_letter_digit_hyphen(*c))
}

fn is_letter_digit_hyphen(c: u8) -> bool
    ensures { result ≡ is_letter_digit_hyphen_of c }
{
    c.is_ascii_lowercase() || c.is_ascii_digit() || c == b'-'
}

fn is_hyphen_first(x: &[u8]) -> bool
    ensures { result ≡ is_hyphen_first_of x.now }
{
    match x.split_first() {
        Some((first, _)) => *first == b'-',
        None => false,
    }
}

fn is_hyphen_last(x: &[u8]) -> bool
    ensures { result ≡ is_hyphen_first_of (reverse x.now) }
{
    match x.split_last() {
        Some((last, _)) => *last == b'-',
        None => false,
    }
}
