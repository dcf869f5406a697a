//! The way down to a name.

ghost use Rattle.std.specs.Prelude.{◌≡◌, ◌<◌, ◌≤◌, [], List, drop, get_or, length, IfOk, IfErr, OnOk};
ghost use Rattle.import_expand.specs.Sources.{Live, child_of};
ghost use Rattle.serde_json.specs.Data.{Members};
ghost use Rattle.import_expand.specs.Books.{IsAt};
ghost use Rattle.import_expand.specs.Rooms.{objects_in, held, GivesUp, IsNode, IsSound};
ghost use Rattle.bit_resolver.specs.Nodes.{Node as NodeOf, node_at};
ghost use Rattle.bit_resolver.specs.Places.{IsBelow, own_of, top_of};
ghost use Rattle.bit_resolver.specs.Ends.{Ends, IsStopBelow, IsTop, ShowsNode, Stops, seen_below};

use crate::node::Node;
use crate::place::Below;
use domain_text::Name;
use ifa_value::Key;
use import_expand::{Exhausted, Names, Room};
use nmc_base::NoMemory;
use std::alloc::Global;

/// How the way down to a name ends: at its node; without one; at a cut on the way; or at a node on the way that is moved,
/// with the name that it is moved to. The latter two stand so many labels above the name.
#[derive(Drop)]
pub(crate) enum Walk<'a> {
    Arrived(Node<'a>),
    Missing,
    Cut(Node<'a>, usize),
    Moved(Node<'a>, usize, Name),
}

/// What ends a way at a node that stands above the name, if anything does: other servers have authority over it, or it is
/// moved to a name.
#[derive(Drop)]
pub(crate) enum Stop<'a> {
    Free,
    Cut(Node<'a>),
    Moved(Node<'a>, Name),
}

/// The node so many labels above a name, by its number in the room.
fn node_of<'a>(
    alloc: Global,
    name: &Below,
    top: &'a Name,
    left: usize,
    of: usize,
) -> Result<Node<'a>, NoMemory>
    requires name { IsBelow (seen_below name.now) }
    requires top { top.now ≡ top_of (seen_below name.now) }
    requires left { left ≤ length name.now.path.items }
    ensures own { IfOk result (λ n. n.own ≡ own_of (seen_below name.now) (drop left name.now.path.items)) }
    ensures top { IfOk result (λ n. n.top.now ≡ top.now) }
    ensures of { IfOk result (λ n. n.of ≡ of) }
{
    let own = name.own_at(alloc, top, left)?;
    Ok(Node { own, top, of })
}

/// What ends a way at a node.
fn stop_of<'a>(alloc: Global, node: Node<'a>, room: &Room) -> Result<Stop<'a>, NoMemory>
    ensures stops { IfOk result (λ s. (m : NodeOf) → ShowsNode room.now node.entry m → Stops room.now m s) }
    ensures top { IfOk result (λ s. IsStopBelow node.entry.top.now s) }
{
    if node.is_cut(alloc, room)? {
        return Ok(Stop::Cut(node));
    }
    match node.target(alloc, Key::Translate, room)? {
        Some(target) => Ok(Stop::Moved(node, target)),
        None => Ok(Stop::Free),
    }
}

/// What ends the way to a name at the node of this number, so many labels above the name. Its domain name is made only where
/// the node has an item that may end the way.
fn stop_at<'a>(
    alloc: Global,
    name: &Below,
    top: &'a Name,
    left: usize,
    of: usize,
    room: &Room,
) -> Result<Stop<'a>, NoMemory>
    requires name { IsBelow (seen_below name.now) }
    requires top { top.now ≡ top_of (seen_below name.now) }
    requires left { left ≤ length name.now.path.items }
    ensures stops { IfOk result (λ s. (live : Live) (o : Members) → let m = node_at live o (seen_below name.now) (drop left name.now.path.items) in
        IsSound live room.now → IsNode room.now of m.of → Stops room.now m s) }
    ensures top { IfOk result (λ s. IsStopBelow top.now s) }
{
    if room.is_plain(of) {
        return Ok(Stop::Free);
    }
    let node = node_of(alloc, name, top, left, of)?;
    let stop = stop_of(alloc, node, room)?;
    Ok(stop)
}

/// The number of the node below a node, so many labels above the name. Without sources there is no such node.
fn child_at<N: Names>(
    alloc: Global,
    names: &N,
    name: &Below,
    left: usize,
    of: usize,
    room: &mut Room,
) -> Result<usize, Exhausted>
    requires left { left < length name.now.path.items }
    requires sound { IsSound (N.served names.now) room.old }
    ensures found { IfOk result (λ k. (ns : List Members) → IsNode room.old of ns → IsNode room.new k (child_of (N.served names.now) ns (get_or name.now.path.items left []))) }
    ensures sound { OnOk result (IsSound (N.served names.now) room.new) }
    ensures held { OnOk result (held room.old ≤ held room.new) }
    ensures refused { IfErr result (GivesUp (N.served names.now) room.new) }
{
    let at = room.child(alloc, names, of, name.path[left].as_slice())?;
    Ok(at)
}

/// Walks down to a name, which ends with the name at the top, whose value is the object of this number.
pub(crate) fn go_down<'a, N: Names>(
    alloc: Global,
    names: &N,
    name: &Below,
    top: &'a Name,
    at: usize,
    room: &mut Room,
) -> Result<Walk<'a>, Exhausted>
    requires name { IsBelow (seen_below name.now) }
    requires top { top.now ≡ top_of (seen_below name.now) }
    requires sound { IsSound (N.served names.now) room.old }
    ensures ends { IfOk result (λ w. (o : Members) → IsAt (objects_in room.old) at o → Ends (N.served names.now) room.new (seen_below name.now) o w) }
    ensures sound { OnOk result (IsSound (N.served names.now) room.new) }
    ensures held { OnOk result (held room.old ≤ held room.new) }
    ensures top { IfOk result (λ w. IsTop (seen_below name.now) w) }
    ensures refused { IfErr result (GivesUp (N.served names.now) room.new) }
{
    let mut of = room.top(alloc, names, at)?;
    let mut left = name.path.len();
    while left > 0 {
        match stop_at(alloc, name, top, left, of, room)? {
            Stop::Cut(node) => return Ok(Walk::Cut(node, left)),
            Stop::Moved(node, target) => return Ok(Walk::Moved(node, left, target)),
            Stop::Free => {}
        }
        left -= 1;
        of = child_at(alloc, names, name, left, of, room)?;
        if room.len(of) == 0 {
            return Ok(Walk::Missing);
        }
    }
    let node = node_of(alloc, name, top, 0, of)?;
    Ok(Walk::Arrived(node))
}
