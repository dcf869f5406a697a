//! Imports and maps: the nodes that they make, and what is held for them.

ghost use Rattle.std.specs.Prelude.{Some, None, nat_eq, ◌≤◌, if◌then◌else◌};
ghost use Rattle.std.specs.Cmp.Lexicographic.{pointwise};

use ifa_value::{Element, IfaObject, Key};
use import_expand::{Exhausted, MOST_HELD, Names, Room};
use std::alloc::Global;
use std::cell::Cell;
use std::process::Abort;
use std::test::Fail;

/// One name with a value, one that isn't served, and one value for all others; and how often a value was asked for.
#[derive(Drop)]
struct Fake<'a> {
    name: &'a [u8],
    value: &'a [u8],
    missing: &'a [u8],
    other: &'a [u8],
    asked: Cell<u32>,
}

impl<'a> Names for Fake<'a> {
    ghost served = { λ s name. if pointwise nat_eq name s.missing.now then None else if pointwise nat_eq name s.name.now then Some s.value.now else Some s.other.now };

    fn live(&self, name: &[u8]) -> Option<&[u8]> {
        self.asked.set(self.asked.get().wrapping_add(1));
        if name == self.missing {
            return None;
        }
        if name == self.name {
            Some(self.value)
        } else {
            Some(self.other)
        }
    }
}

fn names<'a>(value: &'a [u8], other: &'a [u8]) -> Fake<'a> {
    Fake {
        name: b"d/a",
        value,
        missing: b"d/none",
        other,
        asked: Cell::new(0),
    }
}

/// The last byte of an object's address, or 0.
fn mark(alloc: Global, object: &IfaObject) -> Result<u8, Fail> {
    let elements = object.elements(alloc, Key::Ip)?;
    match elements.item(0) {
        Some(Element::Ip4([_, _, _, last])) => Ok(*last),
        _ => Ok(0),
    }
}

/// The mark of the first source of a node that has an item, or 0.
fn first_mark(alloc: Global, room: &Room, of: usize, key: Key) -> Result<u8, Fail> {
    match room.first_with(of, key) {
        Some(object) => mark(alloc, object),
        None => Ok(0),
    }
}

/// What is looked at of a node: how many sources it has, and the marks of the first with an address and of the first with a
/// text.
#[derive(Clone, Copy, PartialEq, Eq, Debug)]
struct Seen {
    sources: usize,
    address: u8,
    text: u8,
}

fn shows(sources: usize, address: u8, text: u8) -> Seen {
    Seen {
        sources,
        address,
        text,
    }
}

fn look_at(alloc: Global, room: &Room, of: usize) -> Result<Seen, Fail> {
    let address = first_mark(alloc, room, of, Key::Ip)?;
    let text = first_mark(alloc, room, of, Key::Txt)?;
    Ok(shows(room.len(of), address, text))
}

/// What the node of `d/a` shows.
fn top_of(alloc: Global, names: &Fake<'_>) -> Result<Seen, Fail> {
    let mut room = Room::new(alloc);
    let object = room.named(alloc, names, b"d/a")?.ok_or("not served")?;
    let top = room.top(alloc, names, object)?;
    look_at(alloc, &room, top)
}

/// The node of `d/a` shows this.
fn gives(rt: &impl Abort, alloc: Global, names: &Fake<'_>, want: Seen) -> Result<(), Fail> {
    let found = top_of(alloc, names)?;
    assert!(rt; found == want);
    Ok(())
}

/// An object that imports nine names.
const NINE: &[u8] =
    b"{\"ip\":\"0.0.0.1\",\"import\":[[\"d/0\"],[\"d/1\"],[\"d/2\"],[\"d/3\"],[\"d/4\"],[\"d/5\"],[\"d/6\"],[\"d/7\"],[\"d/8\"]]}";

/// The value of `d/a`, which imports `d/a` eight times.
const RING: &[u8] =
    b"{\"ip\":\"0.0.0.1\",\"import\":[[\"d/a\"],[\"d/a\"],[\"d/a\"],[\"d/a\"],[\"d/a\"],[\"d/a\"],[\"d/a\"],[\"d/a\"]]}";

const BELOW: &[u8] = b"{\"ip\":\"0.0.0.1\",\"import\":[[\"d/b\",\"x.y\"]]}";

const SERVED: &[u8] =
    b"{\"map\":{\"x\":{\"ip\":\"0.0.0.4\"},\"y\":{\"ip\":\"0.0.0.2\",\"map\":{\"x\":{\"ip\":\"0.0.0.3\",\"txt\":5}}}}}";

#[test]
fn imports(rt: HostRuntime) -> Result<(), Fail> {
    let nine = names(NINE, b"{\"ip\":\"0.0.0.2\",\"txt\":5}");
    gives(&rt, rt.alloc(), &nine, shows(9, 1, 2))?;
    let below = names(BELOW, SERVED);
    gives(&rt, rt.alloc(), &below, shows(2, 1, 3))?;
    let none = names(
        b"{\"ip\":\"0.0.0.1\",\"import\":[[\"d/none\",\"x.y\"],[\"d/b\",\"z\"]]}",
        SERVED,
    );
    gives(&rt, rt.alloc(), &none, shows(1, 1, 0))?;
    let empty = names(
        b"{\"ip\":\"0.0.0.1\",\"map\":{\"\":{\"ip\":\"0.0.0.5\",\"txt\":5,\"import\":\"d/b\"}}}",
        SERVED,
    );
    gives(&rt, rt.alloc(), &empty, shows(2, 1, 5))
}

/// A name that imports itself eight times: 256 sources, and one value is read.
#[test]
fn ring(rt: HostRuntime) -> Result<(), Fail> {
    let ring = names(RING, b"{}");
    gives(&rt, rt.alloc(), &ring, shows(256, 1, 0))?;
    assert!(rt; ring.asked.get() == 1);
    Ok(())
}

/// What the child of `d/a` under a label shows.
fn child_of(alloc: Global, names: &Fake<'_>, label: &[u8]) -> Result<Seen, Fail> {
    let mut room = Room::new(alloc);
    let object = room.named(alloc, names, b"d/a")?.ok_or("not served")?;
    let top = room.top(alloc, names, object)?;
    let below = room.child(alloc, names, top, label)?;
    look_at(alloc, &room, below)
}

/// The child of `d/a` under a label shows this.
fn child_gives(
    rt: &impl Abort,
    alloc: Global,
    names: &Fake<'_>,
    label: &[u8],
    want: Seen,
) -> Result<(), Fail> {
    let found = child_of(alloc, names, label)?;
    assert!(rt; found == want);
    Ok(())
}

const PARENT: &[u8] =
    b"{\"map\":{\"*\":{\"ip\":\"0.0.0.5\"},\"b\":{\"ip\":\"0.0.0.6\"},\"c\":5},\"import\":\"d/b\"}";

#[test]
fn children(rt: HostRuntime) -> Result<(), Fail> {
    let all = names(
        PARENT,
        b"{\"map\":{\"*\":{\"ip\":\"0.0.0.8\",\"txt\":5},\"b\":{\"ip\":\"0.0.0.9\",\"txt\":5}}}",
    );
    child_gives(&rt, rt.alloc(), &all, b"b", shows(2, 6, 9))?;
    child_gives(&rt, rt.alloc(), &all, b"c", shows(2, 5, 8))?;
    child_gives(&rt, rt.alloc(), &all, b"B", shows(2, 5, 8))?;
    let one = names(PARENT, b"{\"map\":{\"d\":{\"ip\":\"0.0.0.7\"}}}");
    child_gives(&rt, rt.alloc(), &one, b"d", shows(1, 7, 0))
}

/// A node with many sources has the same child where it is asked for again, also under another label that no source has.
#[test]
fn children_of_many(rt: HostRuntime) -> Result<(), Fail> {
    let many = names(
        b"{\"map\":{\"*\":{\"import\":\"d/a\",\"ip\":\"0.0.0.4\"}},\"import\":[[\"d/a\"],[\"d/a\"],[\"d/a\"]]}",
        b"{}",
    );
    let mut room = Room::new(rt.alloc());
    let object = room.named(rt.alloc(), &many, b"d/a")?.ok_or("not served")?;
    let top = room.top(rt.alloc(), &many, object)?;
    let first = room.child(rt.alloc(), &many, top, b"x")?;
    let second = room.child(rt.alloc(), &many, top, b"y")?;
    let found = look_at(rt.alloc(), &room, second)?;
    assert!(rt; first == second && found == shows(256, 4, 0) && many.asked.get() == 1);
    Ok(())
}

/// Values of 1,024 bytes: the 65th is refused, and so is no other.
#[test]
fn held_bytes_are_counted(rt: HostRuntime) -> Result<(), Fail> {
    let text = [b' '; 1_024];
    let long = names(b"{}", &text);
    let mut room = Room::new(rt.alloc());
    for number in 0..64_u16 {
        let name = number.to_be_bytes();
        assert!(rt; room.named(rt.alloc(), &long, &name)?.is_some());
    }
    let again = room.named(rt.alloc(), &long, &[0, 7])?;
    let refused = room.named(rt.alloc(), &long, b"d/one more");
    assert!(rt; again.is_some() && refused == Err(Exhausted::Held) && room.held() == MOST_HELD);
    Ok(())
}
