//! The shelf: a value gives what its own text says, whatever was read for messages before.

ghost use Rattle.std.specs.Prelude.{Some};

use crate::comparing::same;
use ifa_value::{Element, Key};
use import_expand::{Names, Room};
use nmc_base::Bytes;
use std::alloc::Global;
use std::process::Abort;
use std::test::Fail;

/// Each name has this value.
#[derive(Drop)]
struct Alike<'a> {
    value: &'a [u8],
}

impl<'a> Names for Alike<'a> {
    ghost served = { λ s _. Some s.value.now };

    fn live(&self, _name: &[u8]) -> Option<&[u8]> {
        Some(self.value)
    }
}

/// What a message is told that asks for a name of this value: its `txt`, behind its length.
fn told(alloc: Global, room: &mut Room, value: &[u8]) -> Result<Bytes, Fail> {
    let names = Alike { value };
    room.clear(alloc);
    let object = room.named(alloc, &names, b"d/a")?.ok_or("not served")?;
    let top = room.top(alloc, &names, object)?;
    let source = room.first_with(top, Key::Txt).ok_or("no item")?;
    let elements = source.elements(alloc, Key::Txt)?;
    match elements.item(0) {
        Some(Element::Txt(text)) => Ok(Bytes::copy_of(alloc, text.as_slice())?),
        _ => Ok(Bytes::new(alloc)),
    }
}

fn tells(
    rt: &impl Abort,
    alloc: Global,
    room: &mut Room,
    value: &[u8],
    want: &[u8],
) -> Result<(), Fail> {
    let found = told(alloc, room, value)?;
    same(rt, found.as_slice(), want);
    Ok(())
}

/// This and the next have one hash in the map of the shelf.
const ONE: &[u8] =
    b"{\"iXoq8BLqdLKTwlQZj\":1,\"txt\":\"  EaYMcW6IEiihQBYE....aaaaaaaaaaaaaaaaaaaa\"}";

const OTHER: &[u8] =
    b"{\"iXoq8BLqdLKTwlQZj\":1,\"txt\":\"  p6zpt`&kp>JUFuIg....aaaaaaaaaaaaaaaaaaaa\"}";

/// The value of a name changes to another of one hash, and back.
#[test]
fn values_of_one_hash(rt: HostRuntime) -> Result<(), Fail> {
    let mut room = Room::new(rt.alloc());
    for _ in 0..2_u8 {
        tells(
            &rt,
            rt.alloc(),
            &mut room,
            ONE,
            b"*  EaYMcW6IEiihQBYE....aaaaaaaaaaaaaaaaaaaa",
        )?;
        tells(
            &rt,
            rt.alloc(),
            &mut room,
            OTHER,
            b"*  p6zpt`&kp>JUFuIg....aaaaaaaaaaaaaaaaaaaa",
        )?;
    }
    Ok(())
}

/// A value of so many bytes and ten more, whose text has this letter alone, is told twice.
fn tells_long(
    rt: &impl Abort,
    alloc: Global,
    room: &mut Room,
    letter: u8,
    count: u8,
) -> Result<(), Fail> {
    let mut value = Bytes::copy_of(alloc, b"{\"txt\":\"")?;
    let mut want = Bytes::copy_of(alloc, &[count])?;
    for _ in 0..count {
        value.extend(&[letter])?;
        want.extend(&[letter])?;
    }
    value.extend(b"\"}")?;
    tells(rt, alloc, room, value.as_slice(), want.as_slice())?;
    tells(rt, alloc, room, value.as_slice(), want.as_slice())
}

/// The longest that stands on the shelf, and those of one byte more and less.
#[test]
fn longest_values(rt: HostRuntime) -> Result<(), Fail> {
    let mut room = Room::new(rt.alloc());
    for count in 245..248_u8 {
        tells_long(&rt, rt.alloc(), &mut room, b'a', count)?;
        tells_long(&rt, rt.alloc(), &mut room, b'b', count)?;
    }
    Ok(())
}

/// A value whose text is a number of three digits.
fn tells_number(rt: &impl Abort, alloc: Global, room: &mut Room, number: u16) -> Result<(), Fail> {
    let digits = format!(in alloc; "{number}")?;
    let value = format!(in alloc; "{{\"txt\":\"{digits}\"}}")?;
    let want = format!(in alloc; "\u{3}{digits}")?;
    tells(rt, alloc, room, value.as_bytes(), want.as_bytes())
}

/// More values than stand on the shelf, in turn and again, each a second time at once.
#[test]
fn more_values_than_stand(rt: HostRuntime) -> Result<(), Fail> {
    let mut room = Room::new(rt.alloc());
    for _ in 0..2_u8 {
        for number in 100..500_u16 {
            tells_number(&rt, rt.alloc(), &mut room, number)?;
            tells_number(&rt, rt.alloc(), &mut room, number)?;
        }
    }
    Ok(())
}
