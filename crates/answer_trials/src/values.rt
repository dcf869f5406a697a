//! Values and the items that are read from them.

use crate::comparing::{same, text, word};
use ifa_value::{Element, IfaObject, Key, read_value};
use nmc_base::Bytes;
use rows::{VALUES, VALUES_WITH_MAPS};
use std::alloc::Global;
use std::process::Abort;
use std::test::Fail;

mod rows;

static KEYS: [Key; 13] = [
    Key::Ip,
    Key::Ip6,
    Key::Ns,
    Key::Alias,
    Key::Translate,
    Key::Ds,
    Key::Tls,
    Key::Sshfp,
    Key::Txt,
    Key::Srv,
    Key::Mx,
    Key::Map,
    Key::Import,
];

/// Bytes in hexadecimal, behind a comma.
fn put_bytes(alloc: Global, out: &mut Bytes, bytes: &[u8]) -> Result<(), Fail> {
    out.extend(b",")?;
    if bytes.is_empty() {
        out.extend(b"-")?;
    }
    let text = hex::encode(alloc, bytes)?;
    out.extend(text.as_bytes())?;
    Ok(())
}

fn put_number(alloc: Global, out: &mut Bytes, number: u16) -> Result<(), Fail> {
    let text = format!(in alloc; ",{number}")?;
    out.extend(text.as_bytes())?;
    Ok(())
}

/// An element: its kind, numbers and bytes.
fn put(
    alloc: Global,
    out: &mut Bytes,
    kind: &[u8],
    numbers: &[u16],
    bytes: &[u8],
) -> Result<(), Fail> {
    out.extend(b" ")?;
    out.extend(kind)?;
    for number in numbers {
        put_number(alloc, out, *number)?;
    }
    put_bytes(alloc, out, bytes)
}

fn put_element(alloc: Global, out: &mut Bytes, element: &Element) -> Result<(), Fail> {
    match element {
        Element::Ip4(address) => put(alloc, out, b"ip", &[], address),
        Element::Ip6(address) => put(alloc, out, b"ip6", &[], address),
        Element::Host(host) => put(alloc, out, b"host", &[], host.as_slice()),
        Element::Ds {
            tag,
            algorithm,
            kind,
            digest,
        } => {
            let numbers = [*tag, u16::from(*algorithm), u16::from(*kind)];
            put(alloc, out, b"ds", &numbers, digest.as_slice())
        }
        Element::Tls {
            usage,
            selector,
            matching,
            digest,
        } => {
            let numbers = [
                u16::from(*usage),
                u16::from(*selector),
                u16::from(*matching),
            ];
            put(alloc, out, b"tls", &numbers, digest.as_slice())
        }
        Element::Sshfp {
            algorithm,
            kind,
            digest,
        } => {
            let numbers = [u16::from(*algorithm), u16::from(*kind)];
            put(alloc, out, b"sshfp", &numbers, digest.as_slice())
        }
        Element::Txt(strings) => put(alloc, out, b"txt", &[], strings.as_slice()),
        Element::Srv {
            priority,
            weight,
            port,
            host,
        } => {
            let numbers = [*priority, *weight, *port];
            put(alloc, out, b"srv", &numbers, host.as_slice())
        }
        Element::Mx { preference, host } => {
            put(alloc, out, b"mx", &[*preference], host.as_slice())
        }
        Element::Import { name, selector } => {
            put(alloc, out, b"import", &[], name.as_slice())?;
            put_bytes(alloc, out, selector.as_slice())
        }
    }
}

/// Elements, or `none`.
fn put_all(alloc: Global, out: &mut Bytes, elements: &[Element]) -> Result<(), Fail> {
    if elements.is_empty() {
        out.extend(b" none")?;
    }
    for element in elements {
        put_element(alloc, out, element)?;
    }
    Ok(())
}

fn put_elements(alloc: Global, out: &mut Bytes, object: &IfaObject, key: Key) -> Result<(), Fail> {
    let elements = object.elements(alloc, key)?;
    put_all(alloc, out, elements.as_slice())
}

/// An item: its name and its elements.
fn put_item(alloc: Global, out: &mut Bytes, object: &IfaObject, key: Key) -> Result<(), Fail> {
    if !out.as_slice().is_empty() {
        out.extend(b" ")?;
    }
    out.extend(key.name().as_bytes())?;
    out.extend(b":")?;
    put_elements(alloc, out, object, key)
}

fn put_items(alloc: Global, out: &mut Bytes, object: &IfaObject) -> Result<(), Fail> {
    for key in KEYS {
        if object.has(key) {
            put_item(alloc, out, object, key)?;
        }
    }
    Ok(())
}

/// All items of a value.
fn items_of(alloc: Global, value: &[u8]) -> Result<Bytes, Fail> {
    let object = read_value(alloc, value)?;
    let mut out = Bytes::new(alloc);
    put_items(alloc, &mut out, &object)?;
    Ok(out)
}

/// The same of a value in hexadecimal.
fn items(alloc: Global, digits: &str) -> Result<Bytes, Fail> {
    let value = hex::decode(alloc, digits)?;
    items_of(alloc, &value)
}

fn line(rt: &impl Abort, alloc: Global, line: &str) -> Result<(), Fail> {
    let (value, want) = word(line, "no value")?;
    let got = items(alloc, value)?;
    same(rt, got.as_slice(), want.as_bytes());
    Ok(())
}

fn lines(rt: &impl Abort, alloc: Global, table: &[u8]) -> Result<(), Fail> {
    for row in text(table)?.split('\n') {
        line(rt, alloc, row)?;
    }
    Ok(())
}

#[test]
fn values(rt: HostRuntime) -> Result<(), Fail> {
    lines(&rt, rt.alloc(), VALUES)
}

#[test]
fn values_with_maps(rt: HostRuntime) -> Result<(), Fail> {
    lines(&rt, rt.alloc(), VALUES_WITH_MAPS)
}

static LABELS: [&[u8]; 6] = [b"", b"*", b"a", b"A", b"b", b"a.b"];

/// Whether there is an entry, as a letter.
fn has_entry(alloc: Global, object: &IfaObject, label: &[u8]) -> Result<u8, Fail> {
    match object.entry(alloc, label)? {
        Some(_) => Ok(b'y'),
        None => Ok(b'n'),
    }
}

fn put_entries(alloc: Global, object: &IfaObject, out: &mut Bytes) -> Result<(), Fail> {
    for label in &LABELS {
        out.extend(&[has_entry(alloc, object, label)?])?;
    }
    Ok(())
}

/// Which entries there are, one letter each.
fn entries(alloc: Global, value: &[u8], out: &mut Bytes) -> Result<(), Fail> {
    let object = read_value(alloc, value)?;
    put_entries(alloc, &object, out)
}

#[test]
fn entries_of_a_map(rt: HostRuntime) -> Result<(), Fail> {
    let mut found = Bytes::new(rt.alloc());
    let value = b"{\"map\":{\"\":{},\"*\":{},\"a\":{},\"A\":{},\"b\":\"text\",\"a.b\":{}}}";
    entries(rt.alloc(), value, &mut found)?;
    entries(rt.alloc(), b"{\"map\":[{}]}", &mut found)?;
    same(&rt, found.as_slice(), b"yyynnnnnnnnn");
    Ok(())
}
