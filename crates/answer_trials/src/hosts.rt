//! Texts of hosts and their names at a node.

use crate::comparing::{same, same_text, text, word};
use domain_text::{
    Form, Name, absolute_name, is_entry_label, is_label, read_host, read_ipv4, read_ipv6,
};
use rows::{ADDRESSES, HOSTS};
use std::alloc::{AllocError, Global};
use std::process::Abort;
use std::test::Fail;

mod rows;

/// `www.x.bit.`, and a name below `x.bit.` with a label of 63 bytes.
static NODES: [&[u8]; 2] = [
    b"\x03www\x01x\x03bit\0",
    b"\x3faaaaaaaaaaaaaaaaaaaaaaaaaaaaaaaaaaaaaaaaaaaaaaaaaaaaaaaaaaaaaaa\x01x\x03bit\0",
];

fn form_text(form: Form) -> &'static str {
    match form {
        Form::Absolute => "absolute",
        Form::AtTop => "top",
        Form::AtOwn => "own",
    }
}

/// Adds the bytes in hexadecimal, or `none`.
fn put(alloc: Global, out: &mut String, bytes: Option<&[u8]>) -> Result<(), AllocError> {
    match bytes {
        Some(bytes) => {
            let digits = hex::encode(alloc, bytes)?;
            out.push_str(digits.as_str())
        }
        None => out.push_str("none"),
    }
}

fn wire_of(name: &Option<Name>) -> Option<&[u8]> {
    match name {
        Some(name) => Some(name.wire()),
        None => None,
    }
}

/// Adds the form of a host text and its name at a node of `x.bit.`
fn put_host(alloc: Global, out: &mut String, text: &[u8], own: &Name) -> Result<(), Fail> {
    let Some(host) = read_host(text) else {
        return Ok(out.push_str("none -")?);
    };
    let top = Name::from_wire(b"\x01x\x03bit\0").ok_or("no name")?;
    out.push_str(form_text(host.form()))?;
    out.push(' ')?;
    put(alloc, out, wire_of(&host.at(own, &top)))?;
    Ok(())
}

/// A text is that at the node.
fn host_is(rt: &impl Abort, alloc: Global, text: &str, own: &[u8], want: &str) -> Result<(), Fail> {
    let own = Name::from_wire(own).ok_or("no name")?;
    let text = hex::decode(alloc, text)?;
    let mut got = String::new(alloc);
    put_host(alloc, &mut got, text.as_slice(), &own)?;
    same_text(rt, got.as_str(), want);
    Ok(())
}

/// A text, a node, and what the text is there.
fn host_line(rt: &impl Abort, alloc: Global, line: &str) -> Result<(), Fail> {
    let (text, rest) = word(line, "no text")?;
    let (node, want) = word(rest, "no node")?;
    let own = if node == "0" { NODES[0] } else { NODES[1] };
    host_is(rt, alloc, text, own, want)
}

fn host_lines(rt: &impl Abort, alloc: Global, table: &[u8]) -> Result<(), Fail> {
    for line in text(table)?.split('\n') {
        host_line(rt, alloc, line)?;
    }
    Ok(())
}

#[test]
fn host_texts(rt: HostRuntime) -> Result<(), Fail> {
    host_lines(&rt, rt.alloc(), HOSTS)
}

/// Adds what a text is as IPv4 and as IPv6.
fn put_addresses(alloc: Global, out: &mut String, text: &[u8]) -> Result<(), AllocError> {
    match read_ipv4(text) {
        Some(address) => put(alloc, out, Some(&address))?,
        None => put(alloc, out, None)?,
    }
    out.push(' ')?;
    match read_ipv6(text) {
        Some(address) => put(alloc, out, Some(&address)),
        None => put(alloc, out, None),
    }
}

/// The same of a text in hexadecimal.
fn addresses_of(alloc: Global, text: &str) -> Result<String, Fail> {
    let text = hex::decode(alloc, text)?;
    let mut out = String::new(alloc);
    put_addresses(alloc, &mut out, text.as_slice())?;
    Ok(out)
}

/// A text, and what it is as IPv4 and as IPv6.
fn address_line(rt: &impl Abort, alloc: Global, line: &str) -> Result<(), Fail> {
    let (text, want) = word(line, "no text")?;
    let got = addresses_of(alloc, text)?;
    same_text(rt, got.as_str(), want);
    Ok(())
}

fn address_lines(rt: &impl Abort, alloc: Global, table: &[u8]) -> Result<(), Fail> {
    for line in text(table)?.split('\n') {
        address_line(rt, alloc, line)?;
    }
    Ok(())
}

#[test]
fn addresses(rt: HostRuntime) -> Result<(), Fail> {
    address_lines(&rt, rt.alloc(), ADDRESSES)
}

/// Whether bytes are a name.
fn is_name(rt: &impl Abort, wire: &[u8], want: bool) {
    let got = Name::from_wire(wire).is_some();
    assert!(rt; got == want, "{}", wire.len());
}

/// Names of one byte and of the most, labels of any bytes; labels and names of too many, cut off, and with more behind.
#[test]
fn names(rt: HostRuntime) {
    let mut bytes = [1; 258];
    bytes[254] = 0;
    bytes[257] = 0;
    is_name(&rt, &bytes[..255], true);
    is_name(&rt, &bytes[1..], false);
    is_name(&rt, &[0], true);
    is_name(&rt, &[], false);
    is_name(&rt, b"\x03www", false);
    is_name(&rt, b"\x01a\0\0", false);
    is_name(&rt, b"\x02\0\xff\0", true);
    let mut label = [64; 66];
    label[65] = 0;
    is_name(&rt, &label, false);
}

/// Case is that of ASCII alone.
#[test]
fn cases(rt: HostRuntime) -> Result<(), Fail> {
    let name = Name::from_wire(b"\x03WwZ\x02\xc3\x80\0").ok_or("no name")?;
    let low = name.lower();
    same(&rt, low.wire(), b"\x03wwz\x02\xc3\x80\0");
    assert!(rt; name.same(&low) && !name.same(&Name::root()));
    Ok(())
}

#[test]
fn absolute_hosts(rt: HostRuntime) -> Result<(), Fail> {
    let name = absolute_name(b"ns.example.").ok_or("no name")?;
    same(&rt, name.wire(), b"\x02ns\x07example\0");
    assert!(rt; absolute_name(b"ns.example").is_none());
    Ok(())
}

#[test]
fn labels(rt: HostRuntime) {
    assert!(rt; is_label(b"_Tcp-1") && !is_label(b"a.b") && !is_label(b""));
    assert!(rt; is_entry_label(b"*") && is_entry_label(b"www") && !is_entry_label(b"Www"));
}
