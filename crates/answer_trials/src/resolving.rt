//! Questions and answers over names with values of all kinds.

ghost use Rattle.std.specs.Prelude.{find};
ghost use Rattle.std.specs.Option.{option_map};
ghost use Rattle.std.specs.Str.{bytes_eq};

use crate::comparing::{same_text, text, word};
use bit_resolver::{Resource, Sections, Zone, resolve};
use dns_message::Question;
use domain_text::{Name, absolute_name};
use import_expand::{Names, Room};
use nmc_base::Bytes;
use rows::{CHASES, HOSTILE, RULES, VECTORS};
use std::alloc::Global;
use std::process::Abort;
use std::test::Fail;

mod rows;

/// A name and its value.
#[derive(Drop)]
struct Row<'a> {
    name: &'a [u8],
    value: &'a [u8],
}

/// The names that are served.
#[derive(Drop)]
struct Index<'a> {
    rows: Vec<Row<'a>>,
}

impl<'a> Names for Index<'a> {
    ghost served = { λ s name. option_map (λ r. r.value.now) (find (λ r. bytes_eq r.name.now name) s.rows.items) };

    fn live(&self, name: &[u8]) -> Option<&[u8]> {
        let row = self.rows.iter().find(|row| row.name == name)?;
        Some(row.value)
    }
}

/// Adds a label behind its length.
fn put_label(out: &mut Bytes, label: &str) -> Result<(), Fail> {
    let len = u8::try_from(label.len()).ok().ok_or("a long label")?;
    out.extend(&[len])?;
    Ok(out.extend(label.as_bytes())?)
}

/// A name's wire form, of labels that are joined and ended by dots.
fn wire(alloc: Global, text: &str) -> Result<Bytes, Fail> {
    let mut found = Bytes::new(alloc);
    for label in text.split('.') {
        put_label(&mut found, label)?;
    }
    Ok(found)
}

/// Adds bytes in hexadecimal.
fn put_bytes(alloc: Global, out: &mut String, bytes: &[u8]) -> Result<(), Fail> {
    let digits = hex::encode(alloc, bytes)?;
    Ok(out.push_str(digits.as_str())?)
}

fn put_number(alloc: Global, out: &mut String, number: u16) -> Result<(), Fail> {
    let digits = format!(in alloc; "{number}")?;
    Ok(out.push_str(digits.as_str())?)
}

/// Adds a record: its owner, TYPE and RDATA.
fn put_record(alloc: Global, out: &mut String, record: &Resource) -> Result<(), Fail> {
    put_bytes(alloc, out, record.owner.as_slice())?;
    out.push('/')?;
    put_number(alloc, out, record.kind)?;
    out.push('/')?;
    put_bytes(alloc, out, record.rdata.as_slice())
}

/// Adds records, with commas between them, or `-`.
fn put_records(alloc: Global, out: &mut String, records: &[Resource]) -> Result<(), Fail> {
    if records.is_empty() {
        out.push('-')?;
    }
    for (place, record) in records.iter().enumerate() {
        if place > 0 {
            out.push(',')?;
        }
        put_record(alloc, out, record)?;
    }
    Ok(())
}

/// Adds RCODE, AA and the sections.
fn put_sections(alloc: Global, out: &mut String, sections: &Sections) -> Result<(), Fail> {
    put_number(alloc, out, u16::from(sections.rcode))?;
    out.push_str(if sections.aa { " 1 " } else { " 0 " })?;
    put_records(alloc, out, sections.answer.as_slice())?;
    out.push(' ')?;
    put_records(alloc, out, sections.authority.as_slice())
}

fn shown(alloc: Global, sections: &Sections) -> Result<String, Fail> {
    let mut out = String::new(alloc);
    put_sections(alloc, &mut out, sections)?;
    Ok(out)
}

fn number(text: &str) -> Result<u16, Fail> {
    let number = text.parse::<u16>().ok().ok_or("no number")?;
    Ok(number)
}

/// The answer to a question of this name, type and class.
fn resolved(
    alloc: Global,
    index: &Index<'_>,
    zone: &Zone,
    name: &[u8],
    kind: u16,
    class: u16,
) -> Result<Sections, Fail> {
    let name = Name::from_wire(name).ok_or("no name")?;
    let asked = Question {
        id: 1,
        flags: 0,
        name: name.wire(),
        kind,
        class,
        edns: None,
    };
    let mut room = Room::new(alloc);
    Ok(resolve(alloc, index, zone, &asked, &mut room)?)
}

/// A name, a type, a class, and what the answer is.
#[derive(Clone, Copy)]
struct Case<'a> {
    name: &'a str,
    kind: u16,
    class: u16,
    want: &'a str,
}

/// The case of a line, with a blank between its parts.
fn read_case(line: &str) -> Result<Case<'_>, Fail> {
    let (name, rest) = word(line, "no name")?;
    let (kind, rest) = word(rest, "no type")?;
    let (class, want) = word(rest, "no class")?;
    Ok(Case {
        name,
        kind: number(kind)?,
        class: number(class)?,
        want,
    })
}

/// The answer to a case's question, as text.
fn answer_shown(
    alloc: Global,
    index: &Index<'_>,
    zone: &Zone,
    of: Case<'_>,
) -> Result<String, Fail> {
    let wire = wire(alloc, of.name)?;
    let sections = resolved(alloc, index, zone, wire.as_slice(), of.kind, of.class)?;
    shown(alloc, &sections)
}

fn ask(
    rt: &impl Abort,
    alloc: Global,
    index: &Index<'_>,
    zone: &Zone,
    line: &str,
) -> Result<(), Fail> {
    let case = read_case(line)?;
    let got = answer_shown(alloc, index, zone, case)?;
    same_text(rt, got.as_str(), case.want);
    Ok(())
}

/// A host and a serial.
fn zone(line: &str) -> Result<Zone, Fail> {
    let (host, serial) = word(line, "no serial")?;
    let host = absolute_name(host.as_bytes()).ok_or("no host")?;
    let serial = serial.parse::<u32>().ok().ok_or("no number")?;
    Ok(Zone { host, serial })
}

/// A name and its value, with a space between them.
fn served(line: &str) -> Result<Row<'_>, Fail> {
    let (name, value) = word(line, "no value")?;
    Ok(Row {
        name: name.as_bytes(),
        value: value.as_bytes(),
    })
}

/// A line that begins with `serve` has a name and its value; any other is a question and its answer.
fn line<'a>(
    rt: &impl Abort,
    alloc: Global,
    index: &mut Index<'a>,
    zone: &Zone,
    line: &'a str,
) -> Result<(), Fail> {
    match line.strip_prefix("serve ") {
        Some(row) => Ok(index.rows.push(served(row)?)?),
        None => ask(rt, alloc, index, zone, line),
    }
}

fn lines<'a>(
    rt: &impl Abort,
    alloc: Global,
    index: &mut Index<'a>,
    zone: &Zone,
    text: &'a str,
) -> Result<(), Fail> {
    for row in text.split('\n') {
        line(rt, alloc, index, zone, row)?;
    }
    Ok(())
}

/// Lines, the first of which is the zone's.
fn table(rt: &impl Abort, alloc: Global, table: &[u8]) -> Result<(), Fail> {
    let (first, rest) = text(table)?.split_once('\n').ok_or("no line")?;
    let zone = zone(first)?;
    let mut index = Index {
        rows: Vec::new(alloc),
    };
    lines(rt, alloc, &mut index, &zone, rest)
}

/// The rules, one by one.
#[test]
fn rules(rt: HostRuntime) -> Result<(), Fail> {
    table(&rt, rt.alloc(), RULES)
}

/// Rings, and ways of seven, eight and nine names.
#[test]
fn chases(rt: HostRuntime) -> Result<(), Fail> {
    table(&rt, rt.alloc(), CHASES)
}

/// One address for a ring of imports; and no data, without an error, where the value isn't read.
#[test]
fn hostile_values(rt: HostRuntime) -> Result<(), Fail> {
    table(&rt, rt.alloc(), HOSTILE)
}

/// Answers of another program.
#[test]
fn answers_of_another_reading(rt: HostRuntime) -> Result<(), Fail> {
    for vectors in &VECTORS {
        table(&rt, rt.alloc(), vectors)?;
    }
    Ok(())
}
