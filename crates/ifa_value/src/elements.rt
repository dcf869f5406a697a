//! One element of an item, and lists of them.

ghost use Rattle.std.specs.Prelude.{◌≡◌, IfOk};
ghost use Rattle.serde_json.specs.View.{view, items_view};
ghost use Rattle.ifa_value.specs.Elements.{ip as ip_of, ip6 as ip6_of, host_element, ds_of, tls_of, sshfp_of, txt_element, srv_of, mx_of, element_in, each as each_of, alone as alone_of, imports as imports_of};

use crate::import::import;
use crate::item::{Element, Elements, Key};
use crate::shape::{digest, four, host, three, two, whole8, whole16};
use crate::text::txt;
use domain_text::{read_ipv4, read_ipv6};
use nmc_base::{Bytes, NoMemory};
use serde_json::Value;
use std::alloc::Global;

fn ip(value: &Value) -> Option<Element>
    ensures { result ≡ ip_of (view value.now) }
{
    let address = read_ipv4(value.as_str()?.as_bytes())?;
    Some(Element::Ip4(address))
}

fn ip6(value: &Value) -> Option<Element>
    ensures { result ≡ ip6_of (view value.now) }
{
    let address = read_ipv6(value.as_str()?.as_bytes())?;
    Some(Element::Ip6(address))
}

fn host_text(alloc: Global, value: &Value) -> Result<Option<Element>, NoMemory>
    ensures { IfOk result (λ e. e ≡ host_element (view value.now)) }
{
    match host(alloc, value)? {
        Some(host) => Ok(Some(Element::Host(host))),
        None => Ok(None),
    }
}

fn text(alloc: Global, value: &Value) -> Result<Option<Element>, NoMemory>
    ensures { IfOk result (λ e. e ≡ txt_element (view value.now)) }
{
    match txt(alloc, value)? {
        Some(strings) => Ok(Some(Element::Txt(strings))),
        None => Ok(None),
    }
}

fn ds(
    alloc: Global,
    tag: &Value,
    algorithm: &Value,
    kind: &Value,
    value: &Value,
) -> Result<Option<Element>, NoMemory>
    ensures { IfOk result (λ e. e ≡ ds_of (view tag.now) (view algorithm.now) (view kind.now) (view value.now)) }
{
    let Some(tag) = whole16(tag) else {
        return Ok(None);
    };
    let Some(algorithm) = whole8(algorithm) else {
        return Ok(None);
    };
    let Some(kind) = whole8(kind) else {
        return Ok(None);
    };
    match digest(alloc, value)? {
        Some(digest) => Ok(Some(Element::Ds {
            tag,
            algorithm,
            kind,
            digest,
        })),
        None => Ok(None),
    }
}

fn tls(
    alloc: Global,
    usage: &Value,
    selector: &Value,
    matching: &Value,
    value: &Value,
) -> Result<Option<Element>, NoMemory>
    ensures { IfOk result (λ e. e ≡ tls_of (view usage.now) (view selector.now) (view matching.now) (view value.now)) }
{
    let Some(usage) = whole8(usage) else {
        return Ok(None);
    };
    let Some(selector) = whole8(selector) else {
        return Ok(None);
    };
    let Some(matching) = whole8(matching) else {
        return Ok(None);
    };
    match digest(alloc, value)? {
        Some(digest) => Ok(Some(Element::Tls {
            usage,
            selector,
            matching,
            digest,
        })),
        None => Ok(None),
    }
}

fn sshfp(
    alloc: Global,
    algorithm: &Value,
    kind: &Value,
    value: &Value,
) -> Result<Option<Element>, NoMemory>
    ensures { IfOk result (λ e. e ≡ sshfp_of (view algorithm.now) (view kind.now) (view value.now)) }
{
    let Some(algorithm) = whole8(algorithm) else {
        return Ok(None);
    };
    let Some(kind) = whole8(kind) else {
        return Ok(None);
    };
    match digest(alloc, value)? {
        Some(digest) => Ok(Some(Element::Sshfp {
            algorithm,
            kind,
            digest,
        })),
        None => Ok(None),
    }
}

fn srv(
    alloc: Global,
    priority: &Value,
    weight: &Value,
    port: &Value,
    value: &Value,
) -> Result<Option<Element>, NoMemory>
    ensures { IfOk result (λ e. e ≡ srv_of (view priority.now) (view weight.now) (view port.now) (view value.now)) }
{
    let Some(priority) = whole16(priority) else {
        return Ok(None);
    };
    let Some(weight) = whole16(weight) else {
        return Ok(None);
    };
    let Some(port) = whole16(port) else {
        return Ok(None);
    };
    match host(alloc, value)? {
        Some(host) => Ok(Some(Element::Srv {
            priority,
            weight,
            port,
            host,
        })),
        None => Ok(None),
    }
}

fn mx(alloc: Global, preference: &Value, value: &Value) -> Result<Option<Element>, NoMemory>
    ensures { IfOk result (λ e. e ≡ mx_of (view preference.now) (view value.now)) }
{
    let Some(preference) = whole16(preference) else {
        return Ok(None);
    };
    match host(alloc, value)? {
        Some(host) => Ok(Some(Element::Mx { preference, host })),
        None => Ok(None),
    }
}

/// The element of an item that a value is.
pub(crate) fn element(alloc: Global, key: Key, value: &Value) -> Result<Option<Element>, NoMemory>
    ensures { IfOk result (λ e. e ≡ element_in key (view value.now)) }
{
    match key {
        Key::Ip => Ok(ip(value)),
        Key::Ip6 => Ok(ip6(value)),
        Key::Ns | Key::Alias | Key::Translate => host_text(alloc, value),
        Key::Txt => text(alloc, value),
        Key::Ds => match four(value) {
            Some((a, b, c, d)) => ds(alloc, a, b, c, d),
            None => Ok(None),
        },
        Key::Tls => match four(value) {
            Some((a, b, c, d)) => tls(alloc, a, b, c, d),
            None => Ok(None),
        },
        Key::Srv => match four(value) {
            Some((a, b, c, d)) => srv(alloc, a, b, c, d),
            None => Ok(None),
        },
        Key::Sshfp => match three(value) {
            Some((a, b, c)) => sshfp(alloc, a, b, c),
            None => Ok(None),
        },
        Key::Mx => match two(value) {
            Some((a, b)) => mx(alloc, a, b),
            None => Ok(None),
        },
        Key::Import => import(alloc, value),
        Key::Map => Ok(None),
    }
}

/// The elements among the members of a list.
pub(crate) fn each(alloc: Global, key: Key, values: &[Value]) -> Result<Elements, NoMemory>
    ensures { IfOk result (λ v. v.items ≡ each_of (element_in key) (items_view values.now)) }
{
    let mut found = Elements::new(alloc);
    found.reserve(values.len())?;
    for value in values {
        match element(alloc, key, value)? {
            Some(element) => {
                found.reserve(1)?;
                found.push(element);
            }
            None => {}
        }
    }
    Ok(found)
}

/// One element, or none.
pub(crate) fn alone(alloc: Global, element: Option<Element>) -> Result<Elements, NoMemory>
    ensures { IfOk result (λ v. v.items ≡ alone_of element) }
{
    let mut found = Elements::new(alloc);
    match element {
        Some(element) => {
            found.reserve(1)?;
            found.push(element);
        }
        None => {}
    }
    Ok(found)
}

/// The imports of an item.
pub(crate) fn imports(alloc: Global, item: &Value) -> Result<Elements, NoMemory>
    ensures { IfOk result (λ v. v.items ≡ imports_of (view item.now)) }
{
    if let Some(name) = item.as_str() {
        let import = Element::Import {
            name: Bytes::copy_of(alloc, name.as_bytes())?,
            selector: Bytes::new(alloc),
        };
        return alone(alloc, Some(import));
    }
    let first = match item.get(0usize) {
        Some(first) => first.as_str(),
        None => None,
    };
    if first.is_some() {
        return alone(alloc, import(alloc, item)?);
    }
    match item.as_array() {
        Some(list) => each(alloc, Key::Import, list.as_slice()),
        None => Ok(Elements::new(alloc)),
    }
}
