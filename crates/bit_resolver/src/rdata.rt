//! RDATA of elements.

ghost use Rattle.std.specs.Prelude.{◌≡◌, ◌++◌, ◌∷◌, [], option_map, ℕ, List, IfOk, IfSome, OnOk, Some};
ghost use Rattle.domain_text.specs.Host.{host_name as host_name_of};
ghost use Rattle.bit_resolver.specs.Rdata.{rdata_of, numbers16};
ghost use Rattle.bit_resolver.specs.HostsAt.{name_at};

use crate::short_bytes::ShortBytes;
use domain_text::{Form, Name, read_host};
use ifa_value::Element;
use nmc_base::{Bytes, NoMemory};
use std::alloc::Global;

/// Appends numbers of 16 bits, the high byte first.
pub(crate) fn add_numbers16(numbers: &[u16], into: &mut Bytes) -> Result<(), NoMemory>
    ensures { OnOk result (into.new ≡ into.old ++ numbers16 numbers.now) }
{
    for number in numbers {
        into.extend(&number.to_be_bytes())?;
    }
    Ok(())
}

/// Where host texts have their names: at a node of this domain name, below the name at the top.
#[derive(Clone, Copy)]
pub(crate) struct HostsAt<'a> {
    pub(crate) own: &'a Name,
    pub(crate) top: &'a Name,
}

/// The name of a host text at a node of this domain name, below the name at the top. None exactly where the text is no
/// host text, or its name would have more than 255 bytes.
pub(crate) fn host_name(own: &Name, top: &Name, text: &[u8]) -> Option<Name>
    ensures { result ≡ host_name_of own.now top.now text.now }
{
    let host = read_host(text)?;
    host.at(own, top)
}

/// The name of an absolute host text, which is the same at each node.
pub(crate) fn absolute_name(text: &[u8]) -> Option<Name>
    ensures { IfSome result (λ name. (own top : List ℕ) → host_name_of own top text.now ≡ Some name) }
{
    let host = read_host(text)?;
    if host.form() != Form::Absolute {
        return None;
    }
    let root = Name::root();
    host.at(&root, &root)
}

/// The name of a host text, where such have names at all.
fn name_of(at: Option<HostsAt<'_>>, text: &[u8]) -> Option<Name>
    ensures { result ≡ name_at at.entry text.now }
{
    match at {
        Some(at) => host_name(at.own, at.top, text),
        None => None,
    }
}

/// The name of a host text behind some numbers, where it has one.
fn host_behind(
    alloc: Global,
    at: Option<HostsAt<'_>>,
    numbers: &[u16],
    text: &[u8],
) -> Result<Option<ShortBytes>, NoMemory>
    ensures { IfOk result (λ o. o ≡ option_map (λ n. numbers16 numbers.now ++ n) (name_at at.entry text.now)) }
{
    match name_of(at, text) {
        None => Ok(None),
        Some(name) => {
            let mut found = Bytes::new(alloc);
            add_numbers16(numbers, &mut found)?;
            found.extend(name.wire())?;
            Ok(Some(ShortBytes::of(found)))
        }
    }
}

/// RDATA that is the name of a host text, where it has one.
fn host_alone(
    alloc: Global,
    at: Option<HostsAt<'_>>,
    text: &[u8],
) -> Result<Option<ShortBytes>, NoMemory>
    ensures { IfOk result (λ o. o ≡ name_at at.entry text.now) }
{
    match name_of(at, text) {
        None => Ok(None),
        Some(name) => copied(alloc, name.wire()),
    }
}

/// RDATA that is these bytes.
fn copied(alloc: Global, bytes: &[u8]) -> Result<Option<ShortBytes>, NoMemory>
    ensures { IfOk result (λ o. o ≡ Some bytes.now) }
{
    Ok(Some(ShortBytes::copy_of(alloc, bytes)?))
}

/// RDATA that is a digest behind some numbers.
fn digest_behind(alloc: Global, front: &[u8], digest: &[u8]) -> Result<Option<ShortBytes>, NoMemory>
    ensures { IfOk result (λ o. o ≡ Some (front.now ++ digest.now)) }
{
    let mut found = Bytes::copy_of(alloc, front)?;
    found.extend(digest)?;
    Ok(Some(ShortBytes::of(found)))
}

/// RDATA of a delegation signer.
fn ds(alloc: Global, tag: u16, front: &[u8], digest: &[u8]) -> Result<Option<ShortBytes>, NoMemory>
    ensures { IfOk result (λ o. o ≡ Some (numbers16 (tag ∷ []) ++ (front.now ++ digest.now))) }
{
    let mut found = Bytes::new(alloc);
    add_numbers16(&[tag], &mut found)?;
    found.extend(front)?;
    found.extend(digest)?;
    Ok(Some(ShortBytes::of(found)))
}

/// RDATA of an element, where host texts have their names there; without such a place, none has. None exactly where the element is
/// skipped so, or gives no record.
pub(crate) fn rdata(
    alloc: Global,
    at: Option<HostsAt<'_>>,
    element: &Element,
) -> Result<Option<ShortBytes>, NoMemory>
    ensures { IfOk result (λ o. o ≡ rdata_of (name_at at.entry) element.now) }
{
    match element {
        Element::Ip4(address) => copied(alloc, address),
        Element::Ip6(address) => copied(alloc, address),
        Element::Host(text) => host_alone(alloc, at, text.as_slice()),
        Element::Ds {
            tag,
            algorithm,
            kind,
            digest,
        } => ds(alloc, *tag, &[*algorithm, *kind], digest.as_slice()),
        Element::Tls {
            usage,
            selector,
            matching,
            digest,
        } => digest_behind(alloc, &[*usage, *selector, *matching], digest.as_slice()),
        Element::Sshfp {
            algorithm,
            kind,
            digest,
        } => digest_behind(alloc, &[*algorithm, *kind], digest.as_slice()),
        Element::Txt(strings) => copied(alloc, strings.as_slice()),
        Element::Srv {
            priority,
            weight,
            port,
            host,
        } => host_behind(alloc, at, &[*priority, *weight, *port], host.as_slice()),
        Element::Mx { preference, host } => {
            host_behind(alloc, at, &[*preference], host.as_slice())
        }
        Element::Import { .. } => Ok(None),
    }
}
