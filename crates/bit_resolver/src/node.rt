//! What the node of a name gives.

ghost use Rattle.std.specs.Prelude.{◌≡◌, not, IfOk, OnOk, ◌++◌};
ghost use Rattle.std.specs.Option.{option_and_then};
ghost use Rattle.bit_resolver.specs.Nodes.{first, rdata_at, target_at, host_in as host_of, is_nil, type_of as type_number};
ghost use Rattle.std.specs.List.{flat_map};
ghost use Rattle.domain_text.specs.Host.{host_name as host_name_of};
ghost use Rattle.ifa_value.specs.Elements.{alone};
ghost use Rattle.bit_resolver.specs.Rdata.{rdata_of};
ghost use Rattle.bit_resolver.specs.Answers.{records_of, records_at};
ghost use Rattle.bit_resolver.specs.Nodes.{Node as NodeOf};
ghost use Rattle.bit_resolver.specs.Ends.{ShowsNode};
ghost use Rattle.ifa_value.specs.declared.item.Key.TheVariants.{Ns};

use crate::rdata::{HostsAt, host_name, rdata};
use crate::resource::{Resource, Resources, add};
use crate::rr_type;
use domain_text::Name;
use ifa_value::{Element, Key};
use import_expand::Room;
use nmc_base::NoMemory;
use std::alloc::Global;

/// A node: its domain name, that of the name right below `bit.`, and its number in the room.
#[derive(Drop)]
pub(crate) struct Node<'a> {
    pub(crate) own: Name,
    pub(crate) top: &'a Name,
    pub(crate) of: usize,
}

/// The TYPE of the records that an item gives; 0, which is no TYPE, for those that give none.
pub(crate) fn type_of(key: Key) -> u16
    ensures { result ≡ type_number key }
{
    match key {
        Key::Ip => rr_type::A,
        Key::Ip6 => rr_type::AAAA,
        Key::Ns => rr_type::NS,
        Key::Alias => rr_type::CNAME,
        Key::Translate => rr_type::DNAME,
        Key::Ds => rr_type::DS,
        Key::Tls => rr_type::TLSA,
        Key::Sshfp => rr_type::SSHFP,
        Key::Txt => rr_type::TXT,
        Key::Srv => rr_type::SRV,
        Key::Mx => rr_type::MX,
        Key::Map => 0,
        Key::Import => 0,
    }
}

impl<'a> Node<'a> {
    /// Where its host texts have their names.
    fn hosts(&self) -> HostsAt<'_>
        ensures { (result.own.now ≡ self.now.own) × (result.top.now ≡ self.now.top.now) }
    {
        HostsAt {
            own: &self.own,
            top: self.top,
        }
    }

    /// The name of a host element.
    fn host_in(&self, element: &Element) -> Option<Name>
        ensures { (n : NodeOf) → n.own ≡ self.now.own → n.top ≡ self.now.top.now → result ≡ host_of n element.now }
    {
        match element {
            Element::Host(text) => host_name(&self.own, self.top, text.as_slice()),
            _ => None,
        }
    }

    /// The name of the first of these elements.
    fn target_in(&self, elements: &[Element]) -> Option<Name>
        ensures { (n : NodeOf) → n.own ≡ self.now.own → n.top ≡ self.now.top.now → result ≡ option_and_then (host_of n) (first elements.now) }
    {
        match elements.first() {
            None => None,
            Some(element) => self.host_in(element),
        }
    }

    /// The name that `alias` or `translate` gives. None exactly where there is none, or it is skipped at the node.
    pub(crate) fn target(
        &self,
        alloc: Global,
        key: Key,
        room: &Room,
    ) -> Result<Option<Name>, NoMemory>
        ensures { IfOk result (λ o. (n : NodeOf) → ShowsNode room.now self.now n → o ≡ target_at key n) }
    {
        match room.first_with(self.of, key) {
            None => Ok(None),
            Some(object) => match object.made(key) {
                Some(elements) => Ok(self.target_in(elements)),
                None => {
                    let elements = object.elements(alloc, key)?;
                    Ok(self.target_in(elements.as_slice()))
                }
            },
        }
    }

    /// Adds the record of an element, unless the element is skipped at the node or gives none.
    fn add_element(
        &self,
        alloc: Global,
        kind: u16,
        element: &Element,
        into: &mut Resources,
    ) -> Result<(), NoMemory>
        ensures { OnOk result (into.new.items ≡ into.old.items ++ records_of self.now.own kind (alone (rdata_of (host_name_of self.now.own self.now.top.now) element.now))) }
    {
        match rdata(alloc, Some(self.hosts()), element)? {
            None => Ok(()),
            Some(rdata) => add(into, Resource::with(alloc, self.own.wire(), kind, rdata)?),
        }
    }

    /// Adds the records of the elements.
    fn add_elements(
        &self,
        alloc: Global,
        kind: u16,
        elements: &[Element],
        into: &mut Resources,
    ) -> Result<(), NoMemory>
        ensures { OnOk result (into.new.items ≡ into.old.items ++ records_of self.now.own kind (flat_map (λ e. alone (rdata_of (host_name_of self.now.own self.now.top.now) e)) elements.now)) }
    {
        into.reserve(elements.len())?;
        for element in elements {
            self.add_element(alloc, kind, element, into)?;
        }
        Ok(())
    }

    /// Adds the records of an item.
    pub(crate) fn add_item(
        &self,
        alloc: Global,
        key: Key,
        room: &Room,
        into: &mut Resources,
    ) -> Result<(), NoMemory>
        ensures { OnOk result ((n : NodeOf) → ShowsNode room.now self.now n → into.new.items ≡ into.old.items ++ records_at key n) }
    {
        match room.first_with(self.of, key) {
            None => Ok(()),
            Some(object) => match object.made(key) {
                Some(elements) => self.add_elements(alloc, type_of(key), elements, into),
                None => {
                    let elements = object.elements(alloc, key)?;
                    self.add_elements(alloc, type_of(key), elements.as_slice(), into)?;
                    Ok(())
                }
            },
        }
    }

    /// The records of an item.
    pub(crate) fn records(
        &self,
        alloc: Global,
        key: Key,
        room: &Room,
    ) -> Result<Resources, NoMemory>
        ensures { IfOk result (λ v. (n : NodeOf) → ShowsNode room.now self.now n → v.items ≡ records_at key n) }
    {
        let mut found = Resources::new(alloc);
        self.add_item(alloc, key, room, &mut found)?;
        Ok(found)
    }

    /// Whether other servers have authority over the node.
    pub(crate) fn is_cut(&self, alloc: Global, room: &Room) -> Result<bool, NoMemory>
        ensures { IfOk result (λ b. (n : NodeOf) → ShowsNode room.now self.now n → b ≡ not (is_nil (rdata_at Ns n))) }
    {
        let servers = self.records(alloc, Key::Ns, room)?;
        Ok(servers.len() > 0)
    }
}
