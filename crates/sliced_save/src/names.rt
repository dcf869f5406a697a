//! The names of a mirror with their items.

ghost use Rattle.std.specs.Prelude.{◌≡◌, ◌+◌, ◌^◌, ◌<◌, ◌≤◌, [], length, drop, slice_get, IfOk, IfSome, OnOk};
ghost use Rattle.std.specs.List.{AllByRecursion};
ghost use Rattle.std.specs.Option.{option_map};
ghost use Rattle.std.specs.Str.{bytes_eq};
ghost use Rattle.chain_names.specs.Changes.{without_entry};
ghost use Rattle.chain_names.specs.Points.{changed};
ghost use Rattle.chain_names.specs.Writable.{IsWritableName};
ghost use Rattle.image_writer.specs.Lengths.{capped};
ghost use Rattle.image_writer.specs.Listed.{IsShortItem};
ghost use Rattle.sliced_save.specs.Changes.{grown, grown_name};
ghost use Rattle.sliced_save.specs.Kept.{AreKeptNames, IsKeptItem, IsKeptName, IsLowItem, names_length};
ghost use Rattle.sliced_save.specs.Lengths.{SetsLength, UnsetsLength, items_length};
ghost use Rattle.sliced_save.specs.Mirror.{items_at};
ghost use Rattle.sliced_save.specs.Rows.{HasFitRow};
ghost use Rattle.sliced_save.specs.declared.most.TheConstants.{MOST};

use crate::copies::copy_item;
use crate::most::MOST;
use chain_names::Item;
use image_writer::lengths::{add_item, add_name};
use nmc_base::{NoMemory, Steps};
use pin_views::{MapWaste, NameKey, SharedMap, SharedStack};
use std::alloc::Global;
use std::marker::Model;
use std::sync::ledger::Ledger;
use undo_records::widths::read_item;

/// The names of a mirror with their items, and how long they are in an image.
///
/// Contracts see the items of each name behind the name, in the order of names. Each look-up, write and removal of a name is a step;
/// what is done to the items of one name is none.
#[derive(Drop)]
pub(crate) struct MirrorNames {
    map: SharedMap<NameKey, SharedStack<Item>>,
    len: u64,
}

impl Model for MirrorNames {
    ghost use Rattle.std.specs.Prelude.{◌≡◌, ◌≤◌};
    ghost use Rattle.sliced_save.specs.Kept.{AreKeptNames, names_length};
    ghost use Rattle.sliced_save.specs.Mirror.{NamePairs};
    ghost use Rattle.sliced_save.specs.declared.most.TheConstants.{MOST};

    ghost Value = { NamePairs };

    ghost view = { λ n. n.map };

    ghost invariant = { λ n. AreKeptNames n.map × (n.len ≡ names_length n.map) × (n.len ≤ MOST) };
}

impl MirrorNames {
    /// No name. It takes no memory.
    pub(crate) fn new() -> MirrorNames
        ensures { result ≡ [] }
    {
        MirrorNames {
            map: SharedMap::new(),
            len: 0,
        }
    }

    /// How many names there are.
    pub(crate) fn count(&self) -> usize
        ensures count { result ≡ length self.now }
        ensures kept { AreKeptNames self.now }
    {
        self.map.len()
    }

    /// How long they are in an image.
    pub(crate) fn text_len(&self) -> u64
        ensures length { result ≡ names_length self.now }
        ensures most { result ≤ MOST }
        ensures kept { AreKeptNames self.now }
    {
        self.len
    }

    /// The i-th name with its items, counted from 0, or None exactly past the end.
    pub(crate) fn at<L: Ledger>(
        &self,
        i: usize,
        steps: &mut Steps<L>,
    ) -> Option<(&[u8], &SharedStack<Item>)>
        ensures pair { option_map (λ p. (p.0.now, p.1.now)) result ≡ slice_get self.now i }
        ensures kept { IfSome result (λ p. IsKeptName (p.0.now, p.1.now)) }
        ensures within { IfSome result (λ _. i + 1 < 2 ^ 64) }
        ensures all { AreKeptNames self.now }
        ensures cost { steps.new ≡ steps.old + 1 }
    {
        steps.tick();
        let _count = self.map.len();
        match self.map.at(i) {
            Some((name, items)) => Some((name.as_slice(), items)),
            None => None,
        }
    }

    /// Equal names, which stay as they are whatever becomes of these. It takes no memory.
    pub(crate) fn pin(&self) -> Result<MirrorNames, NoMemory>
        ensures { IfOk result (λ names. names ≡ self.now) }
    {
        let map = self.map.pin()?;
        let len = self.len;
        Ok(MirrorNames { map, len })
    }

    /// What is to be let go of where the names are given up.
    pub(crate) fn into_waste(self) -> Option<MapWaste<NameKey, SharedStack<Item>>> {
        self.map.into_waste()
    }

    /// The name has these items. The length is that of all names with them.
    fn set<L: Ledger>(
        &mut self,
        alloc: Global,
        name: NameKey,
        items: SharedStack<Item>,
        len: u64,
        steps: &mut Steps<L>,
    ) -> Result<(), NoMemory>
        requires kept { IsKeptName (name, items) }
        requires len { SetsLength self.old name items len }
        requires most { len ≤ MOST }
        ensures names { OnOk result (items_at self.new ≡ changed bytes_eq (items_at self.old) name items) }
        ensures cost { steps.new ≡ steps.old + 1 }
    {
        steps.tick();
        self.map.set(alloc, name, items)?;
        self.len = len;
        Ok(())
    }

    /// The name is none. The length is that of all names without it.
    fn unset<L: Ledger>(
        &mut self,
        alloc: Global,
        name: &NameKey,
        len: u64,
        steps: &mut Steps<L>,
    ) -> Result<(), NoMemory>
        requires { UnsetsLength self.old name.now len }
        ensures names { OnOk result (items_at self.new ≡ changed bytes_eq (items_at self.old) name.now []) }
        ensures cost { steps.new ≡ steps.old + 1 }
    {
        steps.tick();
        self.map.unset(alloc, name)?;
        self.len = len;
        Ok(())
    }

    /// The items of the name, to be pinned; and the length of all names, if this one has these.
    fn items_of<L: Ledger>(
        &self,
        name: &NameKey,
        steps: &mut Steps<L>,
    ) -> Result<(SharedStack<Item>, u64), NoMemory>
        requires { IsWritableName name.now }
        ensures items { IfOk result (λ p. p.0 ≡ items_at self.now name.now) }
        ensures kept { IfOk result (λ p. AllByRecursion IsKeptItem p.0) }
        ensures len { IfOk result (λ p. SetsLength self.now name.now p.0 p.1) }
        ensures most { IfOk result (λ p. p.1 ≤ MOST + 260) }
        ensures cost { steps.new ≡ steps.old + 1 }
    {
        steps.tick();
        match self.map.get(name) {
            Some(items) => Ok((items.pin()?, self.len)),
            None => {
                let len = add_name(self.len + 4, name.as_slice());
                Ok((SharedStack::new(), len))
            }
        }
    }

    /// The name has the items of these that it lacks behind its own.
    pub(crate) fn grow<L: Ledger>(
        &mut self,
        alloc: Global,
        name: &[u8],
        items: &[Item],
        steps: &mut Steps<L>,
    ) -> Result<(), NoMemory>
        requires { AllByRecursion (HasFitRow name.now) items.now }
        ensures names { OnOk result (items_at self.new ≡ grown_name name.now items.now (items_at self.old)) }
        ensures grows { steps.old ≤ steps.new }
        ensures cost { steps.new ≤ steps.old + 2 }
    {
        if items.len() == 0 {
            return Ok(());
        }
        let key = NameKey::copy_of(alloc, name)?;
        let (here, begun) = self.items_of(&key, steps)?;
        let mut here = here;
        let len = push_more(alloc, &mut here, items, begun)?;
        if len > MOST {
            return Err(NoMemory);
        }
        self.set(alloc, key, here, len, steps)
    }

    /// The name loses its last item, and goes with it if it was the only one.
    pub(crate) fn shrink<L: Ledger>(
        &mut self,
        alloc: Global,
        name: &[u8],
        steps: &mut Steps<L>,
    ) -> Result<(), NoMemory>
        ensures names { OnOk result (items_at self.new ≡ changed bytes_eq (items_at self.old) name.now (without_entry (items_at self.old name.now))) }
        ensures cost { steps.new ≤ steps.old + 2 }
    {
        let key = NameKey::copy_of(alloc, name)?;
        steps.tick();
        match self.map.get(&key) {
            None => Ok(()),
            Some(items) => {
                let mut items = items.pin()?;
                let len = self.len - last_len(&items);
                items.pop();
                if items.len() == 0 {
                    self.unset(alloc, &key, len - 5 - name.len() as u64, steps)
                } else {
                    self.set(alloc, key, items, len, steps)
                }
            }
        }
    }
}

/// Puts the items behind those that are there, from as many on, and adds how long they are to the total.
fn push_more(
    alloc: Global,
    here: &mut SharedStack<Item>,
    items: &[Item],
    total: u64,
) -> Result<u64, NoMemory>
    requires kept { AllByRecursion IsKeptItem here.old }
    requires short { AllByRecursion IsShortItem items.now }
    requires low { AllByRecursion IsLowItem items.now }
    ensures items { OnOk result (here.new ≡ grown here.old items.now) }
    ensures kept { OnOk result (AllByRecursion IsKeptItem here.new) }
    ensures len { IfOk result (λ len. len ≡ capped (total + items_length (drop (length here.old) items.now))) }
{
    let from = here.len().min(items.len());
    let mut sum = total;
    let mut rest = &items[from..];
    while let [item, more @ ..] = rest {
        sum = add_item(sum, item);
        read_item(item);
        here.push(alloc, copy_item(alloc, item)?)?;
        rest = more;
    }
    Ok(sum)
}

/// How long the last item is in an image; 0 where there is none.
fn last_len(items: &SharedStack<Item>) -> u64
    requires { AllByRecursion IsKeptItem items.now }
    ensures length { result + items_length (without_entry items.now) ≡ items_length items.now }
    ensures most { result ≤ 1069 }
{
    let count = items.len();
    if count == 0 {
        return 0;
    }
    match items.at(count - 1) {
        Some(item) => add_item(0, item),
        None => 0,
    }
}
