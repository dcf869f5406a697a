//! The room in which one message is answered: the objects and the nodes that were met, each with a number.

ghost use Rattle.std.specs.Prelude.{◌≡◌, ◌+◌, ◌≤◌, ◌∷◌, [], true, List, length, OnOk, IfOk, IfErr, IfSome};
ghost use Rattle.std.specs.Option.{option_map};
ghost use Rattle.ifa_value.specs.Object.{members};
ghost use Rattle.ifa_value.specs.Values.{object_of, IsSimple};
ghost use Rattle.serde_json.specs.Data.{Members};
ghost use Rattle.import_expand.specs.Sources.{Live, sources_of, child_of, first_of, entries};
ghost use Rattle.import_expand.specs.Books.{IsAt, IsCounted, Finds, Shows};
ghost use Rattle.import_expand.specs.Rooms.{objects_in, nodes_in, held, CountsAsked, GivesUp, IsNode, IsPlain, IsSound, Keeps, LacksEntry, Later};
ghost use Rattle.import_expand.specs.declared.limits.TheConstants.{MOST_HELD as GREATEST};

use crate::book::Book;
use crate::children::{child, child_by_label};
use crate::exhausted::Exhausted;
use crate::expansion::{are_plain, first_with, top_sources};
use crate::held::Held;
use crate::limits::{FEW_SOURCES, LITTLE_HELD};
use crate::names::Names;
use ifa_value::{IfaObject, Key, label_number};
use nmc_base::{Bytes, NoMemory};
use std::alloc::Global;

/// The sources of a node, by the numbers of their objects.
#[derive(Drop)]
pub(crate) struct Sources {
    numbers: Vec<usize>,
    /// No source has an item that may end a way.
    plain: bool,
}

/// The number of a node's child under a label.
#[derive(Drop)]
pub(crate) struct Child {
    of: usize,
    label: Bytes,
    at: usize,
    older: usize,
}

/// The number of the node at the top, whose value is an object.
#[derive(Drop)]
pub(crate) struct Top {
    of: usize,
    at: usize,
}

/// The objects and the nodes that were met, by their numbers. A node with many sources is found once, and so is its child under
/// a label.
#[derive(Drop)]
pub struct Room {
    book: Book,
    nodes: Vec<Sources>,
    children: Vec<Child>,
    tops: Vec<Top>,
    /// By node: its newest child, where to look first. What is found there is compared before it is believed.
    newest: Vec<usize>,
    /// By the remainder of a label's number: the newest node with many sources that was found under one, which may have those of the
    /// next. They are compared before it is believed.
    alike: Vec<usize>,
}

/// So many remainders have numbers of labels.
const REMAINDERS: usize = 251;

impl Room {
    /// The empty room. It takes no memory.
    pub fn new(alloc: Global) -> Room
        ensures sound { (live : Live) → IsSound live result }
        ensures held { held result ≡ 0 }
    {
        Room::over(alloc, Held::none())
    }

    /// The empty room, for which nothing is held.
    fn over(alloc: Global, counted: Held) -> Room
        requires { counted.count ≡ 0 }
        ensures sound { (live : Live) → IsSound live result }
        ensures held { held result ≡ 0 }
    {
        Room {
            book: Book::new(alloc, counted),
            nodes: Vec::new(alloc),
            children: Vec::new(alloc),
            tops: Vec::new(alloc),
            newest: Vec::new(alloc),
            alike: Vec::new(alloc),
        }
    }

    /// Empties the room for the next message. Its lists keep their room where little was held, and what stands on the shelf stays.
    pub fn clear(&mut self, alloc: Global)
        ensures sound { (live : Live) → IsSound live self.new }
        ensures held { held self.new ≡ 0 }
    {
        if self.held() > LITTLE_HELD {
            let counted = self.book.let_go();
            *self = Room::over(alloc, counted);
            return;
        }
        self.book.clear();
        self.nodes.clear();
        self.children.clear();
        self.tops.clear();
        self.newest.clear();
        self.alike.clear();
    }

    /// The bytes of the values that were read and of the entries that were taken out of them, and one for each source that was asked.
    pub fn held(&self) -> usize
        ensures held { result ≡ held self.now }
        ensures bound { result ≤ GREATEST }
    {
        self.book.held()
    }

    /// The number of the object of a name, which is read where it wasn't before. None exactly where the name isn't served.
    pub fn named<N: Names>(
        &mut self,
        alloc: Global,
        names: &N,
        name: &[u8],
    ) -> Result<Option<usize>, Exhausted>
        requires sound { IsSound (N.served names.now) self.old }
        ensures found { IfOk result (λ r. Finds (objects_in self.new) r (option_map object_of (N.served names.now name.now))) }
        ensures later { OnOk result (Later (N.served names.now) self.old self.new) }
        // The value's bytes are counted.
        ensures least { OnOk result (IsCounted (N.served names.now) (held self.new) name.now) }
        // What has to be held next is refused where it doesn't fit, and for that cause alone.
        ensures refused { IfErr result (GivesUp (N.served names.now) self.new) }
    {
        let found = self.book.named(alloc, names, name)?;
        Ok(found)
    }

    /// The numbers of a node's sources.
    fn sources(&self, of: usize) -> &[usize]
        ensures { (ns : List Members) → IsNode self.now of ns → Shows (objects_in self.now) result.now ns }
    {
        match self.nodes.get(of) {
            Some(sources) => sources.numbers.as_slice(),
            None => &[],
        }
    }

    /// How many sources a node has. Without one there is no such node.
    pub fn len(&self, of: usize) -> usize
        ensures { (ns : List Members) → IsNode self.now of ns → result ≡ length ns }
    {
        self.sources(of).len()
    }

    /// The first source of a node that has the item, whatever the item's shape.
    pub fn first_with(&self, of: usize, key: Key) -> Option<&IfaObject>
        ensures { (ns : List Members) → IsNode self.now of ns → option_map (λ o. members o.now) result ≡ first_of key ns }
    {
        first_with(self.sources(of), key, &self.book)
    }

    /// The object of a number, where it gives itself alone as a source, and is no cut.
    pub fn simple(&self, at: usize) -> Option<&IfaObject>
        ensures { IfSome result (λ s. (o : Members) → IsAt (objects_in self.now) at o → (members s.now ≡ o) × IsSimple o) }
    {
        match self.book.object(at) {
            Some(object) => {
                if object.is_simple() {
                    Some(object)
                } else {
                    None
                }
            }
            None => None,
        }
    }

    /// Whether the way down leads through a node in any case: no source has `ns` or `translate`, whatever its shape.
    pub fn is_plain(&self, of: usize) -> bool
        ensures { (live : Live) (ns : List Members) → IsSound live self.now → IsNode self.now of ns → result ≡ true → IsPlain ns }
    {
        match self.nodes.get(of) {
            Some(sources) => sources.plain,
            None => false,
        }
    }

    /// Gives a node a number.
    fn put(&mut self, numbers: Vec<usize>) -> Result<usize, NoMemory>
        ensures at { IfOk result (λ k. (ns : List Members) → Shows (objects_in self.old) numbers.items ns → IsNode self.new k ns) }
        ensures keeps { OnOk result ((ns : List Members) → Shows (objects_in self.old) numbers.items ns → Keeps self.old self.new) }
        ensures held { held self.new ≡ held self.old }
    {
        let at = self.nodes.len();
        let plain = are_plain(numbers.as_slice(), &self.book);
        self.nodes.push(Sources { numbers, plain })?;
        Ok(at)
    }

    /// Gives a node a number: that of the node above it, where both have the same sources.
    fn put_below(&mut self, above: usize, numbers: Vec<usize>) -> Result<usize, NoMemory>
        ensures at { IfOk result (λ k. (ns : List Members) → Shows (objects_in self.old) numbers.items ns → IsNode self.new k ns) }
        ensures keeps { OnOk result ((ns : List Members) → Shows (objects_in self.old) numbers.items ns → Keeps self.old self.new) }
        ensures held { held self.new ≡ held self.old }
    {
        if self.is_node_of(above, numbers.as_slice()) {
            return Ok(above);
        }
        let at = self.put(numbers)?;
        Ok(at)
    }

    /// The newest node that was found under a label of this remainder.
    fn alike(&self, remainder: usize) -> usize {
        match self.alike.get(remainder) {
            Some(alike) => *alike,
            None => usize::MAX,
        }
    }

    /// Remembers the newest node that was found under a label of this remainder.
    fn keep_alike(&mut self, remainder: usize, at: usize) -> Result<(), NoMemory>
        ensures nodes { OnOk result (nodes_in self.new ≡ nodes_in self.old) }
        ensures objects { OnOk result (objects_in self.new ≡ objects_in self.old) }
        ensures keeps { OnOk result (Keeps self.old self.new) }
        ensures held { held self.new ≡ held self.old }
    {
        self.alike.resize(REMAINDERS, usize::MAX)?;
        if let Some(alike) = self.alike.get_mut(remainder) {
            *alike = at;
        }
        Ok(())
    }

    /// Gives a node a number that was found under a label: that of the node above it, or of one that was found under such a label, where
    /// both have the same sources.
    fn put_under(
        &mut self,
        above: usize,
        label: &[u8],
        numbers: Vec<usize>,
    ) -> Result<usize, NoMemory>
        ensures at { IfOk result (λ k. (ns : List Members) → Shows (objects_in self.old) numbers.items ns → IsNode self.new k ns) }
        ensures keeps { OnOk result ((ns : List Members) → Shows (objects_in self.old) numbers.items ns → Keeps self.old self.new) }
        ensures held { held self.new ≡ held self.old }
    {
        if numbers.len() <= FEW_SOURCES {
            return self.put_below(above, numbers);
        }
        let remainder = label_number(label) as usize % REMAINDERS;
        let alike = self.alike(remainder);
        if self.is_node_of(alike, numbers.as_slice()) {
            return Ok(alike);
        }
        let at = self.put_below(above, numbers)?;
        self.keep_alike(remainder, at)?;
        Ok(at)
    }

    /// Whether a node has these sources.
    fn is_node_of(&self, of: usize, numbers: &[usize]) -> bool
        ensures { result ≡ true → (ns : List Members) → Shows (objects_in self.now) numbers.now ns → IsNode self.now of ns }
    {
        match self.nodes.get(of) {
            Some(sources) => sources.numbers.as_slice() == numbers,
            None => false,
        }
    }

    /// The number of the node of an object at the top that was found before.
    fn known_top(&self, of: usize) -> Option<usize>
        ensures { (live : Live) → IsSound live self.now → IfSome result (λ k. (o : Members) → IsAt (objects_in self.now) of o → IsNode self.now k (sources_of live 0 o)) }
    {
        for top in self.tops.as_slice() {
            if top.of == of {
                return Some(top.at);
            }
        }
        None
    }

    /// Remembers the node of an object at the top, where it has many sources.
    fn keep_top(&mut self, of: usize, at: usize) -> Result<(), NoMemory>
        ensures later { OnOk result ((live : Live) (o : Members) → IsAt (objects_in self.old) of o → IsNode self.old at (sources_of live 0 o) → IsSound live self.old → Later live self.old self.new) }
        ensures held { held self.new ≡ held self.old }
    {
        if self.len(at) <= FEW_SOURCES {
            return Ok(());
        }
        self.tops.push(Top { of, at })?;
        Ok(())
    }

    /// The number of the node at the top, whose value is an object.
    pub fn top<N: Names>(&mut self, alloc: Global, names: &N, of: usize) -> Result<usize, Exhausted>
        requires sound { IsSound (N.served names.now) self.old }
        ensures found { IfOk result (λ k. (o : Members) → IsAt (objects_in self.old) of o → IsNode self.new k (sources_of (N.served names.now) 0 o)) }
        ensures later { OnOk result (Later (N.served names.now) self.old self.new) }
        ensures refused { IfErr result (GivesUp (N.served names.now) self.new) }
    {
        match self.known_top(of) {
            Some(known) => Ok(known),
            None => {
                if of >= self.book.len() {
                    return Ok(0);
                }
                let found = top_sources(alloc, names, of, &mut self.book)?;
                let at = self.put(found)?;
                self.keep_top(of, at)?;
                Ok(at)
            }
        }
    }

    /// Where a node's newest child is remembered.
    fn newest(&self, of: usize) -> usize {
        match self.newest.get(of) {
            Some(newest) => *newest,
            None => usize::MAX,
        }
    }

    /// The number of a child that was found before.
    fn known_child(&self, of: usize, label: &[u8]) -> Option<usize>
        ensures { (live : Live) → IsSound live self.now → IfSome result (λ k. (ns : List Members) → IsNode self.now of ns → IsNode self.now k (child_of live ns label.now)) }
    {
        let mut i = self.newest(of);
        while let Some(child) = self.children.get(i) {
            if child.of == of && child.label.as_slice() == label {
                return Some(child.at);
            }
            if child.older >= i {
                return None;
            }
            i = child.older;
        }
        None
    }

    /// Remembers a child, where the node above it has many sources.
    fn keep_child(
        &mut self,
        alloc: Global,
        of: usize,
        label: &[u8],
        at: usize,
    ) -> Result<(), NoMemory>
        ensures later { OnOk result ((live : Live) (ns : List Members) → IsNode self.old of ns → IsNode self.old at (child_of live ns label.now) → IsSound live self.old → Later live self.old self.new) }
        ensures held { held self.new ≡ held self.old }
    {
        if self.len(of) <= FEW_SOURCES {
            return Ok(());
        }
        let older = self.newest(of);
        let next = self.children.len();
        let label = Bytes::copy_of(alloc, label)?;
        self.newest.resize(self.nodes.len(), usize::MAX)?;
        self.children.push(Child {
            of,
            label,
            at,
            older,
        })?;
        if let Some(newest) = self.newest.get_mut(of) {
            *newest = next;
        }
        Ok(())
    }

    /// The number of a node's child, which is found by its sources where it wasn't before.
    fn child_under<N: Names>(
        &mut self,
        alloc: Global,
        names: &N,
        of: usize,
        label: &[u8],
    ) -> Result<usize, Exhausted>
        requires sound { IsSound (N.served names.now) self.old }
        ensures found { IfOk result (λ k. (ns : List Members) → IsNode self.old of ns → IsNode self.new k (child_of (N.served names.now) ns label.now)) }
        ensures later { OnOk result (Later (N.served names.now) self.old self.new) }
        ensures refused { IfErr result (GivesUp (N.served names.now) self.new) }
    {
        match self.known_child(of, label) {
            Some(known) => Ok(known),
            None => {
                let Some(sources) = self.nodes.get(of) else {
                    return Ok(of);
                };
                let found = child(
                    alloc,
                    names,
                    sources.numbers.as_slice(),
                    label,
                    &mut self.book,
                )?;
                let at = self.put_under(of, label, found)?;
                self.keep_child(alloc, of, label, at)?;
                Ok(at)
            }
        }
    }

    /// The number of a node's child under `*`, which is remembered under the label: no source has an entry under that.
    fn child_by_any<N: Names>(
        &mut self,
        alloc: Global,
        names: &N,
        of: usize,
        label: &[u8],
    ) -> Result<usize, Exhausted>
        requires sound { IsSound (N.served names.now) self.old }
        requires lacks { LacksEntry self.old of label.now }
        ensures found { IfOk result (λ k. (ns : List Members) → IsNode self.old of ns → IsNode self.new k (child_of (N.served names.now) ns label.now)) }
        ensures later { OnOk result (Later (N.served names.now) self.old self.new) }
        ensures refused { IfErr result (GivesUp (N.served names.now) self.new) }
    {
        let at = self.child_under(alloc, names, of, b"*")?;
        self.keep_child(alloc, of, label, at)?;
        Ok(at)
    }

    /// The number of the child of a node with many sources under a label: each source is asked once for that, and only where none has an
    /// entry for `*`.
    fn child_of_many<N: Names>(
        &mut self,
        alloc: Global,
        names: &N,
        of: usize,
        label: &[u8],
    ) -> Result<usize, Exhausted>
        requires sound { IsSound (N.served names.now) self.old }
        ensures found { IfOk result (λ k. (ns : List Members) → IsNode self.old of ns → IsNode self.new k (child_of (N.served names.now) ns label.now)) }
        ensures later { OnOk result (Later (N.served names.now) self.old self.new) }
        ensures refused { IfErr result (GivesUp (N.served names.now) self.new) }
    {
        let Some(sources) = self.nodes.get(of) else {
            return Ok(of);
        };
        let found = child_by_label(
            alloc,
            names,
            sources.numbers.as_slice(),
            label,
            &mut self.book,
        )?;
        if found.len() == 0 {
            return self.child_by_any(alloc, names, of, label);
        }
        let at = self.put_under(of, label, found)?;
        self.keep_child(alloc, of, label, at)?;
        Ok(at)
    }

    /// Counts the sources of a node, which are to be asked for a label.
    fn count_asked(&mut self, of: usize) -> Result<(), Exhausted>
        ensures later { OnOk result ((live : Live) → IsSound live self.old → Later live self.old self.new) }
        // Each of them counts.
        ensures counted { OnOk result ((ns : List Members) → IsNode self.old of ns → held self.new ≡ held self.old + length ns) }
        ensures refused { IfErr result (λ e. (live : Live) → IsSound live self.old → GivesUp live self.new e) }
    {
        match self.nodes.get(of) {
            Some(sources) => {
                self.book.count_asked(sources.numbers.as_slice().len())?;
                Ok(())
            }
            None => Ok(()),
        }
    }

    /// The number of a node's child under a label, which isn't remembered.
    fn new_child<N: Names>(
        &mut self,
        alloc: Global,
        names: &N,
        of: usize,
        label: &[u8],
    ) -> Result<usize, Exhausted>
        requires sound { IsSound (N.served names.now) self.old }
        ensures found { IfOk result (λ k. (ns : List Members) → IsNode self.old of ns → IsNode self.new k (child_of (N.served names.now) ns label.now)) }
        ensures later { OnOk result (Later (N.served names.now) self.old self.new) }
        ensures refused { IfErr result (GivesUp (N.served names.now) self.new) }
    {
        if self.len(of) <= FEW_SOURCES {
            return self.child_under(alloc, names, of, label);
        }
        self.child_of_many(alloc, names, of, label)
    }

    /// The number of a node's child under a label: its sources are those of the entries under the label, or, where no source has
    /// one, under `*`. Where it isn't remembered, each source of the node is counted, which is asked then.
    pub fn child<N: Names>(
        &mut self,
        alloc: Global,
        names: &N,
        of: usize,
        label: &[u8],
    ) -> Result<usize, Exhausted>
        requires sound { IsSound (N.served names.now) self.old }
        ensures found { IfOk result (λ k. (ns : List Members) → IsNode self.old of ns → IsNode self.new k (child_of (N.served names.now) ns label.now)) }
        ensures later { OnOk result (Later (N.served names.now) self.old self.new) }
        // Each source of the node counts that is asked.
        ensures counted { OnOk result ((ns : List Members) → IsNode self.old of ns → CountsAsked self.old self.new ns) }
        ensures refused { IfErr result (GivesUp (N.served names.now) self.new) }
    {
        match self.known_child(of, label) {
            Some(known) => Ok(known),
            None => {
                self.count_asked(of)?;
                let at = self.new_child(alloc, names, of, label)?;
                Ok(at)
            }
        }
    }
}
