//! Items by their places, whose pins share their nodes: what a stack stands on.

ghost use Rattle.std.specs.Prelude.{◌≡◌, ◌+◌, ◌*◌, ◌^◌, ◌<◌, ◌≤◌, length, slice_get, IfOk};
ghost use Rattle.std.specs.Option.{option_copied};
ghost use Rattle.pin_views.specs.Piles.{Places, empty, joined};

use nmc_base::NoMemory;
use std::alloc::Global;
use std::marker::Model;
use std::rc::Rc;

/// Items by their places, which grow at their end.
///
/// A pin is the same list over the same nodes. A change makes new nodes on its one way from the top, so a pin stays as it was. What
/// stands on the left of a node is full, so nodes go 64 deep at most, and so do calls and the letting go.
///
/// Contracts see the items in order, and how deep the nodes go.
#[cycle(tree)]
#[derive(Drop)]
pub(crate) struct Pile<T> {
    root: Option<Rc<Node<T>>>,
}

// The items on the left, an item, and those on the right. `before` counts those on the left, and `size` all.
#[cycle(tree)]
#[derive(Drop)]
struct Node<T> {
    left: Pile<T>,
    item: Rc<T>,
    right: Pile<T>,
    before: usize,
    size: usize,
}

impl<T> Model for Pile<T> {
    ghost use Rattle.std.specs.Prelude.{length};
    ghost use Rattle.pin_views.specs.Piles.{Heap};

    ghost Value = { Heap T };

    ghost use Rattle.pin_views.specs.Nodes.{heap_of, IsFit};

    ghost view = { λ p. heap_of p.root };

    ghost invariant = { λ p. IsFit p.root };

    ghost size = { λ h. length h.items };

    ghost use Rattle.std.proofs.Common.{arith, length-append};

    ghost size_decreases = { λ a h. Prim.grind (arith, length-append) };
}

impl<T> Pile<T> {
    /// No item. It takes no memory.
    pub(crate) fn new() -> Pile<T>
        ensures { result ≡ empty }
    {
        Pile { root: None }
    }

    /// The number of items: half of what is as deep has fewer.
    #[tactic(auto, using(crate::proofs::Placed::filled_by))]
    pub(crate) fn len(&self) -> usize
        ensures count { result ≡ length self.now.items }
        ensures filled { 2 ^ self.now.depth ≤ 2 * result + 1 }
    {
        match &self.root {
            None => 0,
            Some(node) => node.as_ref().size,
        }
    }

    /// The i-th item, counted from 0, or None exactly past the end.
    #[tactic(auto, using(crate::proofs::Placed::get_left, crate::proofs::Placed::get_middle, crate::proofs::Placed::get_right))]
    pub(crate) fn item(&self, i: usize) -> Option<&T>
        ensures { option_copied result ≡ slice_get self.now.items i }
    {
        match &self.root {
            None => None,
            Some(node) => {
                let node = node.as_ref();
                let before = node.before;
                if i < before {
                    node.left.item(i)
                } else if i == before {
                    Some(node.item.as_ref())
                } else {
                    node.right.item(i - before - 1)
                }
            }
        }
    }
}

impl<T: Drop> Pile<T> {
    /// The same list over the same nodes. It takes no memory: it is refused only where a node can count no further holder.
    pub(crate) fn pin(&self) -> Result<Pile<T>, NoMemory>
        ensures { IfOk result (λ p. p ≡ self.now) }
    {
        match &self.root {
            None => Ok(Pile { root: None }),
            Some(node) => {
                let node = node.clone()?;
                Ok(Pile { root: Some(node) })
            }
        }
    }

    /// The list with the item at the i-th place, which may be the one behind the last.
    pub(crate) fn put(&self, alloc: Global, i: usize, item: Rc<T>) -> Result<Pile<T>, NoMemory>
        requires place { i ≤ length self.now.items }
        requires fits { i + 1 < 2 ^ 64 }
        ensures { IfOk result (λ p. Places self.now p i item.value) }
    {
        match &self.root {
            None => join(alloc, Pile::new(), item, Pile::new()),
            Some(node) => {
                let node = node.as_ref();
                let before = node.before;
                let behind = node.size - before - 1;
                if i == node.size && behind == before {
                    let left = self.pin()?;
                    return join(alloc, left, item, Pile::new());
                }
                if i < before {
                    let left = node.left.put(alloc, i, item)?;
                    join_left(alloc, left, node)
                } else if i == before {
                    join_item(alloc, node, item)
                } else {
                    let right = node.right.put(alloc, i - before - 1, item)?;
                    join_right(alloc, node, right)
                }
            }
        }
    }
}

// An item between a full list and one that isn't longer.
fn join<T: Drop>(
    alloc: Global,
    left: Pile<T>,
    item: Rc<T>,
    right: Pile<T>,
) -> Result<Pile<T>, NoMemory>
    requires fits { length left.items + length right.items + 1 < 2 ^ 64 }
    requires full { length left.items + 1 ≡ 2 ^ left.depth }
    requires fewer { length right.items ≤ length left.items }
    ensures { IfOk result (λ p. p ≡ joined left item.value right) }
{
    let before = left.len();
    let size = before + right.len() + 1;
    let node = Node {
        left,
        item,
        right,
        before,
        size,
    };
    let node = Rc::new(alloc, node)?;
    Ok(Pile { root: Some(node) })
}

// The node with this on its left.
fn join_left<T: Drop>(alloc: Global, left: Pile<T>, node: &Node<T>) -> Result<Pile<T>, NoMemory>
    requires fits { length left.items + length node.now.right.items + 1 < 2 ^ 64 }
    requires full { length left.items + 1 ≡ 2 ^ left.depth }
    requires fewer { length node.now.right.items ≤ length left.items }
    ensures { IfOk result (λ p. p ≡ joined left node.now.item.value node.now.right) }
{
    let item = node.item.clone()?;
    let right = node.right.pin()?;
    join(alloc, left, item, right)
}

// The node with this item.
fn join_item<T: Drop>(alloc: Global, node: &Node<T>, item: Rc<T>) -> Result<Pile<T>, NoMemory>
    requires fits { length node.now.left.items + length node.now.right.items + 1 < 2 ^ 64 }
    requires full { length node.now.left.items + 1 ≡ 2 ^ node.now.left.depth }
    requires fewer { length node.now.right.items ≤ length node.now.left.items }
    ensures { IfOk result (λ p. p ≡ joined node.now.left item.value node.now.right) }
{
    let left = node.left.pin()?;
    let right = node.right.pin()?;
    join(alloc, left, item, right)
}

// The node with this on its right.
fn join_right<T: Drop>(alloc: Global, node: &Node<T>, right: Pile<T>) -> Result<Pile<T>, NoMemory>
    requires fits { length node.now.left.items + length right.items + 1 < 2 ^ 64 }
    requires full { length node.now.left.items + 1 ≡ 2 ^ node.now.left.depth }
    requires fewer { length right.items ≤ length node.now.left.items }
    ensures { IfOk result (λ p. p ≡ joined node.now.left node.now.item.value right) }
{
    let left = node.left.pin()?;
    let item = node.item.clone()?;
    join(alloc, left, item, right)
}
