//! The sources of the child of a node under a label.

ghost use Rattle.std.specs.Prelude.{◌≡◌, ◌≢◌, ℕ, ◌≤◌, [], ◌∷◌, List, take, length, IfOk, IfErr, OnOk};
ghost use Rattle.std.specs.List.{flat_map};
ghost use Rattle.serde_json.specs.Data.{Members};
ghost use Rattle.import_expand.specs.Sources.{all_sources, child_of, entries};
ghost use Rattle.import_expand.specs.Books.{objects, GivesUp, Joins, Shows, IsSound, Later};

use crate::book::Book;
use crate::exhausted::Exhausted;
use crate::expansion::expand;
use crate::joining::join_many;
use crate::limits::{FEW_SOURCES, MOST_SOURCES};
use crate::names::Names;
use std::alloc::Global;

/// Adds the sources of the entries under a label.
fn join<N: Names>(
    alloc: Global,
    names: &N,
    of: &[usize],
    label: &[u8],
    book: &mut Book,
    found: &mut Vec<usize>,
) -> Result<(), Exhausted>
    requires few { length found.old.items ≤ 256 }
    requires sound { IsSound (N.served names.now) book.old }
    ensures few { length found.new.items ≤ 256 }
    ensures later { OnOk result (Later (N.served names.now) book.old book.new) }
    ensures added { OnOk result (Joins (N.served names.now) label.now of.now book.old found.old.items book.new found.new.items) }
    ensures refused { IfErr result (GivesUp (N.served names.now) book.new) }
{
    for source in of {
        if found.len() == MOST_SOURCES {
            return Ok(());
        }
        match book.entry(alloc, *source, label)? {
            Some(entry) => expand(alloc, names, entry, 0, book, found)?,
            None => {}
        }
    }
    Ok(())
}

/// The sources of the entries under a label.
fn join_all<N: Names>(
    alloc: Global,
    names: &N,
    of: &[usize],
    label: &[u8],
    book: &mut Book,
) -> Result<Vec<usize>, Exhausted>
    requires sound { IsSound (N.served names.now) book.old }
    ensures found { IfOk result (λ v. (ns : List Members) → Shows (objects book.old) of.now ns → Shows (objects book.new) v.items (take 256 (flat_map (all_sources (N.served names.now) 4) (entries label.now ns)))) }
    ensures later { OnOk result (Later (N.served names.now) book.old book.new) }
    ensures refused { IfErr result (GivesUp (N.served names.now) book.new) }
{
    if of.len() > FEW_SOURCES {
        return join_many(alloc, names, of, label, book);
    }
    let mut found = Vec::new(alloc);
    join(alloc, names, of, label, book, &mut found)?;
    Ok(found)
}

/// The sources of the child under a label: of each source's entry under the label, or, where no source has one, under
/// `*`; the first 256 of them. None says that there is no such node.
pub(crate) fn child<N: Names>(
    alloc: Global,
    names: &N,
    of: &[usize],
    label: &[u8],
    book: &mut Book,
) -> Result<Vec<usize>, Exhausted>
    requires sound { IsSound (N.served names.now) book.old }
    ensures found { IfOk result (λ v. (ns : List Members) → Shows (objects book.old) of.now ns → Shows (objects book.new) v.items (child_of (N.served names.now) ns label.now)) }
    ensures later { OnOk result (Later (N.served names.now) book.old book.new) }
    ensures refused { IfErr result (GivesUp (N.served names.now) book.new) }
{
    let found = join_all(alloc, names, of, label, book)?;
    if found.len() > 0 {
        return Ok(found);
    }
    let found = join_all(alloc, names, of, b"*", book)?;
    Ok(found)
}

/// The sources of the child under a label, where a source has an entry under that; else none.
pub(crate) fn child_by_label<N: Names>(
    alloc: Global,
    names: &N,
    of: &[usize],
    label: &[u8],
    book: &mut Book,
) -> Result<Vec<usize>, Exhausted>
    requires sound { IsSound (N.served names.now) book.old }
    ensures found { IfOk result (λ v. v.items ≢ [] → (ns : List Members) → Shows (objects book.old) of.now ns → Shows (objects book.new) v.items (child_of (N.served names.now) ns label.now)) }
    ensures none { IfOk result (λ v. v.items ≡ [] → (ns : List Members) → Shows (objects book.old) of.now ns → entries label.now ns ≡ []) }
    ensures later { OnOk result (Later (N.served names.now) book.old book.new) }
    ensures refused { IfErr result (GivesUp (N.served names.now) book.new) }
{
    join_all(alloc, names, of, label, book)
}
