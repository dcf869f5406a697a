//! Changes that find no memory: the object is as it was before, and so is its pin.

use crate::comparing::holds;
use pin_views::{SharedMap, SharedStack};
use std::alloc::Global;

/// So many keys: a chunk has 48 at most, so one is cut.
const COUNT: usize = 53;

/// The key that comes and goes at this place, in no order.
fn key_at(place: usize) -> usize {
    place.wrapping_mul(9) % COUNT
}

/// How many changes were refused, and whether all was as it should be.
#[derive(Drop)]
struct Seen {
    refused: u32,
    right: bool,
}

impl Seen {
    fn note_refusal(&mut self, right: bool) {
        self.refused = self.refused.saturating_add(1);
        self.looked(right);
    }

    fn looked(&mut self, right: bool) {
        self.right &= right;
    }
}

/// What a map should hold: a value, or none, for each key.
#[derive(Drop)]
struct Wanted {
    values: [Option<usize>; COUNT],
}

impl Wanted {
    fn put(&mut self, key: usize, value: Option<usize>) {
        if let Some(place) = self.values.get_mut(key) {
            *place = value;
        }
    }

    /// The map holds this, and nothing else.
    fn is(&self, map: &SharedMap<usize, usize>) -> bool {
        let mut right = true;
        let mut count = 0usize;
        for key in 0..COUNT {
            let want = self.values.get(key).copied().unwrap_or(None);
            right &= map.get(&key).copied() == want;
            if want.is_some() {
                count = count.saturating_add(1);
            }
        }
        right && map.at(count).is_none()
    }
}

/// Sets each key to itself and so much more. A change that is refused comes again.
fn set_all(
    alloc: Global,
    map: &mut SharedMap<usize, usize>,
    more: usize,
    want: &mut Wanted,
    seen: &mut Seen,
) {
    for place in 0..COUNT {
        let key = key_at(place);
        let value = key.wrapping_add(more);
        if map.set(alloc, key, value).is_err() {
            seen.note_refusal(want.is(map));
            seen.looked(map.set(alloc, key, value).is_ok());
        }
        want.put(key, Some(value));
    }
    seen.looked(want.is(map));
}

/// Takes the keys out, one by one. A change that is refused comes again.
fn unset_all(alloc: Global, map: &mut SharedMap<usize, usize>, want: &mut Wanted, seen: &mut Seen) {
    for place in 0..COUNT {
        let key = key_at(place);
        let mut found = map.unset(alloc, &key);
        if found.is_err() {
            seen.note_refusal(want.is(map));
            found = map.unset(alloc, &key);
        }
        seen.looked(found.is_ok_and(|found| found));
        want.put(key, None);
    }
    seen.looked(want.is(map));
}

/// A map whose keys come, get other values and go: the last by new parts, for a pin holds those that are there.
fn try_map(alloc: Global, seen: &mut Seen) {
    let mut map = SharedMap::new();
    let mut want = Wanted {
        values: [None; COUNT],
    };
    set_all(alloc, &mut map, 100, &mut want, seen);
    set_all(alloc, &mut map, 200, &mut want, seen);
    match map.pin() {
        Err(_) => seen.looked(false),
        Ok(pin) => {
            let kept = Wanted {
                values: want.values,
            };
            set_all(alloc, &mut map, 50, &mut want, seen);
            unset_all(alloc, &mut map, &mut want, seen);
            seen.looked(kept.is(&pin));
        }
    }
}

/// Puts an item on top of so many. A change that is refused comes again.
fn push(alloc: Global, stack: &mut SharedStack<u8>, item: u8, count: usize, seen: &mut Seen) {
    if stack.push(alloc, item).is_err() {
        seen.note_refusal(stack.at(count).is_none());
        seen.looked(stack.push(alloc, item).is_ok());
    }
    seen.looked(stack.at(count).copied() == Some(item));
}

/// A stack of three, of which the last stands where another was.
fn try_stack(alloc: Global, seen: &mut Seen) {
    let mut stack = SharedStack::new();
    push(alloc, &mut stack, 1, 0, seen);
    push(alloc, &mut stack, 2, 1, seen);
    push(alloc, &mut stack, 3, 2, seen);
    seen.looked(stack.pop());
    push(alloc, &mut stack, 4, 2, seen);
}

fn tried(alloc: Global) -> Seen {
    let mut seen = Seen {
        refused: 0,
        right: true,
    };
    try_map(alloc, &mut seen);
    try_stack(alloc, &mut seen);
    seen
}

// `checks/failing_trials_table` runs these two with each allocation failing in turn: the first passes whichever it is, and
// the second where there is none.
#[test]
fn a_change_without_memory_leaves_all_as_it_was(rt: HostRuntime) {
    holds(&rt, tried(rt.alloc()).right);
}

#[test]
fn with_memory_each_change_is_made(rt: HostRuntime) {
    let seen = tried(rt.alloc());
    holds(&rt, seen.right && seen.refused == 0);
}
