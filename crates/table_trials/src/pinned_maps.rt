//! Maps that are pinned while they change, over the bounds of their parts.

use crate::comparing::holds;
use nmc_base::NoMemory;
use pin_views::SharedMap;
use std::alloc::Global;
use std::test::Fail;

/// The numbers below a bound, each with ten times itself, put in by turns from both ends.
fn numbers(alloc: Global, bound: u32) -> Result<SharedMap<u32, u32>, NoMemory> {
    let mut map = SharedMap::new();
    for i in 0..bound {
        let key = if i % 2 == 0 { i / 2 } else { bound - 1 - i / 2 };
        map.set(alloc, key, key.wrapping_mul(10))?;
    }
    Ok(map)
}

/// The map has these pairs, in this order, and no more.
fn has(map: &SharedMap<u32, u32>, want: &[(u32, u32)]) -> bool {
    let mut right = map.at(want.len()).is_none();
    for (i, pair) in want.iter().enumerate() {
        right &= map
            .at(i)
            .is_some_and(|(key, value)| *key == pair.0 && *value == pair.1);
    }
    right
}

/// Gives 2 another value, and takes 4 out. There is no 9.
fn change(alloc: Global, map: &mut SharedMap<u32, u32>) -> Result<bool, NoMemory> {
    map.set(alloc, 2, 7)?;
    let there = map.unset(alloc, &4)?;
    let absent = !map.unset(alloc, &9)?;
    Ok(there && absent)
}

#[test]
fn a_pin_stays_as_it_was(rt: HostRuntime) -> Result<(), Fail> {
    let alloc = rt.alloc();
    let mut map = numbers(alloc, 5)?;
    let pin = map.pin()?;
    let changed = change(alloc, &mut map)?;
    holds(&rt, changed);
    holds(&rt, has(&map, &[(0, 0), (1, 10), (2, 7), (3, 30)]));
    holds(
        &rt,
        has(&pin, &[(0, 0), (1, 10), (2, 20), (3, 30), (4, 40)]),
    );
    Ok(())
}

/// Each number from one on to a bound is found, and they are the pairs, in their order.
fn just_these_are_there(map: &SharedMap<u32, u32>, from: u32, bound: u32) -> bool {
    let mut right = map.len() == bound.wrapping_sub(from) as usize;
    for i in from..bound {
        right &= map.get(&i).copied() == Some(i.wrapping_mul(10));
        right &= map
            .at(i.wrapping_sub(from) as usize)
            .is_some_and(|(key, _value)| *key == i);
    }
    right && map.at(bound.wrapping_sub(from) as usize).is_none()
}

/// The numbers below the bound go one by one, from the least on; at each time those that are left are there, and the pin has all.
fn empties(alloc: Global, bound: u32) -> Result<bool, NoMemory> {
    let mut map = numbers(alloc, bound)?;
    let pin = map.pin()?;
    let mut right = just_these_are_there(&map, 0, bound);
    for i in 0..bound {
        right &= map.unset(alloc, &i)?;
        right &= just_these_are_there(&map, i.wrapping_add(1), bound);
    }
    Ok(right && just_these_are_there(&pin, 0, bound))
}

// A chunk has 48 pairs at most, and is cut before it takes one more.
#[test]
fn chunks_fill_and_are_cut_and_emptied(rt: HostRuntime) -> Result<(), Fail> {
    let mut right = true;
    for bound in [0, 1, 2, 47, 48, 49, 96, 97] {
        right &= empties(rt.alloc(), bound)?;
    }
    holds(&rt, right);
    Ok(())
}

/// The even numbers below the bound are taken out, each once.
fn without_even(
    alloc: Global,
    map: &mut SharedMap<u32, u32>,
    bound: u32,
) -> Result<bool, NoMemory> {
    let mut right = true;
    for i in 0..bound / 2 {
        right &= map.unset(alloc, &(i * 2))?;
        right &= !map.unset(alloc, &(i * 2))?;
    }
    Ok(right)
}

/// The odd numbers below the bound are left.
fn odd_are_there(map: &SharedMap<u32, u32>, bound: u32) -> bool {
    let mut right = true;
    for i in 0..bound / 2 {
        right &= map.get(&(i * 2)).is_none();
        right &= map
            .at(i as usize)
            .is_some_and(|(key, _value)| *key == i * 2 + 1);
    }
    right && map.at(bound as usize / 2).is_none()
}

// So many that parts of both levels are cut, on both sides.
#[test]
fn many_keys_come_and_go(rt: HostRuntime) -> Result<(), Fail> {
    let alloc = rt.alloc();
    let mut map = numbers(alloc, 2000)?;
    holds(&rt, just_these_are_there(&map, 0, 2000));
    let taken = without_even(alloc, &mut map, 2000)?;
    holds(&rt, taken && odd_are_there(&map, 2000));
    Ok(())
}
