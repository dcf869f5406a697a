//! Stacks that are pinned while they change.

use crate::comparing::holds;
use nmc_base::NoMemory;
use pin_views::SharedStack;
use std::alloc::Global;
use std::test::Fail;

fn of_two(alloc: Global) -> Result<SharedStack<u8>, NoMemory> {
    let mut stack = SharedStack::new();
    stack.push(alloc, 1)?;
    stack.push(alloc, 2)?;
    Ok(stack)
}

#[test]
fn a_stack_and_its_pin(rt: HostRuntime) -> Result<(), Fail> {
    let alloc = rt.alloc();
    let mut stack = of_two(alloc)?;
    let pin = stack.pin()?;
    let popped = stack.pop();
    stack.push(alloc, 3)?;
    let emptied = stack.pop() && stack.pop() && !stack.pop();
    stack.push(alloc, 4)?;
    holds(&rt, popped && emptied);
    holds(
        &rt,
        stack.at(0).copied() == Some(4) && stack.at(1).is_none(),
    );
    holds(
        &rt,
        pin.at(0).copied() == Some(1) && pin.at(1).copied() == Some(2),
    );
    holds(&rt, pin.at(2).is_none());
    Ok(())
}
