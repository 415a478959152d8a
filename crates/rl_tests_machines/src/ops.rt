use rl_fsm::Fsm;
use rl_ops::{BuildFault, and, cat, minus, or, star};
use rl_types::KeyRange;
use std::alloc::Global;
use std::test::Fail;

// The machine of the character `a`.
fn letter_a(alloc: Global) -> Result<Fsm, Fail> {
    let range = KeyRange::new(97, 97).ok_or("no range")?;
    let machine = Fsm::of_set(alloc, &[range])?;
    Ok(machine)
}

#[test]
fn states_are_counted(rt: HostRuntime) -> Result<(), Fail> {
    let a = letter_a(rt.alloc())?;
    let either = or(rt.alloc(), &a, &a, 100)?;
    assert_eq!(rt; either.states(), 2);
    let twice = cat(rt.alloc(), &either, &a, 100)?;
    assert_eq!(rt; twice.states(), 3);
    let pairs = star(rt.alloc(), &twice, 1, 100)?;
    assert_eq!(rt; pairs.states(), 3);
    Ok(())
}

#[test]
fn dead_steps_are_left_out(rt: HostRuntime) -> Result<(), Fail> {
    let a = letter_a(rt.alloc())?;
    let twice = cat(rt.alloc(), &a, &a, 100)?;
    let never = and(rt.alloc(), &a, &twice, 100)?;
    assert_eq!(rt; never.states(), 1);
    let once = minus(rt.alloc(), &a, &twice, 100)?;
    assert_eq!(rt; once.states(), 2);
    assert_eq!(rt; or(rt.alloc(), &a, &twice, 2).err(), Some(BuildFault::L8));
    Ok(())
}
