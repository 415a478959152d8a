use rl_fsm::{EntryFsm, Fsm, RootFsm};
use rl_min::minimise;
use rl_types::{EntryId, KeyRange};
use std::alloc::Global;
use std::test::Fail;

// One character, and then the empty word.
fn root(alloc: Global) -> Result<RootFsm, Fail> {
    let range = KeyRange::new(97, 97).ok_or("a range")?;
    let mut root = RootFsm::new(alloc);
    let character = Fsm::of_set(alloc, [range].as_slice())?;
    if character.states() < 100 {
        root.push(EntryFsm::Plain(character))?;
    }
    let empty = Fsm::of_null(alloc)?;
    if empty.states() < 100 {
        root.push(EntryFsm::Plain(empty))?;
    }
    Ok(root)
}

// The starts come first, and final states last. Behind the character nothing is left to read, as in the empty word: one
// state serves both.
#[test]
fn numbers_are_canonical(rt: HostRuntime) -> Result<(), Fail> {
    let root = root(rt.alloc())?;
    if root.entry(EntryId(1)).is_some() {
        let machine = minimise(rt.alloc(), &root)?;
        assert_eq!(rt; machine.entries(), [1, 2].as_slice());
        assert_eq!(rt; machine.states(), 3);
        assert_eq!(rt; machine.first_final(), 2);
        let edges = machine.state(1).edges.as_slice();
        assert_eq!(rt; edges.len(), 1);
        assert_eq!(rt; edges[0].target, 2);
    }
    Ok(())
}
