use rl_labels::Truths;
use rl_minimal::{MinEdge, MinFsm, MinState};
use rl_refine::classes;
use rl_types::{KeyRange, List};
use std::alloc::{AllocError, Global};
use std::test::Fail;

fn state(alloc: Global, edges: List<MinEdge>) -> MinState {
    MinState {
        kind: 0,
        home: 0,
        from: List::new(alloc),
        to: List::new(alloc),
        eof: List::new(alloc),
        error: List::new(alloc),
        token: List::new(alloc),
        edges,
    }
}

fn edge(alloc: Global, target: u32, range: KeyRange) -> MinEdge {
    MinEdge {
        range,
        asks: Truths(0),
        truths: Truths(0),
        target,
        list: List::new(alloc),
    }
}

fn one_edge(alloc: Global, edge: MinEdge) -> Result<List<MinEdge>, AllocError> {
    let mut edges = List::new(alloc);
    edges.push(edge)?;
    Ok(edges)
}

fn two_edges(alloc: Global, one: MinEdge, other: MinEdge) -> Result<List<MinEdge>, AllocError> {
    let mut edges = List::new(alloc);
    edges.push(one)?;
    edges.push(other)?;
    Ok(edges)
}

// Error; a start; two states that read the same keys in one range and in two; an idle state; two final states.
fn machine(alloc: Global) -> Result<Option<MinFsm>, Fail> {
    let first = KeyRange::new(97, 97).ok_or("a range")?;
    let second = KeyRange::new(98, 98).ok_or("a range")?;
    let whole = KeyRange::new(99, 102).ok_or("a range")?;
    let front = KeyRange::new(99, 100).ok_or("a range")?;
    let back = KeyRange::new(101, 102).ok_or("a range")?;
    let mut states = Vec::new(alloc);
    states.push(state(alloc, List::new(alloc)))?;
    let start = two_edges(alloc, edge(alloc, 2, first), edge(alloc, 3, second))?;
    states.push(state(alloc, start))?;
    states.push(state(alloc, one_edge(alloc, edge(alloc, 5, whole))?))?;
    let split = two_edges(alloc, edge(alloc, 5, front), edge(alloc, 6, back))?;
    states.push(state(alloc, split))?;
    states.push(state(alloc, List::new(alloc)))?;
    states.push(state(alloc, List::new(alloc)))?;
    states.push(state(alloc, List::new(alloc)))?;
    Ok(MinFsm::new(states, [1].to_vec(alloc)?, 5))
}

// The two states are alike, since their targets are; the idle state is not Error.
#[test]
fn ranges_may_be_split(rt: HostRuntime) -> Result<(), Fail> {
    let alloc = rt.alloc();
    let Some(machine) = machine(alloc)? else {
        return Ok(());
    };
    let found = classes(alloc, &machine)?;
    assert_eq!(rt; found.as_slice(), [0, 1, 2, 2, 4, 5, 5].as_slice());
    Ok(())
}
