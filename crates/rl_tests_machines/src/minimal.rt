use rl_labels::Truths;
use rl_minimal::{MinEdge, MinFsm, MinState};
use rl_types::{KeyRange, List};
use std::alloc::{AllocError, Global};
use std::test::Fail;

fn state(alloc: Global, edges: List<MinEdge>) -> MinState {
    MinState {
        kind: 0,
        home: 0,
        from: List::new(alloc),
        to: List::new(alloc),
        eof: List::new(alloc),
        error: List::new(alloc),
        token: List::new(alloc),
        edges,
    }
}

fn edge_to(alloc: Global, target: u32, range: KeyRange) -> Result<List<MinEdge>, AllocError> {
    let mut edges = List::new(alloc);
    edges.push(MinEdge {
        range,
        asks: Truths(0),
        truths: Truths(0),
        target,
        list: List::new(alloc),
    })?;
    Ok(edges)
}

// Error, a start with an edge, and a final state.
fn machine(alloc: Global, target: u32) -> Result<Option<MinFsm>, Fail> {
    let range = KeyRange::new(97, 97).ok_or("a range")?;
    let mut states = Vec::new(alloc);
    states.push(state(alloc, List::new(alloc)))?;
    states.push(state(alloc, edge_to(alloc, target, range)?))?;
    states.push(state(alloc, List::new(alloc)))?;
    Ok(MinFsm::new(states, [1].to_vec(alloc)?, 2))
}

#[test]
fn targets_are_alive(rt: HostRuntime) -> Result<(), Fail> {
    assert!(rt; machine(rt.alloc(), 2)?.is_some());
    assert!(rt; machine(rt.alloc(), 0)?.is_none());
    assert!(rt; machine(rt.alloc(), 3)?.is_none());
    Ok(())
}
