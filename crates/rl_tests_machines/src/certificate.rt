use rl_certificate::{Access, Apart, Certificate, Letter, check};
use rl_labels::Truths;
use rl_minimal::{MinEdge, MinFsm, MinState};
use rl_types::{EntryId, KeyRange, List};
use std::alloc::{AllocError, Global};
use std::test::Fail;

fn state(alloc: Global, edges: List<MinEdge>) -> MinState {
    MinState {
        kind: 0,
        home: 0,
        from: List::new(alloc),
        to: List::new(alloc),
        eof: List::new(alloc),
        error: List::new(alloc),
        token: List::new(alloc),
        edges,
    }
}

fn edge_to(alloc: Global, target: u32, range: KeyRange) -> Result<List<MinEdge>, AllocError> {
    let mut edges = List::new(alloc);
    edges.push(MinEdge {
        range,
        asks: Truths(0),
        truths: Truths(0),
        target,
        list: List::new(alloc),
    })?;
    Ok(edges)
}

// Error, a start, and a final state behind one character.
fn machine(alloc: Global) -> Result<Option<MinFsm>, Fail> {
    let range = KeyRange::new(97, 97).ok_or("a range")?;
    let mut states = Vec::new(alloc);
    states.push(state(alloc, List::new(alloc)))?;
    states.push(state(alloc, edge_to(alloc, 2, range)?))?;
    states.push(state(alloc, List::new(alloc)))?;
    Ok(MinFsm::new(states, [1].to_vec(alloc)?, 2))
}

fn access(alloc: Global) -> Result<Vec<Access>, AllocError> {
    let mut access = Vec::new(alloc);
    access.push(Access {
        state: 1,
        entry: EntryId(1),
        word: Vec::new(alloc),
    })?;
    let letter = Letter { key: 97, truths: 0 };
    access.push(Access {
        state: 2,
        entry: EntryId(1),
        word: [letter].to_vec(alloc)?,
    })?;
    Ok(access)
}

fn apart(alloc: Global) -> Result<Vec<Apart>, AllocError> {
    let mut apart = Vec::new(alloc);
    apart.push(Apart {
        low: 1,
        high: 2,
        word: Vec::new(alloc),
    })?;
    Ok(apart)
}

// The two states differ in their verdicts; without their pair the certificate is not right.
#[test]
fn each_pair_stands_there(rt: HostRuntime) -> Result<(), Fail> {
    let alloc = rt.alloc();
    let Some(min) = machine(alloc)? else {
        return Ok(());
    };
    let right = Certificate {
        access: access(alloc)?,
        apart: apart(alloc)?,
    };
    assert!(rt; check(&min, &right));
    let short = Certificate {
        access: access(alloc)?,
        apart: Vec::new(alloc),
    };
    assert!(rt; !check(&min, &short));
    Ok(())
}
