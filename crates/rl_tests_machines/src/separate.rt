ghost use Rattle.std.specs.Prelude.{IsTrue};
ghost use Rattle.rl_certificate.specs.Firsts.{AreOwnHomes};

use rl_certificate::{Access, Apart, CertFault, Certificate, Letter, check, separate};
use rl_labels::Truths;
use rl_minimal::{MinEdge, MinFsm, MinState};
use rl_types::{EntryId, KeyRange, List};
use std::alloc::{AllocError, Global};
use std::test::Fail;

const A: Letter = Letter { key: 97, truths: 0 };

const C: Letter = Letter { key: 99, truths: 0 };

fn state(alloc: Global, edges: List<MinEdge>) -> MinState {
    MinState {
        kind: 0,
        home: 0,
        from: List::new(alloc),
        to: List::new(alloc),
        eof: List::new(alloc),
        error: List::new(alloc),
        token: List::new(alloc),
        edges,
    }
}

fn edge(alloc: Global, target: u32, range: KeyRange) -> MinEdge {
    MinEdge {
        range,
        asks: Truths(0),
        truths: Truths(0),
        target,
        list: List::new(alloc),
    }
}

fn edges(
    alloc: Global,
    on_a: u32,
    on_c: u32,
    a: KeyRange,
    c: KeyRange,
) -> Result<List<MinEdge>, AllocError> {
    let mut edges = List::new(alloc);
    edges.push(edge(alloc, on_a, a))?;
    edges.push(edge(alloc, on_c, c))?;
    Ok(edges)
}

// Error; a start that a leads to the second and c to the third; from the second both lead to the fourth, which is final;
// the third has no step.
fn machine(alloc: Global) -> Result<Option<MinFsm>, Fail> {
    let a = KeyRange::new(97, 97).ok_or("a range")?;
    let c = KeyRange::new(99, 99).ok_or("a range")?;
    let mut states = Vec::new(alloc);
    states.push(state(alloc, List::new(alloc)))?;
    states.push(state(alloc, edges(alloc, 2, 3, a, c)?))?;
    states.push(state(alloc, edges(alloc, 4, 4, a, c)?))?;
    states.push(state(alloc, List::new(alloc)))?;
    states.push(state(alloc, List::new(alloc)))?;
    Ok(MinFsm::new(states, [1, 1].to_vec(alloc)?, 4))
}

fn access(alloc: Global) -> Result<Vec<Access>, AllocError> {
    let words = [
        (1, Vec::new(alloc)),
        (2, [A].to_vec(alloc)?),
        (3, [C].to_vec(alloc)?),
        (4, [A, A].to_vec(alloc)?),
    ];
    let mut access = Vec::new(alloc);
    for (state, word) in Vec::from_array(alloc, words)? {
        access.push(Access {
            state,
            entry: EntryId(1),
            word,
        })?;
    }
    Ok(access)
}

fn apart(alloc: Global) -> Result<Vec<Apart>, AllocError> {
    let mut apart = Vec::new(alloc);
    apart.push(Apart {
        low: 1,
        high: 2,
        word: [A].to_vec(alloc)?,
    })?;
    for (low, high) in [(1, 3), (1, 4), (2, 3), (2, 4), (3, 4)] {
        apart.push(Apart {
            low,
            high,
            word: Vec::new(alloc),
        })?;
    }
    Ok(apart)
}

// Whether no state is of a scanner.
fn is_plain(min: &MinFsm) -> bool
    ensures { IsTrue result → AreOwnHomes min.now }
{
    min.all_states().iter().all(|s| s.kind == 0)
}

// Of the two words of two letters that lead to the last state the first is taken.
#[test]
fn words_are_the_first(rt: HostRuntime) -> Result<(), Fail> {
    let alloc = rt.alloc();
    let Some(min) = machine(alloc)? else {
        return Ok(());
    };
    let expected = Certificate {
        access: access(alloc)?,
        apart: apart(alloc)?,
    };
    let is_reduced = check(&min, &expected);
    assert!(rt; is_reduced);
    if is_reduced && is_plain(&min) {
        match separate(alloc, &min) {
            Ok(made) => {
                let (made, expected) = (
                    format!(in alloc; "{made:?}")?,
                    format!(in alloc; "{expected:?}")?,
                );
                assert!(rt; made == expected);
            }
            Err(CertFault::TooMany(_)) => assert!(rt; false),
            Err(CertFault::Memory) => {}
        }
    }
    Ok(())
}
