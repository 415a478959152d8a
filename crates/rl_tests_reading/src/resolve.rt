// Sources with a store in memory.
use rl_files::read_file;
use rl_io::{MemStore, Store};
use rl_model::Spec;
use rl_resolve::{ResolveFault, Runs, resolve};
use rl_types::{FaultKind, List, Name, Place};
use std::alloc::Global;

fn resolved(alloc: Global, text: &str, runs: Runs<'_>) -> Result<List<Spec>, ResolveFault> {
    let mut store = MemStore::new(alloc, Vec::new(alloc), Vec::new(alloc));
    let Ok(blocks) = read_file(alloc, text.as_bytes(), 0) else {
        return Err(ResolveFault::Memory);
    };
    let Ok(bytes) = Vec::from_slice(alloc, b"m.rl") else {
        return Err(ResolveFault::Memory);
    };
    resolve(alloc, blocks, &Name::new(bytes), runs, &mut store)
}

fn has_entries(answer: &Result<List<Spec>, ResolveFault>, counts: &[usize]) -> bool {
    let Ok(specs) = answer else {
        return false;
    };
    specs.len() == counts.len()
        && specs
            .as_slice()
            .iter()
            .zip(counts)
            .all(|(spec, count)| spec.entries.len() == *count)
}

fn is_fault(
    answer: &Result<List<Spec>, ResolveFault>,
    kind: FaultKind,
    line: u32,
    col: u32,
) -> bool {
    let place = Place { file: 0, line, col };
    match answer {
        Err(ResolveFault::Fault(fault, name)) => {
            fault.kind == kind && fault.place == place && name.bytes() == b"m.rl".as_slice()
        }
        _ => false,
    }
}

#[test]
fn machines_in_order(rt: HostRuntime) {
    let text = "%%{ machine m; main := any; machine n; x = 'b'; y := x; z := x; machine o; }%%";
    assert!(rt; has_entries(&resolved(rt.alloc(), text, Runs::First), &[1, 2, 0]));
    assert!(rt; has_entries(&resolved(rt.alloc(), text, Runs::Named("n")), &[1, 2, 0]));
}

#[test]
fn first_refusals(rt: HostRuntime) {
    let rows = [
        (
            "%%{ machine m; main := x 500; include 'm.rl'; }%%",
            FaultKind::F5,
            1,
            24,
        ),
        ("int x;", FaultKind::F4, 1, 1),
        (
            "%%{ machine m; x = 500; write data; }%%",
            FaultKind::F8,
            1,
            20,
        ),
        ("%%{ machine m;\nwrite data; }%%", FaultKind::F18, 2, 1),
        (
            "%%{ machine m; x = 'a'; machine n; y := x; }%%",
            FaultKind::F5,
            1,
            41,
        ),
        (
            "%%{ machine m; x = 'a'; machine n; y := 'a'; }%%",
            FaultKind::F18,
            1,
            1,
        ),
    ];
    for (text, kind, line, col) in rows {
        let answer = resolved(rt.alloc(), text, Runs::First);
        assert!(rt; is_fault(&answer, kind, line, col), "{text}");
    }
}
