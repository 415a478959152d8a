// Small files, and the first refusals of others.
use rl_files::read_file;
use rl_grammar::ReadFault;
use rl_grammar::syntax::Syntax;
use rl_types::{Fault, FaultKind, List, Place};
use std::alloc::Global;

const TWO_BLOCKS: &str = "int x;
%%{ machine m; write data; }%%
int y;
%% machine n;
";

fn has_lengths(answer: &Result<List<Syntax>, ReadFault>) -> bool {
    let Ok(trees) = answer else {
        return false;
    };
    let [first, second] = trees.as_slice() else {
        return false;
    };
    first.statements.len() == 2 && second.statements.len() == 1
}

fn is_fault(alloc: Global, text: &str, kind: FaultKind, line: u32, col: u32) -> bool {
    let place = Place { file: 3, line, col };
    let answer = read_file(alloc, text.as_bytes(), 3);
    matches!(answer, Err(ReadFault::Fault(fault)) if fault == Fault { kind, place })
}

#[test]
fn reads_each_block(rt: HostRuntime) {
    let answer = read_file(rt.alloc(), TWO_BLOCKS.as_bytes(), 0);
    assert!(rt; has_lengths(&answer));
}

// Each step is over the whole file: first its parts, then the tokens of all blocks, then their trees.
#[test]
fn tells_the_first_refusal(rt: HostRuntime) {
    let rows = [
        ("%%{ x = ; }%%\n%%{ ` }%%\n%%{", FaultKind::F2, 3, 1),
        ("%%{ x = ; }%%\n%%{ ` }%%", FaultKind::F1, 2, 5),
        ("%%{ x = ; }%%\n%%{ y = ; }%%", FaultKind::F3, 1, 9),
    ];
    for (text, kind, line, col) in rows {
        assert!(rt; is_fault(rt.alloc(), text, kind, line, col), "{text}");
    }
}
