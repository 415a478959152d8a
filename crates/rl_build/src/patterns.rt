// Scanners: the machines of their patterns, side by side.
ghost use Rattle.std.specs.Prelude.{◌≡◌, ◌≤◌, List, IfOk, MatchResult, flat_map, map};
ghost use Rattle.rl_types.specs.Limits.{most_nodes};
ghost use Rattle.rl_types.specs.declared.alphabet.Alphabet.{Alphabet};
ghost use Rattle.rl_automata.specs.Nodes.{Node};
ghost use Rattle.rl_automata.specs.Refused.{sets_in, conditions_in};
ghost use Rattle.rl_automata.specs.Scans as scans;
ghost use Rattle.rl_automata.specs.Scans.{Scanner};
ghost use Rattle.rl_fsm.specs.declared.root.EntryFsm.{EntryFsm};
ghost use Rattle.rl_model.specs.Specification.{pattern_of};
ghost use Rattle.rl_build.specs.Cells.{AreCells};
ghost use Rattle.rl_build.specs.Chains.{AreBuilt};
ghost use Rattle.rl_build.specs.Entries.{ArePatternsFit, IsEntryBuilt, IsRootRefused};
ghost use Rattle.rl_build.specs.Patterns.{ranges_together, IsRow, IsRowWith, IsScannerMadeFor};
ghost use Rattle.rl_build.specs.Trees.{IsAnswer, IsSmallAnswer};

use crate::built::{Built, Refused};
use crate::cells::Cells;
use crate::chain::pushed;
use crate::counting::{joined, most, no_cells};
use crate::leaves::push;
use crate::walk::expression;
use rl_fsm::{EntryFsm, Fsm, ScanFsm};
use rl_model::Pattern;
use rl_ops::BuildFault;
use rl_scan::scanner;
use rl_types::{ActionId, Alphabet, Memory};
use std::alloc::Global;

// The patterns of a scanner, each of them built, and how many nodes they have together.
#[derive(Drop)]
pub struct Row {
    pub patterns: Vec<Built>,
    pub nodes: u32,
}

// The machines of patterns, and how the cells of the scanner's configurations are counted.
#[derive(Drop)]
pub struct Side {
    pub machines: Vec<Fsm>,
    pub cells: Cells,
}

// The patterns and one more, of its answer.
fn with_pattern(row: Row, answer: Result<Built, Refused>) -> Result<Row, Refused>
    requires few { row.nodes ≤ most_nodes }
    requires small { IsSmallAnswer answer }
    ensures { (alphabet : Alphabet) (ps : List scans.Pattern) (p : scans.Pattern) → IsRow alphabet ps row → IsAnswer alphabet p.tree answer → IsRowWith alphabet ps p result }
{
    match answer {
        Ok(built) => {
            let nodes = row.nodes + built.nodes;
            match pushed(row.patterns, built) {
                Ok(patterns) => Ok(Row { patterns, nodes }),
                Err(refused) => Err(refused),
            }
        }
        Err(refused) => Err(Refused {
            fault: refused.fault,
            node: row.nodes + refused.node,
        }),
    }
}

// The patterns, each of them built, or the first of their nodes that is refused.
fn row_of(alloc: Global, alphabet: Alphabet, patterns: &[Pattern]) -> Result<Row, Refused>
    requires { ArePatternsFit (map pattern_of patterns.now) }
    ensures { MatchResult result (IsRow alphabet (map pattern_of patterns.now)) (IsRootRefused alphabet (Scanner (map pattern_of patterns.now))) }
{
    let mut row = Row {
        patterns: Vec::new(alloc),
        nodes: 0,
    };
    for pattern in patterns {
        row = with_pattern(row, expression(alloc, alphabet, &pattern.tree))?;
    }
    Ok(row)
}

// The machines of these patterns, and the cells of all of them together.
fn side_of(alloc: Global, alphabet: Alphabet, patterns: Vec<Built>) -> Result<Side, Memory>
    requires { ranges_together patterns.items ≤ 25600000 }
    ensures machines { IfOk result (λ s. s.machines.items ≡ map (λ b. b.machine) patterns.items) }
    ensures cells { IfOk result (λ s. (ts : List Node) → AreBuilt alphabet ts patterns.items → AreCells alphabet (flat_map sets_in ts) (flat_map conditions_in ts) s.cells) }
{
    let mut machines: Vec<Fsm> = Vec::new(alloc);
    let mut cells = no_cells(alloc, alphabet)?;
    for pattern in patterns {
        cells = joined(alloc, alphabet, cells, pattern.cells)?;
        push(&mut machines, pattern.machine)?;
    }
    Ok(Side { machines, cells })
}

// The actions of the patterns' tokens.
fn tokens_of(alloc: Global, patterns: &[Pattern]) -> Result<Vec<Option<ActionId>>, Memory>
    ensures { IfOk result (λ v. v.items ≡ map (λ p. p.token) patterns.now) }
{
    let mut tokens: Vec<Option<ActionId>> = Vec::new(alloc);
    for pattern in patterns {
        push(&mut tokens, pattern.token)?;
    }
    Ok(tokens)
}

// The machine of the scanner of these patterns, each of which is built, or the fault of its own node.
fn scanner_of(
    alloc: Global,
    alphabet: Alphabet,
    patterns: &[Pattern],
    row: Row,
) -> Result<ScanFsm, BuildFault>
    requires fit { ArePatternsFit (map pattern_of patterns.now) }
    requires built { IsRow alphabet (map pattern_of patterns.now) row }
    ensures { IsScannerMadeFor alphabet (map pattern_of patterns.now) row.nodes result }
{
    let tokens = tokens_of(alloc, patterns)?;
    let side = side_of(alloc, alphabet, row.patterns)?;
    let most = most(&side.cells);
    scanner(alloc, side.machines, &tokens, most)
}

// The machine of a scanner, or the first of its nodes that is refused: those of its patterns in order, and then itself.
pub fn scanned(alloc: Global, alphabet: Alphabet, patterns: &[Pattern]) -> Result<EntryFsm, Refused>
    requires { ArePatternsFit (map pattern_of patterns.now) }
    ensures { MatchResult result (IsEntryBuilt alphabet (Scanner (map pattern_of patterns.now))) (IsRootRefused alphabet (Scanner (map pattern_of patterns.now))) }
{
    let row = row_of(alloc, alphabet, patterns)?;
    let node = row.nodes;
    match scanner_of(alloc, alphabet, patterns, row) {
        Ok(machine) => Ok(EntryFsm::Scanner(machine)),
        Err(fault) => Err(Refused { fault, node }),
    }
}
