// The machine of a scanner.
ghost use Rattle.std.specs.Prelude.{◌≡◌, ◌<◌, ◌≤◌, List, IfOk, IfSome, IfErr, OnOk, length, map};
ghost use Rattle.std.specs.Option.{option_map};
ghost use Rattle.rl_labels.specs.Labels.{numbers};
ghost use Rattle.rl_automata.specs.Auto.{quiet};
ghost use Rattle.rl_automata.specs.Scans.{Pattern};
ghost use Rattle.rl_fsm.specs.Builds.{Builds};
ghost use Rattle.rl_explore.specs.Numbers.{HasNoCause};
ghost use Rattle.rl_scan.specs.Beside.{side_auto, side_jams, tokens_of, first_empty_from};
ghost use Rattle.rl_scan.specs.Scanners.{BuildsScanner, ScannerStandsFor, StandForPatterns, HasNoScanCause, IsScanCause};
ghost use Rattle.rl_scan.specs.Walks.{walked};

use crate::operator::Side;
use crate::tokens::token_lists;
use crate::walk::configurations;
use rl_explore::{BuildFault, explore};
use rl_fsm::{Fsm, ScanFsm};
use rl_types::{ActionId, Memory};
use std::alloc::Global;

// The number of the first machine whose start is final.
fn first_empty(machines: &[Fsm]) -> Option<usize>
    ensures number { result ≡ first_empty_from 0 machines.now }
    ensures below { IfSome result (λ i. i < length machines.now) }
{
    for (i, m) in machines.iter().enumerate() {
        if m.is_final(m.start()) {
            return Some(i);
        }
    }
    None
}

// The machine that the machines side by side make.
fn explored(alloc: Global, machines: &[Fsm], most: u32) -> Result<Fsm, BuildFault>
    ensures builds { IfOk result (λ m. Builds (quiet (side_auto machines.now)) m) }
    ensures accepted { OnOk result (HasNoCause (side_auto machines.now) (side_jams machines.now) most) }
    ensures refused { IfErr result (IsScanCause machines.now most) }
{
    let side = Side { machines };
    explore(alloc, &side, most)
}

// The same, where no start is final.
fn machine_of(alloc: Global, machines: &[Fsm], most: u32) -> Result<Fsm, BuildFault>
    requires { length machines.now ≤ 4294967295 }
    ensures builds { IfOk result (λ m. Builds (quiet (side_auto machines.now)) m) }
    ensures accepted { OnOk result (HasNoScanCause machines.now most) }
    ensures refused { IfErr result (IsScanCause machines.now most) }
{
    let machine = explored(alloc, machines, most)?;
    if let Some(pattern) = first_empty(machines) {
        return Err(BuildFault::F12(pattern as u32));
    }
    Ok(machine)
}

// The token lists of the machine's states.
fn lists_of(
    alloc: Global,
    machines: &[Fsm],
    tokens: &[Option<ActionId>],
    machine: &Fsm,
) -> Result<Vec<Option<rl_types::List<ActionId>>>, Memory>
    ensures { IfOk result (λ v. map (option_map numbers) v.items ≡ map (tokens_of machines.now tokens.now) (walked (side_auto machines.now) machine.now)) }
{
    let side = Side { machines };
    let found = configurations(alloc, &side, machine)?;
    token_lists(alloc, machines, tokens, &found)
}

// The scanner of the machine and the lists; where they make none, the free answer.
fn joined(machine: Fsm, lists: Vec<Option<rl_types::List<ActionId>>>) -> Result<ScanFsm, Memory>
    ensures { IfOk result (λ s. s ≡ record { machine = machine; tokens = lists.items }) }
{
    match ScanFsm::new(machine, lists) {
        Some(scanner) => Ok(scanner),
        None => Err(Memory),
    }
}

// The scanner of the machines.
fn scanned(
    alloc: Global,
    machines: &[Fsm],
    tokens: &[Option<ActionId>],
    most: u32,
) -> Result<ScanFsm, BuildFault>
    requires { length machines.now ≤ 4294967295 }
    ensures builds { IfOk result (λ s. BuildsScanner (quiet (side_auto machines.now)) (tokens_of machines.now tokens.now) s) }
    ensures accepted { OnOk result (HasNoScanCause machines.now most) }
    ensures refused { IfErr result (IsScanCause machines.now most) }
{
    let machine = machine_of(alloc, machines, most)?;
    let lists = lists_of(alloc, machines, tokens, &machine)?;
    let scanner = joined(machine, lists)?;
    Ok(scanner)
}

/// The scanner `|* p1 => a1; p2 => a2; *|` of these patterns (the guide's section 6.3), where a pattern may have no
/// action. At a letter the candidates of all patterns are cut as one set, and each pattern goes on for itself; a pattern
/// that has no way on is left out (this profile). A state in which some pattern is final is a match. Its token list has
/// the leaving actions of the least such pattern, and then the pattern's action, unless that stands in the list.
///
/// `L6` comes exactly where more than 32,767 configurations are reached, else `L8` exactly where more than `most` are, else
/// `F15` exactly where the candidates of one of them are a cycle of priorities, and else `F12(i)` exactly where the
/// pattern of number i, from 0, is the first one that matches the empty word. `Memory` is want of memory; it is also the
/// answer where all patterns can come back to their starts together, which no machine of an expression does.
pub fn scanner(
    alloc: Global,
    patterns: Vec<Fsm>,
    tokens: &[Option<ActionId>],
    most: u32,
) -> Result<ScanFsm, BuildFault>
    requires same { length tokens.now ≡ length patterns.items }
    requires some { 1 ≤ length patterns.items }
    requires few { length patterns.items ≤ 4294967295 }
    ensures builds { IfOk result (λ s. BuildsScanner (quiet (side_auto patterns.items)) (tokens_of patterns.items tokens.now) s) }
    ensures stands { IfOk result (λ s. (ps : List Pattern) → StandForPatterns ps patterns.items tokens.now → ScannerStandsFor ps s) }
    ensures accepted { OnOk result (HasNoScanCause patterns.items most) }
    ensures refused { IfErr result (IsScanCause patterns.items most) }
{
    scanned(alloc, patterns.as_slice(), tokens, most)
}
