//! The runs of keys at which a state steps alike.
ghost use Rattle.std.specs.Prelude.{◌≡◌, ◌<◌, ◌^◌, map, not, IfOk};
ghost use Rattle.std.specs.List.{filter};
ghost use Rattle.rl_layout.specs.Runs.{edges_of, has_ends, with_edge, grouped, same_actions, same_step, same_steps, continues, with_run, runs_of, is_single, laid_of};

use crate::lists::{append, front, push, rest_from};
use rl_minimal::{MinEdge, MinState};
use rl_types::{ActionId, KeyRange, List, Memory};
use std::alloc::Global;

/// A run of keys: the first and the last one, and the places of the edges there, from `first` up to `end`.
#[derive(Clone, Copy, Debug)]
pub(crate) struct Run {
    pub lo: i64,
    pub hi: i64,
    pub first: usize,
    pub end: usize,
}

/// The runs of a state: those of one key, ascending, and the others, ascending.
#[derive(Debug, Drop)]
pub(crate) struct Laid {
    pub singles: List<Run>,
    pub ranges: List<Run>,
}

/// The edges of a run, among those of its state.
pub(crate) fn edges_of<'a>(edges: &'a [MinEdge], run: &Run) -> &'a [MinEdge]
    ensures { result.now ≡ edges_of edges.now run.now }
{
    front(
        rest_from(edges, run.first),
        run.end.saturating_sub(run.first),
    )
}

// Whether the run has these ends.
fn has_ends(range: KeyRange, run: &Run) -> bool
    ensures { result ≡ has_ends range run.now }
{
    run.lo == range.lo() && run.hi == range.hi()
}

// Adds an edge of a range, at a place.
fn add_edge(runs: &mut Vec<Run>, place: usize, range: KeyRange) -> Result<(), Memory>
    requires { place < 2 ^ 63 }
    ensures { IfOk result (λ _. runs.new.items ≡ with_edge place range runs.old.items) }
{
    let alone = Run {
        lo: range.lo(),
        hi: range.hi(),
        first: place,
        end: place + 1,
    };
    match runs.pop() {
        Some(mut last) => {
            if has_ends(range, &last) {
                last.end = place + 1;
                push(runs, last)?;
                return Ok(());
            }
            push(runs, last)?;
            push(runs, alone)?;
            Ok(())
        }
        None => {
            push(runs, alone)?;
            Ok(())
        }
    }
}

// The runs of equal ranges.
fn grouped(alloc: Global, edges: &[MinEdge]) -> Result<Vec<Run>, Memory>
    ensures { IfOk result (λ v. v.items ≡ grouped edges.now) }
{
    let mut runs = Vec::new(alloc);
    for (i, e) in edges.iter().enumerate() {
        add_edge(&mut runs, i, e.range)?;
    }
    Ok(runs)
}

pub(crate) fn same_actions(left: &[ActionId], right: &[ActionId]) -> bool
    ensures { result ≡ same_actions left.now right.now }
{
    let mut xs = left;
    let mut ys = right;
    while let [x, xs_rest @ ..] = xs {
        match ys {
            [y, ys_rest @ ..] => {
                if x.0 != y.0 {
                    return false;
                }
                ys = ys_rest;
            }
            [] => return false,
        }
        xs = xs_rest;
    }
    ys.is_empty()
}

// Whether both are the same step under the same conditions.
fn same_step(e: &MinEdge, f: &MinEdge) -> bool
    ensures { result ≡ same_step e.now f.now }
{
    e.asks.0 == f.asks.0
        && e.truths.0 == f.truths.0
        && e.target == f.target
        && same_actions(e.list.as_slice(), f.list.as_slice())
}

fn same_steps(left: &[MinEdge], right: &[MinEdge]) -> bool
    ensures { result ≡ same_steps left.now right.now }
{
    let mut xs = left;
    let mut ys = right;
    while let [x, xs_rest @ ..] = xs {
        match ys {
            [y, ys_rest @ ..] => {
                if !same_step(x, y) {
                    return false;
                }
                ys = ys_rest;
            }
            [] => return false,
        }
        xs = xs_rest;
    }
    ys.is_empty()
}

// Whether a run goes on through another one.
fn continues(edges: &[MinEdge], run: &Run, next: &Run) -> bool
    ensures { result ≡ continues edges.now run.now next.now }
{
    run.hi < next.lo
        && next.lo - 1 == run.hi
        && same_steps(edges_of(edges, run), edges_of(edges, next))
}

// Adds a run.
fn add_run(edges: &[MinEdge], runs: &mut Vec<Run>, next: Run) -> Result<(), Memory>
    ensures { IfOk result (λ _. runs.new.items ≡ with_run edges.now next runs.old.items) }
{
    match runs.pop() {
        Some(mut last) => {
            if continues(edges, &last, &next) {
                last.hi = next.hi;
                push(runs, last)?;
                return Ok(());
            }
            push(runs, last)?;
            push(runs, next)?;
            Ok(())
        }
        None => {
            push(runs, next)?;
            Ok(())
        }
    }
}

// The maximal runs.
fn runs_of(alloc: Global, edges: &[MinEdge]) -> Result<Vec<Run>, Memory>
    ensures { IfOk result (λ v. v.items ≡ runs_of edges.now) }
{
    let groups = grouped(alloc, edges)?;
    let mut runs = Vec::new(alloc);
    for run in &groups {
        add_run(edges, &mut runs, *run)?;
    }
    Ok(runs)
}

// Those of one key.
fn singles_of(alloc: Global, runs: &[Run]) -> Result<List<Run>, Memory>
    ensures { IfOk result (λ v. v ≡ filter is_single runs.now) }
{
    let mut singles = List::new(alloc);
    for run in runs {
        if run.lo == run.hi {
            append(&mut singles, *run)?;
        }
    }
    Ok(singles)
}

// Those of several keys.
fn ranges_of(alloc: Global, runs: &[Run]) -> Result<List<Run>, Memory>
    ensures { IfOk result (λ v. v ≡ filter (λ r. not (is_single r)) runs.now) }
{
    let mut ranges = List::new(alloc);
    for run in runs {
        if run.lo != run.hi {
            append(&mut ranges, *run)?;
        }
    }
    Ok(ranges)
}

/// The runs of a state.
pub(crate) fn laid_of(alloc: Global, state: &MinState) -> Result<Laid, Memory>
    ensures { IfOk result (λ l. l ≡ laid_of state.now) }
{
    let runs = runs_of(alloc, state.edges.as_slice())?;
    let singles = singles_of(alloc, &runs)?;
    let ranges = ranges_of(alloc, &runs)?;
    Ok(Laid { singles, ranges })
}
