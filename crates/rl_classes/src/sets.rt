//! Which keys a set holds.
ghost use Rattle.std.specs.Prelude.{◌≡◌, ◌∷◌, [], map, IfOk};
ghost use Rattle.rl_classes.specs.Sets.{TellsSet, with_value, either_of};

use crate::steps::{Step, Steps, merged, push};
use rl_types::{KeyRange, Memory};
use std::alloc::Global;

/// Whether a range holds a key.
fn of_range(alloc: Global, range: &KeyRange) -> Result<Steps<bool>, Memory>
    ensures { IfOk result (TellsSet (range.now ∷ [])) }
{
    let mut later = Vec::new(alloc);
    push(
        &mut later,
        Step {
            from: range.lo(),
            value: true,
        },
    )?;
    if range.hi() == i64::MAX {
        return Ok(Steps {
            first: false,
            later,
        });
    }
    push(
        &mut later,
        Step {
            from: range.hi() + 1,
            value: false,
        },
    )?;
    Ok(Steps {
        first: false,
        later,
    })
}

/// Whether one of a pair is true.
fn either(alloc: Global, pairs: &Steps<(bool, bool)>) -> Result<Steps<bool>, Memory>
    ensures first { IfOk result (λ f. f.first ≡ either_of pairs.now.first) }
    ensures later { IfOk result (λ f. f.later.items ≡ map (with_value either_of) pairs.now.later.items) }
{
    let mut later = Vec::new(alloc);
    for step in &pairs.later {
        push(
            &mut later,
            Step {
                from: step.from,
                value: step.value.0 || step.value.1,
            },
        )?;
    }
    Ok(Steps {
        first: pairs.first.0 || pairs.first.1,
        later,
    })
}

/// Whether one of the ranges holds a key.
pub(crate) fn of_ranges(alloc: Global, ranges: &[KeyRange]) -> Result<Steps<bool>, Memory>
    ensures { IfOk result (TellsSet ranges.now) }
{
    match ranges {
        [] => Ok(Steps {
            first: false,
            later: Vec::new(alloc),
        }),
        [range] => of_range(alloc, range),
        _ => {
            let (front, back) = ranges.split_at(ranges.len() / 2);
            let left = of_ranges(alloc, front)?;
            let right = of_ranges(alloc, back)?;
            let pairs = merged(alloc, &left, &right)?;
            let whole = either(alloc, &pairs)?;
            Ok(whole)
        }
    }
}
