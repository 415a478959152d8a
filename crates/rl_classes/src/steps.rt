//! Functions of the keys that are constant from one step up to the next.
ghost use Rattle.std.specs.Prelude.{◌≡◌, ◌≤◌, ◌+◌, ◌∷◌, ◌++◌, [], ℤ, length, vec_len, IfOk, MatchResult};
ghost use Rattle.rl_classes.specs.Steps.{Ascend, froms, next_key, passed, IsPairOf};

use rl_types::Memory;
use std::alloc::Global;

/// From this key on a function has this value.
#[derive(Clone, Copy, Debug)]
pub(crate) struct Step<T> {
    pub from: i64,
    pub value: T,
}

/// A function of the keys: its value before all steps, and then its steps, ascending.
#[derive(Debug, Drop)]
pub(crate) struct Steps<T> {
    pub first: T,
    pub later: Vec<Step<T>>,
}

/// Puts a value at the end.
pub(crate) fn push<T: Drop>(items: &mut Vec<T>, x: T) -> Result<(), Memory>
    ensures { MatchResult result (λ _. items.new.items ≡ items.old.items ++ x ∷ []) (λ _. items.new.items ≡ items.old.items) }
{
    items.push(x).map_err(|_| Memory)
}

/// The next key at which one of two functions steps.
fn next_key<T, U>(left: &[Step<T>], right: &[Step<U>]) -> Option<i64>
    ensures { result ≡ next_key (froms left.now) (froms right.now) }
{
    match (left, right) {
        ([], []) => None,
        ([x, ..], []) => Some(x.from),
        ([], [y, ..]) => Some(y.from),
        ([x, ..], [y, ..]) => Some(x.from.min(y.from)),
    }
}

/// The value from a key on, where it was another one before, and the steps that are left.
fn passed<T: Copy>(steps: &[Step<T>], key: i64, before: T) -> (T, &[Step<T>])
    ensures value { result.0 ≡ (passed steps.now key before).0 }
    ensures left { result.1.now ≡ (passed steps.now key before).1 }
{
    match steps {
        [step, rest @ ..] if step.from == key => (step.value, rest),
        _ => (before, steps),
    }
}

/// Two functions made one, of pairs.
pub(crate) fn merged<T: Copy + Drop, U: Copy + Drop>(
    alloc: Global,
    left: &Steps<T>,
    right: &Steps<U>,
) -> Result<Steps<(T, U)>, Memory>
    requires left_ascends { Ascend (froms left.now.later.items) }
    requires right_ascends { Ascend (froms right.now.later.items) }
    ensures pairs { IfOk result (IsPairOf left.now right.now) }
{
    let mut lefts = left.later.as_slice();
    let mut rights = right.later.as_slice();
    let mut value = (left.first, right.first);
    let mut later = Vec::new(alloc);
    while let Some(key) = next_key(lefts, rights) {
        let (x, left_rest) = passed(lefts, key, value.0);
        let (y, right_rest) = passed(rights, key, value.1);
        push(
            &mut later,
            Step {
                from: key,
                value: (x, y),
            },
        )?;
        value = (x, y);
        lefts = left_rest;
        rights = right_rest;
    }
    Ok(Steps {
        first: (left.first, right.first),
        later,
    })
}
