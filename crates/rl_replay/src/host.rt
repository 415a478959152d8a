// The host of a replay, for the calls that no line of a script answers.
ghost use Rattle.std.specs.Prelude.{◌≡◌, ◌+◌, ◌<◌, ◌≤◌, ◌^◌, pos, negsuc, ◌+ℤ◌, ◌≤ℤ◌, ◌<ℤ◌, IfSome, Some, option_map, List, [], ◌∷◌, ◌++◌};
ghost use Rattle.rl_replay.specs.Host.{fits_goal, own_goal, own_pick, ends_list, own_picks, four, own_answer, host};
ghost use Rattle.std.specs.Bool.{then_some};
ghost use Rattle.rl_replay.specs.Host as spec;
ghost use Rattle.rl_replay.specs.OwnPicks.{GoesOn, IsNext};

use crate::LookUps;
use rl_run::{Answer, Call, CallKind, GoalBase, Pick, Statement, StatementKind};

fn mark_of(mark: Option<u64>) -> Option<i128>
    ensures value { result ≡ option_map (λ at. pos at) mark }
    ensures bounds { IfSome result (λ b. (negsuc 0 ≤ℤ b) × (b <ℤ pos (2 ^ 64))) }
{
    match mark {
        Some(at) => Some(i128::from(at)),
        None => None,
    }
}

// Where a goal counts from.
fn base_of(call: &Call, base: GoalBase) -> Option<i128>
    ensures value { result ≡ spec.base_of call.now base }
    ensures bounds { IfSome result (λ b. (negsuc 0 ≤ℤ b) × (b <ℤ pos (2 ^ 64))) }
{
    match base {
        GoalBase::Unread => None,
        GoalBase::P => Some(i128::from(call.next) - 1),
        GoalBase::Ts => mark_of(call.ts),
        GoalBase::Te => mark_of(call.te),
    }
}

// The goal, where it fits.
fn fitting(goal: i128) -> Option<i64>
    ensures { result ≡ then_some (fits_goal goal) goal }
{
    if i128::from(i64::MIN) <= goal && goal <= i128::from(i64::MAX) {
        Some(goal as i64)
    } else {
        None
    }
}

fn shifted(base: i128, offset: i64) -> i128
    requires low { negsuc 0 ≤ℤ base }
    requires high { base <ℤ pos (2 ^ 64) }
    ensures { result ≡ base +ℤ offset }
{
    base + i128::from(offset)
}

// The goal that an exec takes by itself.
fn goal_of(call: &Call, statement: &Statement) -> Option<i64>
    ensures { result ≡ own_goal call.now statement.now }
{
    let base = base_of(call, statement.base)?;
    fitting(shifted(base, statement.offset))
}

// The pick of a statement by itself.
fn pick_of(call: &Call, number: u32, statement: &Statement) -> Option<Pick>
    ensures { result ≡ own_pick call.now (number, statement.now) }
{
    match statement.kind {
        StatementKind::Exec => {
            let goal = goal_of(call, statement)?;
            Some(Pick {
                statement: number,
                goal: Some(goal),
            })
        }
        _ => Some(Pick {
            statement: number,
            goal: None,
        }),
    }
}

fn is_last(kind: StatementKind) -> bool
    ensures { result ≡ ends_list kind }
{
    matches!(
        kind,
        StatementKind::Goto | StatementKind::Call | StatementKind::Ret | StatementKind::Break
    )
}

// One statement on: the pick that it gives, and the number of the statement after it, unless the picks are over.
fn step<L: LookUps>(look_ups: &L, call: &Call, number: u32) -> (Option<Pick>, Option<u32>)
    ensures on { GoesOn (L.machine look_ups.now) call.now (Some number) result }
    ensures next { IfSome result.1 (λ n. n ≡ number + 1) }
{
    let Some(statement) = look_ups.statement(call.action, number) else {
        return (None, None);
    };
    if !statement.outer {
        return (None, number.checked_add(1));
    }
    let pick = pick_of(call, number, &statement);
    if is_last(statement.kind) {
        (pick, None)
    } else {
        (pick, number.checked_add(1))
    }
}

// The next pick from a statement on, and the number of the statement after it.
fn next_pick<L: LookUps>(
    look_ups: &L,
    call: &Call,
    from: Option<u32>,
) -> (Option<Pick>, Option<u32>)
    ensures { IsNext (L.machine look_ups.now) call.now from result }
{
    let mut from = from;
    while let Some(number) = from {
        let (pick, next) = step(look_ups, call, number);
        if pick.is_some() {
            return (pick, next);
        }
        from = next;
    }
    (None, None)
}

fn pick_four<L: LookUps>(look_ups: &L, call: &Call) -> [Option<Pick>; 4]
    ensures { result ≡ four (own_picks (L.machine look_ups.now) call.now) }
{
    let (first, next) = next_pick(look_ups, call, Some(1));
    let (second, next) = next_pick(look_ups, call, next);
    let (third, next) = next_pick(look_ups, call, next);
    let (fourth, _) = next_pick(look_ups, call, next);
    [first, second, third, fourth]
}

fn answer_of<L: LookUps>(look_ups: &L, call: &Call) -> Answer
    ensures { result ≡ own_answer (L.machine look_ups.now) call.now }
{
    match call.kind {
        CallKind::Ask => Answer::No,
        CallKind::From | CallKind::To => Answer::Yes,
        CallKind::Do | CallKind::Error | CallKind::Token | CallKind::Eof => Answer::Picks(pick_four(
            look_ups, call,
        )),
    }
}

/// The answer to a call for which no line of the script stands: No to a condition, Yes to from-state and to-state
/// actions; to the others the statements at the outer brace level in text order, up to the first transfer or break. An
/// `fexec` is taken only where its goal is `p`, `ts` or `te`, alone or with a number added or taken away, the mark is
/// present and the goal fits 64 bits with a sign; `p` is the call's next position minus 1 (this profile).
pub fn answer_by_itself<L: LookUps>(look_ups: &L, call: &Call) -> Answer
    ensures value { result ≡ own_answer (L.machine look_ups.now) call.now }

    // It is the host's answer where no line names the session but to open, feed and end it, whatever was called before.
    ensures host { (past : List Call) → result ≡ host (L.machine look_ups.now) [] (past ++ call.now ∷ []) }
{
    answer_of(look_ups, call)
}
