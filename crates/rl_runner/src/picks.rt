// What an answer does to a session.
ghost use Rattle.std.specs.Prelude.{◌≡◌, ◌<◌, ◌≤◌, ◌^◌, ℕ, length, Some, None, IfSome};
ghost use Rattle.rl_run.specs.declared.sessions.Settings.{Settings};
ghost use Rattle.rl_run.specs.declared.calls.Stop.{Stop};
ghost use Rattle.rl_run.specs.declared.statements.StatementKind.{StatementKind};
ghost use Rattle.rl_arrays.specs.declared.arrays.Arrays.{Arrays};
ghost use Rattle.rl_run.specs.Machine as model;
ghost use Rattle.rl_run.specs.Picks as says;
ghost use Rattle.rl_runner.specs.Sessions.{session_of, IsSound};
ghost use Rattle.rl_arrays.specs.TableMachine.{machine};
ghost use Rattle.rl_arrays.specs.Sizes.{states};
ghost use Rattle.rl_tables.specs.Steps.{IsEntryNumber};

use crate::State;
use rl_run::{Answer, CallKind, Flow, Pick, Settings, Spot, Statement, StatementKind, Stop};
use rl_tables::Tables;
use rl_types::{ActionId, EntryId};

// The next position becomes another, which the floor bars or not.
pub fn moved(pick: Pick, s: &mut State, is_below: bool, position: u64) -> Flow
    requires { s.old.backs < 65536 }
    ensures says { (m : model.Machine ℕ) → says.came result (session_of m s.new) ≡ says.moved pick (session_of m s.old) is_below position }
    ensures sound { (tables : Arrays) (settings : Settings) →
        IsSound tables settings s.old → position ≤ 2 ^ 63 → IsSound tables settings s.new }
{
    if is_below {
        return Flow::Stops(Stop::Back(pick));
    }
    if position < s.next {
        if s.backs >= 65535 {
            return Flow::Stops(Stop::Stuck(pick));
        }
        s.backs += 1;
    }
    s.next = position;
    Flow::Goes
}

// The state where an entry starts; Error where no entry is named.
fn start_of(tables: &Tables, entry: Option<EntryId>) -> u32
    requires { IfSome entry (λ e. IsEntryNumber tables.now e.0) }
    ensures value { result ≡ (machine tables.now).entry (says.entry_number entry) }
    ensures state { result < states tables.now }
{
    match entry {
        Some(entry) => tables.entry_state(entry),
        None => tables.error_state(),
    }
}

// A hold moves back by one character.
fn hold(spot: &Spot, pick: Pick, s: &mut State) -> Flow
    requires { s.old.backs < 65536 }
    ensures says { (m : model.Machine ℕ) (settings : Settings) (stray : Stop) (entry : ℕ) →
        says.came result (session_of m s.new) ≡ says.stated m settings spot.now stray pick (session_of m s.old) entry StatementKind.Hold None }
    ensures sound { (tables : Arrays) (settings : Settings) → IsSound tables settings s.old → IsSound tables settings s.new }
{
    if spot.is_end {
        return Flow::Goes;
    }
    let is_below = s.next <= spot.floor;
    let position = s.next.saturating_sub(1);
    moved(pick, s, is_below, position)
}

// A call pushes the state and goes to an entry's start.
fn call_entry(
    tables: &Tables,
    settings: &Settings,
    spot: &Spot,
    stray: Stop,
    pick: Pick,
    s: &mut State,
    entry: Option<EntryId>,
) -> Flow
    requires named { IfSome entry (λ e. IsEntryNumber tables.now e.0) }
    requires sound { IsSound tables.now settings.now s.old }
    ensures says { says.came result (session_of (machine tables.now) s.new)
        ≡ says.stated (machine tables.now) settings.now spot.now stray pick (session_of (machine tables.now) s.old) (says.entry_number entry) StatementKind.Call None }
    ensures sound { IsSound tables.now settings.now s.new }
{
    if s.stack.len() >= settings.stack as usize {
        return Flow::Stops(Stop::StackFull(pick));
    }
    s.stack.push(s.state).unwrap();
    s.state = start_of(tables, entry);
    Flow::Jumps
}

// A statement that the action has.
fn stated(
    tables: &Tables,
    settings: &Settings,
    spot: &Spot,
    stray: Stop,
    pick: Pick,
    s: &mut State,
    statement: &Statement,
) -> Flow
    requires named { IfSome statement.now.entry (λ e. IsEntryNumber tables.now e.0) }
    requires sound { IsSound tables.now settings.now s.old }
    ensures says { says.came result (session_of (machine tables.now) s.new)
        ≡ says.stated (machine tables.now) settings.now spot.now stray pick (session_of (machine tables.now) s.old)
        (says.entry_number statement.now.entry) statement.now.kind pick.goal }
    ensures sound { IsSound tables.now settings.now s.new }
{
    match (statement.kind, pick.goal) {
        (StatementKind::Hold, None) => hold(spot, pick, s),
        (StatementKind::Exec, Some(goal)) => {
            if goal > 1 << 62 {
                stopped(stray)
            } else if spot.is_end {
                Flow::Goes
            } else {
                let is_below = i128::from(goal) < i128::from(spot.floor);
                moved(pick, s, is_below, goal.unsigned_abs())
            }
        }
        (StatementKind::Goto, None) => {
            s.state = start_of(tables, statement.entry);
            Flow::Jumps
        }
        (StatementKind::Next, None) => {
            s.state = start_of(tables, statement.entry);
            Flow::Goes
        }
        (StatementKind::Call, None) => {
            call_entry(tables, settings, spot, stray, pick, s, statement.entry)
        }
        (StatementKind::Ret, None) => match s.stack.pop() {
            None => Flow::Stops(Stop::StackEmpty(pick)),
            Some(state) => {
                s.state = state;
                Flow::Jumps
            }
        },
        (StatementKind::Break, None) => Flow::Breaks,
        _ => stopped(stray),
    }
}

fn stopped(cause: Stop) -> Flow
    ensures { result ≡ Flow.Stops cause }
{
    Flow::Stops(cause)
}

// One pick.
pub fn pick_one(
    tables: &Tables,
    settings: &Settings,
    spot: &Spot,
    stray: Stop,
    action: ActionId,
    s: &mut State,
    pick: Pick,
) -> Flow
    requires sound { IsSound tables.now settings.now s.old }
    ensures says { says.came result (session_of (machine tables.now) s.new)
        ≡ says.pick_one (machine tables.now) settings.now spot.now stray action.0 (session_of (machine tables.now) s.old) pick }
    ensures sound { IsSound tables.now settings.now s.new }
{
    match tables.statement(action, pick.statement) {
        None => stopped(stray),
        Some(statement) => stated(tables, settings, spot, stray, pick, s, &statement),
    }
}

// Picks in order, up to the first that is missing, that ends the list or that is refused.
pub fn pick_all(
    tables: &Tables,
    settings: &Settings,
    spot: &Spot,
    stray: Stop,
    action: ActionId,
    s: &mut State,
    picks: &[Option<Pick>],
) -> Flow
    requires sound { IsSound tables.now settings.now s.old }
    ensures says { says.came result (session_of (machine tables.now) s.new)
        ≡ says.pick_all (machine tables.now) settings.now spot.now stray action.0 picks.now (session_of (machine tables.now) s.old) }
    ensures sound { IsSound tables.now settings.now s.new }
{
    let mut rest = picks;
    while let Some((Some(pick), tail)) = rest.split_first() {
        match pick_one(tables, settings, spot, stray, action, s, *pick) {
            Flow::Goes => {}
            flow => return flow,
        }
        rest = tail;
    }
    Flow::Goes
}

fn takes_picks(kind: CallKind) -> bool
    ensures { result ≡ says.takes_picks kind }
{
    match kind {
        CallKind::Do | CallKind::Error | CallKind::Token | CallKind::Eof => true,
        _ => false,
    }
}

// The answer to one call of a list.
pub fn answered(
    tables: &Tables,
    settings: &Settings,
    spot: &Spot,
    kind: CallKind,
    action: ActionId,
    s: &mut State,
    answer: Answer,
) -> Flow
    requires sound { IsSound tables.now settings.now s.old }
    ensures says { says.came result (session_of (machine tables.now) s.new)
        ≡ says.answered (machine tables.now) settings.now spot.now kind action.0 (session_of (machine tables.now) s.old) answer }
    ensures sound { IsSound tables.now settings.now s.new }
{
    match answer {
        Answer::Yes => Flow::Goes,
        Answer::No => stopped(Stop::Stray(Answer::No)),
        Answer::Stop => stopped(Stop::HostStop),
        Answer::Picks(picks) => {
            let stray = Stop::Stray(Answer::Picks(picks));
            if takes_picks(kind) {
                pick_all(tables, settings, spot, stray, action, s, &picks)
            } else {
                stopped(stray)
            }
        }
    }
}
