// One session.
ghost use Rattle.std.specs.Prelude.{◌≡◌, ◌<◌, ◌≤◌, ◌+◌, ◌*◌, ◌^◌, ℕ, length, true, false, Some, None, IfOk};
ghost use Rattle.rl_arrays.specs.TableMachine.{machine};
ghost use Rattle.rl_runner.specs.Feeds.{over_after};
ghost use Rattle.rl_sessions.specs.Short.{most_kept};
ghost use Rattle.rl_sessions.specs.SessionsValue.{started};
ghost use Rattle.rl_sessions.specs.OneSession.{session_value, IsOne};
ghost use Rattle.rl_sessions.specs.Runs.{Takes, Ends};
ghost use Rattle.rl_sessions.specs.Views.{IsView};
ghost use Rattle.rl_tables.specs.Steps.{IsEntryNumber};
ghost use Rattle.rl_window.specs.WindowValue.{IsWidth};

use crate::pieces::feed_piece;
use crate::windows::end_window;
use rl_run::{Answer, Call, Outcome, Settings, Verdict};
use rl_runner::Runner;
use rl_tables::Tables;
use rl_types::{EntryId, Memory};
use rl_window::Window;
use std::alloc::Global;

// A session: its name, the bytes that may still be read, its run and what that is over with, and whether it was ended.
#[derive(Drop)]
pub struct One<'a> {
    pub name: Vec<u8>,
    pub window: Window,
    pub runner: Runner<'a>,
    pub over: Option<Outcome>,
    pub is_closed: bool,
}

/// What is told of a session: its name, whether it was ended, the verdict, and the position of the next character, in
/// characters from 0.
#[derive(Debug, Drop)]
pub struct SessionView<'s> {
    pub name: &'s [u8],
    pub is_closed: bool,
    pub verdict: Verdict,
    pub next: u64,
}

// What a session keeps of an outcome.
fn over_of(outcome: Outcome) -> Option<Outcome>
    ensures { result ≡ over_after outcome }
{
    match outcome {
        Outcome::Wants | Outcome::Broke => None,
        over => Some(over),
    }
}

// How many bytes a character has.
#[tactic(auto, unfolding(rl_arrays::specs::TableMachine::machine))]
fn width_in(tables: &Tables) -> u32
    ensures value { result ≡ (machine tables.now).width }
    ensures fits { IsWidth result }
{
    tables.alphabet().width()
}

// How many bytes a window has room for: those of the characters that may still be read at most, and of 4,096.
fn room_for(settings: &Settings, width: u32) -> usize
    requires { width ≤ 4 }
    ensures { result ≡ width * (most_kept settings.now + 4096) }
{
    width as usize * (settings.token_max.max(settings.look) as usize + 4096)
}

pub(crate) fn copied(alloc: Global, bytes: &[u8]) -> Result<Vec<u8>, Memory>
    ensures { IfOk result (λ v. v.items ≡ bytes.now) }
{
    bytes.to_vec(alloc).map_err(|_| Memory)
}

// A session at the start of an entry.
pub(crate) fn start_one<'t>(
    alloc: Global,
    tables: &'t Tables,
    settings: Settings,
    name: &[u8],
    entry: EntryId,
) -> Result<One<'t>, Memory>
    requires { IsEntryNumber tables.now entry.0 }
    ensures { IfOk result (λ one. (session_value one ≡ started name.now ((machine tables.now).entry entry.0)) × IsOne tables.now settings one) }
{
    let name = copied(alloc, name)?;
    let width = width_in(tables);
    let window = Window::new(alloc, room_for(&settings, width), width)?;
    let runner = Runner::new(alloc, tables, entry, settings)?;
    Ok(One {
        name,
        window,
        runner,
        over: None,
        is_closed: false,
    })
}

// Runs a session over a piece.
pub(crate) fn feed_one<H: FnMut(Call) -> Answer>(
    one: &mut One,
    piece: &[u8],
    host: &mut H,
) -> Outcome
    requires one { IsOne one.old.runner.tables one.old.runner.settings one.old }
    requires end { one.old.over ≡ None →
        (machine one.old.runner.tables).width * one.old.window.base + length one.old.window.bytes
        + length piece.now < 2 ^ 63 }
    requires callable { H.IsAlwaysCallable host.old }
    ensures takes { Takes H.step (machine one.old.runner.tables) one.old.runner.settings piece.now host.old host.new (session_value one.old) (session_value one.new) result }
    ensures one { IsOne one.old.runner.tables one.old.runner.settings one.new }
    ensures callable { H.IsAlwaysCallable host.new }
{
    if let Some(outcome) = one.over {
        return outcome;
    }
    let outcome = feed_piece(&mut one.runner, &mut one.window, piece, host);
    one.over = over_of(outcome);
    outcome
}

// Runs a session to the end of its input. Its window is given up.
pub(crate) fn end_one<H: FnMut(Call) -> Answer>(
    alloc: Global,
    one: &mut One,
    host: &mut H,
) -> Outcome
    requires one { IsOne one.old.runner.tables one.old.runner.settings one.old }
    requires callable { H.IsAlwaysCallable host.old }
    ensures ends { Ends H.step (machine one.old.runner.tables) one.old.runner.settings host.old host.new (session_value one.old) (session_value one.new) result }
    ensures one { IsOne one.old.runner.tables one.old.runner.settings one.new }
    ensures callable { H.IsAlwaysCallable host.new }
{
    one.is_closed = true;
    if let Some(outcome) = one.over {
        one.window = Window::without_room(alloc);
        return outcome;
    }
    let base = one.window.base();
    let outcome = end_window(&mut one.runner, host, base, one.window.bytes());
    one.over = over_of(outcome);
    one.window = Window::without_room(alloc);
    outcome
}

// What is told of a session.
pub(crate) fn view_of<'s>(one: &'s One) -> SessionView<'s>
    requires { IsOne one.now.runner.tables one.now.runner.settings one.now }
    ensures { IsView one.now.runner.tables (session_value one.now) result }
{
    SessionView {
        name: one.name.as_slice(),
        is_closed: one.is_closed,
        verdict: one.runner.verdict(),
        next: one.runner.next(),
    }
}
