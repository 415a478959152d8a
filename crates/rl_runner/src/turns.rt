// The parts of a turn.
ghost use Rattle.std.specs.Prelude.{◌≡◌, ◌+◌, ◌<◌, ◌≤◌, ◌^◌, ℕ, length, map, All, [], Some, None, MatchOption};
ghost use Rattle.rl_run.specs.Picks.{came};
ghost use Rattle.rl_run.specs.Play.{Plays};
ghost use Rattle.rl_run.specs.Turn as says;
ghost use Rattle.rl_runner.specs.Feeds.{spot_by};
ghost use Rattle.rl_runner.specs.Sessions.{session_of, IsSound, kept_of};
ghost use Rattle.rl_arrays.specs.TableMachine.{machine};
ghost use Rattle.rl_arrays.specs.Words.{natural};
ghost use Rattle.rl_arrays.specs.Sizes.{states};
ghost use Rattle.rl_tables.specs.Steps.{IsId};
ghost use Rattle.rl_types.specs.Alphabet.{group_at};

use crate::State;
use crate::lists::{call_list, make_call};
use rl_labels::Truths;
use rl_run::{Answer, Call, CallKind, Flow, Heard, Settings, Spot, Stop};
use rl_tables::{Step, Tables};
use rl_types::{ActionId, Key};

fn send_home(tables: &Tables, settings: &Settings, s: &mut State)
    requires sound { IsSound tables.now settings.now s.old }
    ensures says { session_of (machine tables.now) s.new ≡ says.sent_home (machine tables.now) (session_of (machine tables.now) s.old) }
    ensures sound { IsSound tables.now settings.now s.new }
{
    s.state = tables.home(s.state);
    s.next = s.te.unwrap_or(s.next);
}

// The token list of a state is delivered.
pub fn deliver<H: FnMut(Call) -> Answer>(
    tables: &Tables,
    settings: &Settings,
    spot: &Spot,
    token: u32,
    s: &mut State,
    host: &mut H,
) -> Flow
    requires sound { IsSound tables.now settings.now s.old }
    requires token { token < states tables.now }
    requires callable { H.IsAlwaysCallable host.old }
    ensures plays { Plays H.step host.old
        (says.deliver (machine tables.now) settings.now spot.now ((machine tables.now).token token) (session_of (machine tables.now) s.old))
        host.new (came result (session_of (machine tables.now) s.new)) }
    ensures sound { IsSound tables.now settings.now s.new }
    ensures callable { H.IsAlwaysCallable host.new }
{
    send_home(tables, settings, s);
    let flow = call_list(
        tables,
        settings,
        spot,
        CallKind::Token,
        tables.token_list(token),
        s,
        host,
    );
    clear_token(tables, settings, flow, s);
    flow
}

// What was kept of a token is gone, unless the session stopped.
fn clear_token(tables: &Tables, settings: &Settings, flow: Flow, s: &mut State)
    requires sound { IsSound tables.now settings.now s.old }
    ensures sound { IsSound tables.now settings.now s.new }
    ensures cleared { says.cleared (came flow (session_of (machine tables.now) s.old)) ≡ came flow (session_of (machine tables.now) s.new) }
{
    match flow {
        Flow::Stops(_) => {}
        _ => {
            s.ts = None;
            s.te = None;
            s.kept = None;
        }
    }
}

// A match is kept.
fn keep_token(tables: &Tables, settings: &Settings, spot: &Spot, target: u32, s: &mut State)
    requires sound { IsSound tables.now settings.now s.old }
    requires at { spot.now.at < 2 ^ 63 }
    requires target { target < states tables.now }
    ensures says { session_of (machine tables.now) s.new ≡ says.token_kept (machine tables.now) spot.now target (session_of (machine tables.now) s.old) }
    ensures sound { IsSound tables.now settings.now s.new }
{
    s.te = Some(spot.at + 1);
    s.kept = Some(target);
}

#[tactic(auto, unfolding(rl_run::specs::Turn::marked))]
fn mark<H: FnMut(Call) -> Answer>(
    tables: &Tables,
    settings: &Settings,
    spot: &Spot,
    target: u32,
    s: &mut State,
    host: &mut H,
) -> Flow
    requires sound { IsSound tables.now settings.now s.old }
    requires at { spot.now.at < 2 ^ 63 }
    requires target { target < states tables.now }
    requires callable { H.IsAlwaysCallable host.old }
    ensures plays { Plays H.step host.old
        (says.marked (machine tables.now) settings.now spot.now target (session_of (machine tables.now) s.old))
        host.new (came result (session_of (machine tables.now) s.new)) }
    ensures sound { IsSound tables.now settings.now s.new }
    ensures callable { H.IsAlwaysCallable host.new }
{
    match tables.kind(target) {
        3 => {
            keep_token(tables, settings, spot, target, s);
            Flow::Goes
        }
        4 => {
            keep_token(tables, settings, spot, target, s);
            deliver(tables, settings, spot, target, s, host)
        }
        _ => Flow::Goes,
    }
}

fn go_behind(tables: &Tables, settings: &Settings, spot: &Spot, target: u32, s: &mut State)
    requires sound { IsSound tables.now settings.now s.old }
    requires at { spot.now.at < 2 ^ 63 }
    requires target { target < states tables.now }
    ensures says { session_of (machine tables.now) s.new ≡ says.behind spot.now target (session_of (machine tables.now) s.old) }
    ensures sound { IsSound tables.now settings.now s.new }
{
    s.state = target;
    s.next = spot.at + 1;
}

// A step.
fn step<H: FnMut(Call) -> Answer>(
    tables: &Tables,
    settings: &Settings,
    spot: &Spot,
    target: u32,
    list: &[i64],
    s: &mut State,
    host: &mut H,
) -> Flow
    requires sound { IsSound tables.now settings.now s.old }
    requires at { spot.now.at < 2 ^ 63 }
    requires target { target < states tables.now }
    requires actions { All IsId list.now }
    requires callable { H.IsAlwaysCallable host.old }
    ensures plays { Plays H.step host.old
        (says.stepped (machine tables.now) settings.now spot.now (session_of (machine tables.now) s.old) (record { target = target; list = map natural list.now }))
        host.new (came result (session_of (machine tables.now) s.new)) }
    ensures sound { IsSound tables.now settings.now s.new }
    ensures callable { H.IsAlwaysCallable host.new }
{
    go_behind(tables, settings, spot, target, s);
    match call_list(tables, settings, spot, CallKind::Do, list, s, host) {
        Flow::Goes => mark(tables, settings, spot, target, s, host),
        flow => flow,
    }
}

// After an error list.
fn judge(tables: &Tables, settings: &Settings, spot: &Spot, flow: Flow, s: &mut State) -> Flow
    requires sound { IsSound tables.now settings.now s.old }
    requires at { spot.now.at < 2 ^ 63 }
    ensures says { came result (session_of (machine tables.now) s.new) ≡ says.judged (machine tables.now) spot.now (came flow (session_of (machine tables.now) s.old)) }
    ensures sound { IsSound tables.now settings.now s.new }
{
    match flow {
        Flow::Stops(_) => flow,
        _ => {
            if tables.is_error(s.state) {
                s.next = spot.at;
                Flow::Stops(Stop::ErrorState)
            } else {
                flow
            }
        }
    }
}

// The error list.
fn fail<H: FnMut(Call) -> Answer>(
    tables: &Tables,
    settings: &Settings,
    spot: &Spot,
    s: &mut State,
    host: &mut H,
) -> Flow
    requires sound { IsSound tables.now settings.now s.old }
    requires at { spot.now.at < 2 ^ 63 }
    requires callable { H.IsAlwaysCallable host.old }
    ensures plays { Plays H.step host.old
        (says.failed (machine tables.now) settings.now spot.now (session_of (machine tables.now) s.old))
        host.new (came result (session_of (machine tables.now) s.new)) }
    ensures sound { IsSound tables.now settings.now s.new }
    ensures callable { H.IsAlwaysCallable host.new }
{
    let state = s.state;
    go_behind(tables, settings, spot, tables.error_state(), s);
    let flow = call_list(
        tables,
        settings,
        spot,
        CallKind::Error,
        tables.error_list(state),
        s,
        host,
    );
    judge(tables, settings, spot, flow, s)
}

// No step: a kept token is delivered, else the error list is called.
#[tactic(auto, unfolding(rl_run::specs::Turn::missed))]
fn miss<H: FnMut(Call) -> Answer>(
    tables: &Tables,
    settings: &Settings,
    spot: &Spot,
    s: &mut State,
    host: &mut H,
) -> Flow
    requires sound { IsSound tables.now settings.now s.old }
    requires at { spot.now.at < 2 ^ 63 }
    requires callable { H.IsAlwaysCallable host.old }
    ensures plays { Plays H.step host.old
        (says.missed (machine tables.now) settings.now spot.now (session_of (machine tables.now) s.old))
        host.new (came result (session_of (machine tables.now) s.new)) }
    ensures sound { IsSound tables.now settings.now s.new }
    ensures callable { H.IsAlwaysCallable host.new }
{
    match s.kept {
        None => fail(tables, settings, spot, s, host),
        Some(token) => deliver(tables, settings, spot, token, s, host),
    }
}

// The step by the conditions that hold.
#[tactic(auto, unfolding(rl_run::specs::Turn::chosen))]
fn choose<H: FnMut(Call) -> Answer>(
    tables: &Tables,
    settings: &Settings,
    spot: &Spot,
    key: Key,
    hold: u8,
    s: &mut State,
    host: &mut H,
) -> Flow
    requires sound { IsSound tables.now settings.now s.old }
    requires at { spot.now.at < 2 ^ 63 }
    requires callable { H.IsAlwaysCallable host.old }
    ensures plays { Plays H.step host.old
        (says.chosen (machine tables.now) settings.now spot.now key (session_of (machine tables.now) s.old) hold)
        host.new (came result (session_of (machine tables.now) s.new)) }
    ensures sound { IsSound tables.now settings.now s.new }
    ensures callable { H.IsAlwaysCallable host.new }
{
    match tables.find(s.state, key, Truths(hold)) {
        Step::Stay => miss(tables, settings, spot, s, host),
        Step::Go { target, list } => {
            step(tables, settings, spot, target, tables.list(list), s, host)
        }
    }
}

const CONDITIONS: [(u8, u8); 8] = [
    (1, 1),
    (2, 2),
    (3, 4),
    (4, 8),
    (5, 16),
    (6, 32),
    (7, 64),
    (8, 128),
];

// Of these conditions those that are asked, in order.
fn ask_all<H: FnMut(Call) -> Answer>(
    tables: &Tables,
    spot: &Spot,
    asked: u8,
    s: &State,
    all: &[(u8, u8)],
    host: &mut H,
) -> Heard
    requires callable { H.IsAlwaysCallable host.old }
    ensures plays { Plays H.step host.old
        (says.conditions spot.now (session_of (machine tables.now) s.now) asked all.now 0)
        host.new result }
    ensures callable { H.IsAlwaysCallable host.new }
{
    let mut hold = 0;
    let mut rest = all;
    while let Some((condition, others)) = rest.split_first() {
        rest = others;
        if asked & condition.1 == 0 {
            continue;
        }
        let call = make_call(
            tables,
            spot,
            CallKind::Ask,
            ActionId(u32::from(condition.0)),
            s,
        );
        match host(call) {
            Answer::Yes => hold |= condition.1,
            Answer::No => {}
            Answer::Picks(picks) => {
                return Heard {
                    flow: Flow::Stops(Stop::Stray(Answer::Picks(picks))),
                    hold,
                };
            }
            Answer::Stop => {
                return Heard {
                    flow: Flow::Stops(Stop::HostStop),
                    hold,
                };
            }
        }
    }
    Heard {
        flow: Flow::Goes,
        hold,
    }
}

// The step is sought.
fn seek<H: FnMut(Call) -> Answer>(
    tables: &Tables,
    settings: &Settings,
    spot: &Spot,
    key: Key,
    s: &mut State,
    host: &mut H,
) -> Flow
    requires sound { IsSound tables.now settings.now s.old }
    requires at { spot.now.at < 2 ^ 63 }
    requires callable { H.IsAlwaysCallable host.old }
    ensures plays { Plays H.step host.old
        (says.sought (machine tables.now) settings.now spot.now key (session_of (machine tables.now) s.old))
        host.new (came result (session_of (machine tables.now) s.new)) }
    ensures sound { IsSound tables.now settings.now s.new }
    ensures callable { H.IsAlwaysCallable host.new }
{
    let asked = tables.asks(s.state, key).0;
    let all = CONDITIONS;
    let heard = ask_all(tables, spot, asked, s, &all, host);
    match heard.flow {
        Flow::Stops(cause) => Flow::Stops(cause),
        _ => choose(tables, settings, spot, key, heard.hold, s, host),
    }
}

// The greatest position so far.
fn raise(tables: &Tables, settings: &Settings, s: &mut State)
    requires sound { IsSound tables.now settings.now s.old }
    ensures says { session_of (machine tables.now) s.new ≡ says.raised (session_of (machine tables.now) s.old) }
    ensures sound { IsSound tables.now settings.now s.new }
{
    if s.furthest < s.next {
        s.furthest = s.next;
        s.backs = 0;
    }
}

fn close(tables: &Tables, settings: &Settings, flow: Flow, s: &mut State) -> Flow
    requires sound { IsSound tables.now settings.now s.old }
    ensures says { came result (session_of (machine tables.now) s.new) ≡ says.closed (came flow (session_of (machine tables.now) s.old)) }
    ensures sound { IsSound tables.now settings.now s.new }
{
    match flow {
        Flow::Stops(_) => flow,
        _ => {
            raise(tables, settings, s);
            Flow::Goes
        }
    }
}

// The end of a turn.
#[tactic(auto, unfolding(rl_run::specs::Turn::finished))]
pub fn finish<H: FnMut(Call) -> Answer>(
    tables: &Tables,
    settings: &Settings,
    spot: &Spot,
    flow: Flow,
    s: &mut State,
    host: &mut H,
) -> Flow
    requires sound { IsSound tables.now settings.now s.old }
    requires at { spot.now.at < 2 ^ 63 }
    requires callable { H.IsAlwaysCallable host.old }
    ensures plays { Plays H.step host.old
        (says.finished (machine tables.now) settings.now spot.now (came flow (session_of (machine tables.now) s.old)))
        host.new (came result (session_of (machine tables.now) s.new)) }
    ensures sound { IsSound tables.now settings.now s.new }
    ensures callable { H.IsAlwaysCallable host.new }
{
    match flow {
        Flow::Stops(_) => flow,
        Flow::Breaks => {
            raise(tables, settings, s);
            Flow::Breaks
        }
        _ => {
            let ended = call_list(
                tables,
                settings,
                spot,
                CallKind::To,
                tables.to_list(s.state),
                s,
                host,
            );
            close(tables, settings, ended, s)
        }
    }
}

// The start of a turn.
fn open_token(tables: &Tables, settings: &Settings, s: &mut State)
    requires sound { IsSound tables.now settings.now s.old }
    ensures says { session_of (machine tables.now) s.new ≡ says.opened (machine tables.now) (session_of (machine tables.now) s.old) }
    ensures sound { IsSound tables.now settings.now s.new }
    ensures next { s.new.next ≡ s.old.next }
{
    if tables.kind(s.state) == 1 {
        s.ts = Some(s.next);
        s.te = None;
        s.kept = None;
    }
}

fn is_overlong(tables: &Tables, settings: &Settings, s: &State) -> bool
    requires { s.now.next < 2 ^ 63 }
    ensures { result ≡ says.is_overlong settings.now (session_of (machine tables.now) s.now) }
{
    match s.ts {
        None => false,
        Some(start) => u64::from(settings.token_max) < (s.next + 1).saturating_sub(start),
    }
}

// The turn up to its end.
#[tactic(auto, unfolding(rl_run::specs::Turn::body))]
fn run_body<H: FnMut(Call) -> Answer>(
    tables: &Tables,
    settings: &Settings,
    spot: &Spot,
    key: Key,
    s: &mut State,
    host: &mut H,
) -> Flow
    requires sound { IsSound tables.now settings.now s.old }
    requires at { spot.now.at < 2 ^ 63 }
    requires callable { H.IsAlwaysCallable host.old }
    requires next { s.old.next < 2 ^ 63 }
    ensures plays { Plays H.step host.old
        (says.body (machine tables.now) settings.now spot.now key (session_of (machine tables.now) s.old))
        host.new (came result (session_of (machine tables.now) s.new)) }
    ensures sound { IsSound tables.now settings.now s.new }
    ensures callable { H.IsAlwaysCallable host.new }
{
    if is_overlong(tables, settings, s) {
        return Flow::Stops(Stop::Overlong);
    }
    match call_list(
        tables,
        settings,
        spot,
        CallKind::From,
        tables.from_list(s.state),
        s,
        host,
    ) {
        Flow::Goes => seek(tables, settings, spot, key, s, host),
        flow => flow,
    }
}

// How many bytes a character has.
#[tactic(auto, unfolding(rl_arrays::specs::TableMachine::machine))]
pub fn width_in(tables: &Tables) -> usize
    ensures value { result ≡ (machine tables.now).width }
    ensures some { 0 < result }
{
    tables.alphabet().width() as usize
}

// The key of the character whose bytes stand from a place on.
#[tactic(auto, unfolding(rl_arrays::specs::TableMachine::machine))]
fn key_in(tables: &Tables, width: usize, window: &[u8], at: usize) -> Key
    requires width { width ≡ (machine tables.now).width }
    requires whole { at + width ≤ length window.now }
    ensures { result ≡ (machine tables.now).key_of (group_at width window.now at) }
{
    let _ = width;
    match tables.alphabet().key_at(window, at) {
        Some(key) => key,
        None => unreachable!(),
    }
}

fn spot_for(tables: &Tables, settings: &Settings, s: &State, key: Key) -> Spot
    ensures { result ≡ spot_by settings.now (session_of (machine tables.now) s.now) key }
{
    Spot {
        at: s.next,
        key: Some(key),
        floor: s.keep(settings),
        is_end: false,
    }
}

// The turn for the character whose bytes stand from a place of a window on.
#[tactic(auto, unfolding(rl_run::specs::Turn::turn))]
pub fn run_turn<H: FnMut(Call) -> Answer>(
    tables: &Tables,
    settings: &Settings,
    width: usize,
    window: &[u8],
    at: usize,
    s: &mut State,
    host: &mut H,
) -> Flow
    requires width { width ≡ (machine tables.now).width }
    requires whole { at + width ≤ length window.now }
    requires sound { IsSound tables.now settings.now s.old }
    requires next { s.old.next < 2 ^ 63 }
    requires callable { H.IsAlwaysCallable host.old }
    ensures plays { Plays H.step host.old
        (says.turn (machine tables.now) settings.now (session_of (machine tables.now) s.old)
        (group_at width window.now at))
        host.new (came result (session_of (machine tables.now) s.new)) }
    ensures sound { IsSound tables.now settings.now s.new }
    ensures callable { H.IsAlwaysCallable host.new }
{
    let key = key_in(tables, width, window, at);
    let spot = spot_for(tables, settings, s, key);
    open_token(tables, settings, s);
    let flow = run_body(tables, settings, &spot, key, s, host);
    finish(tables, settings, &spot, flow, s, host)
}
