// The end of input.
ghost use Rattle.std.specs.Prelude.{◌≡◌, ◌+◌, ◌*◌, ◌<◌, ◌≤◌, ◌^◌, ℕ, length, true, Some};
ghost use Rattle.rl_run.specs.Fine.{IsKinded, IsFine, GoesOn, UnlessStops};
ghost use Rattle.rl_run.specs.Machine.{keep};
ghost use Rattle.rl_run.specs.Picks.{came};
ghost use Rattle.rl_run.specs.Play.{Plays};
ghost use Rattle.rl_run.specs.Run.{turns, rest, last_delivery, last_list, end_spot};
ghost use Rattle.rl_runner.specs.Sessions.{session_of, IsSound};
ghost use Rattle.rl_runner.specs.Feeds.{closed_of};
ghost use Rattle.rl_types.specs.Alphabet.{has_rest};
ghost use Rattle.rl_arrays.specs.TableMachine.{machine};
ghost use Rattle.rl_arrays.specs.Sizes.{states};

use crate::State;
use crate::feeds::{end_at, place_at, take_turn};
use crate::lists::call_list;
use crate::turns::{deliver, finish};
use rl_run::{Answer, Call, CallKind, Flow, Outcome, Settings, Spot, Stop};
use rl_tables::Tables;

fn spot_at_end(tables: &Tables, settings: &Settings, s: &State, at: u64, is_end: bool) -> Spot
    ensures { result ≡ end_spot settings.now (session_of (machine tables.now) s.now) at is_end }
{
    Spot {
        at,
        key: None,
        floor: s.keep(settings),
        is_end,
    }
}

// The kept token list is delivered, in a turn of its own.
#[tactic(auto, unfolding(rl_run::specs::Run::last_delivery))]
fn deliver_last<H: FnMut(Call) -> Answer>(
    tables: &Tables,
    settings: &Settings,
    at: u64,
    token: u32,
    s: &mut State,
    host: &mut H,
) -> Flow
    requires kinded { IsKinded (machine tables.now) }
    requires sound { IsSound tables.now settings.now s.old }
    requires fine { IsFine (machine tables.now) (session_of (machine tables.now) s.old) }
    requires kept { s.old.kept ≡ Some token }
    requires at { at ≡ s.old.next }
    requires below { at < 2 ^ 63 }
    requires callable { H.IsAlwaysCallable host.old }
    ensures plays { Plays H.step host.old
        (last_delivery (machine tables.now) settings.now at ((machine tables.now).token token) (session_of (machine tables.now) s.old))
        host.new (came result (session_of (machine tables.now) s.new)) }
    ensures sound { IsSound tables.now settings.now s.new }
    ensures follows { UnlessStops result (GoesOn (machine tables.now) settings.now (session_of (machine tables.now) s.old) (session_of (machine tables.now) s.new)) }
    ensures callable { H.IsAlwaysCallable host.new }
{
    let spot = spot_at_end(tables, settings, s, at, false);
    let flow = deliver(tables, settings, &spot, token, s, host);
    finish(tables, settings, &spot, flow, s, host)
}

// The end-of-file list.
#[tactic(auto, unfolding(rl_run::specs::Run::last_list))]
fn call_last<H: FnMut(Call) -> Answer>(
    tables: &Tables,
    settings: &Settings,
    at: u64,
    s: &mut State,
    host: &mut H,
) -> Outcome
    requires sound { IsSound tables.now settings.now s.old }
    requires callable { H.IsAlwaysCallable host.old }
    ensures plays { Plays H.step host.old
        (last_list (machine tables.now) settings.now at (session_of (machine tables.now) s.old))
        host.new (rest (Some result) (session_of (machine tables.now) s.new)) }
    ensures sound { IsSound tables.now settings.now s.new }
    ensures over { (result ≡ Outcome.Wants → ⊥) × (result ≡ Outcome.Broke → ⊥) }
    ensures callable { H.IsAlwaysCallable host.new }
{
    let spot = spot_at_end(tables, settings, s, at, true);
    match call_list(
        tables,
        settings,
        &spot,
        CallKind::Eof,
        tables.eof_list(s.state),
        s,
        host,
    ) {
        Flow::Stops(cause) => Outcome::Stopped(cause),
        _ => Outcome::Ended,
    }
}

// Whether bytes that fill no character stand at the end of a window.
fn is_cut(window: &[u8], width: usize) -> bool
    requires { 0 < width }
    ensures { result ≡ has_rest width window.now }
{
    window.len() % width != 0
}

// Turns up to the end of a window that is the last one, and what follows there.
pub fn end_state<H: FnMut(Call) -> Answer>(
    tables: &Tables,
    settings: &Settings,
    s: &mut State,
    host: &mut H,
    width: usize,
    base: u64,
    window: &[u8],
) -> Outcome
    requires width { width ≡ (machine tables.now).width }
    requires some { 0 < width }
    requires kinded { IsKinded (machine tables.now) }
    requires sound { IsSound tables.now settings.now s.old }
    requires fine { IsFine (machine tables.now) (session_of (machine tables.now) s.old) }
    requires base { base ≤ keep settings.now (session_of (machine tables.now) s.old) }
    requires end { width * base + length window.now < 2 ^ 63 }
    requires callable { H.IsAlwaysCallable host.old }
    ensures plays { (n : ℕ) × Plays H.step host.old
        (turns true (machine tables.now) settings.now (closed_of width base window.now) n
        (session_of (machine tables.now) s.old))
        host.new (rest (Some result) (session_of (machine tables.now) s.new)) }
    ensures sound { IsSound tables.now settings.now s.new }
    ensures fine { result ≡ Outcome.Broke → IsFine (machine tables.now) (session_of (machine tables.now) s.new) }
    ensures keeps { result ≡ Outcome.Broke → base ≤ keep settings.now (session_of (machine tables.now) s.new) }
    ensures no_wants { result ≡ Outcome.Wants → ⊥ }
    ensures callable { H.IsAlwaysCallable host.new }
{
    let end = end_at(base, window.len(), width);
    loop {
        if s.next < end {
            let at = place_at(base, s.next, window.len(), width);
            match take_turn(tables, settings, width, window, at, s, host) {
                Flow::Stops(cause) => return Outcome::Stopped(cause),
                Flow::Breaks => return Outcome::Broke,
                _ => {}
            }
        } else if is_cut(window, width) {
            return Outcome::Stopped(Stop::HalfKey);
        } else if s.next > end {
            return Outcome::Stopped(Stop::PastEnd);
        } else {
            match s.kept {
                None => return call_last(tables, settings, end, s, host),
                Some(token) => match deliver_last(tables, settings, end, token, s, host) {
                    Flow::Stops(cause) => return Outcome::Stopped(cause),
                    Flow::Breaks => return Outcome::Broke,
                    _ => {}
                },
            }
        }
    }
}
