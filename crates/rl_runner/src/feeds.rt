// Turns over a window.
ghost use Rattle.std.specs.Prelude.{◌≡◌, ◌≢◌, ◌+◌, ◌-◌, ◌*◌, ◌/◌, ◌<◌, ◌≤◌, ◌^◌, ℕ, length, true, Some};
ghost use Rattle.rl_run.specs.Fine.{IsKinded, IsFine, GoesOn, UnlessStops};
ghost use Rattle.rl_run.specs.Machine.{keep};
ghost use Rattle.rl_run.specs.Picks.{came};
ghost use Rattle.rl_run.specs.Play.{Plays};
ghost use Rattle.rl_run.specs.Run.{turns, rest};
ghost use Rattle.rl_run.specs.Turn.{turn};
ghost use Rattle.rl_runner.specs.Sessions.{session_of, IsSound};
ghost use Rattle.rl_runner.specs.Feeds.{window_of, UnlessStopped};
ghost use Rattle.rl_types.specs.Alphabet.{group_at};
ghost use Rattle.rl_arrays.specs.TableMachine.{machine};
ghost use Rattle.rl_arrays.specs.Sizes.{states};

use crate::State;
use crate::turns::run_turn;
use rl_run::{Answer, Call, Flow, Outcome, Settings};
use rl_tables::Tables;

// A turn, which goes on towards the end of the run.
pub fn take_turn<H: FnMut(Call) -> Answer>(
    tables: &Tables,
    settings: &Settings,
    width: usize,
    window: &[u8],
    at: usize,
    s: &mut State,
    host: &mut H,
) -> Flow
    requires width { width ≡ (machine tables.now).width }
    requires whole { at + width ≤ length window.now }
    requires kinded { IsKinded (machine tables.now) }
    requires sound { IsSound tables.now settings.now s.old }
    requires fine { IsFine (machine tables.now) (session_of (machine tables.now) s.old) }
    requires next { s.old.next < 2 ^ 63 }
    requires callable { H.IsAlwaysCallable host.old }
    ensures plays { Plays H.step host.old
        (turn (machine tables.now) settings.now (session_of (machine tables.now) s.old) (group_at width window.now at))
        host.new (came result (session_of (machine tables.now) s.new)) }
    ensures sound { IsSound tables.now settings.now s.new }
    ensures follows { UnlessStops result (GoesOn (machine tables.now) settings.now (session_of (machine tables.now) s.old) (session_of (machine tables.now) s.new)) }
    ensures callable { H.IsAlwaysCallable host.new }
{
    run_turn(tables, settings, width, window, at, s, host)
}

// The number of characters up to the end of a window of so many bytes.
pub fn end_at(base: u64, held: usize, width: usize) -> u64
    requires width { 0 < width }
    requires end { width * base + held < 2 ^ 63 }
    ensures value { result ≡ base + held / width }
    ensures below { result < 2 ^ 63 }
{
    base + (held / width) as u64
}

// The place of the bytes of a character in a window.
pub fn place_at(base: u64, position: u64, held: usize, width: usize) -> usize
    requires width { 0 < width }
    requires low { base ≤ position }
    requires high { position < base + held / width }
    ensures value { result ≡ width * (position - base) }
    ensures whole { result + width ≤ held }
{
    width * (position - base) as usize
}

// Turns up to the window's end, or through the turn in which the run is broken off.
pub fn feed_state<H: FnMut(Call) -> Answer>(
    tables: &Tables,
    settings: &Settings,
    s: &mut State,
    host: &mut H,
    width: usize,
    base: u64,
    window: &[u8],
) -> Outcome
    requires width { width ≡ (machine tables.now).width }
    requires some { 0 < width }
    requires kinded { IsKinded (machine tables.now) }
    requires sound { IsSound tables.now settings.now s.old }
    requires fine { IsFine (machine tables.now) (session_of (machine tables.now) s.old) }
    requires base { base ≤ keep settings.now (session_of (machine tables.now) s.old) }
    requires end { width * base + length window.now < 2 ^ 63 }
    requires callable { H.IsAlwaysCallable host.old }
    ensures plays { (n : ℕ) × Plays H.step host.old
        (turns true (machine tables.now) settings.now (window_of width base window.now) n
        (session_of (machine tables.now) s.old))
        host.new (rest (Some result) (session_of (machine tables.now) s.new)) }
    ensures sound { IsSound tables.now settings.now s.new }
    ensures fine { UnlessStopped result (IsFine (machine tables.now) (session_of (machine tables.now) s.new)) }
    ensures keeps { UnlessStopped result (base ≤ keep settings.now (session_of (machine tables.now) s.new)) }
    ensures wants { result ≡ Outcome.Wants → base + length window.now / width ≤ s.new.next }
    ensures callable { H.IsAlwaysCallable host.new }
{
    let end = end_at(base, window.len(), width);
    while s.next < end {
        let at = place_at(base, s.next, window.len(), width);
        match take_turn(tables, settings, width, window, at, s, host) {
            Flow::Stops(cause) => return Outcome::Stopped(cause),
            Flow::Breaks => return Outcome::Broke,
            _ => {}
        }
    }
    Outcome::Wants
}
