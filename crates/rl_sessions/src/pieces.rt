// A runner over a piece, as much at a time as its window has room for.
ghost use Rattle.std.specs.Prelude.{◌≡◌, ◌≢◌, ◌+◌, ◌*◌, ◌/◌, ◌<◌, ◌≤◌, ◌^◌, ◌++◌, ℕ, [], length, drop, true, false, Some, None};
ghost use Rattle.rl_run.specs.Fine.{IsKinded, IsFine};
ghost use Rattle.rl_run.specs.Machine.{keep};
ghost use Rattle.rl_runner.specs.Feeds.{window_of, over_after};
ghost use Rattle.rl_arrays.specs.TableMachine.{machine};
ghost use Rattle.rl_window.specs.WindowValue.{dropped};
ghost use Rattle.rl_sessions.specs.Joins.{RanOver};
ghost use Rattle.rl_sessions.specs.Pieces.{IsReady, IsPart};
ghost use Rattle.rl_sessions.specs.Short.{IsShort, most_kept};

use crate::windows::feed_window;
use rl_run::{Answer, Call, Outcome};
use rl_runner::Runner;
use rl_window::Window;

// Runs over a window, and drops what is not read any more.
fn feed_and_drop<H: FnMut(Call) -> Answer>(
    runner: &mut Runner,
    window: &mut Window,
    host: &mut H,
) -> Outcome
    requires going { runner.old.over ≡ None }
    requires base { window.old.base ≤ keep runner.old.settings runner.old.session }
    requires short { IsShort runner.old.settings runner.old.session }
    requires width { window.old.width ≡ (machine runner.old.tables).width }
    requires room { (machine runner.old.tables).width * (most_kept runner.old.settings + 1) ≤ window.old.capacity }
    requires callable { H.IsAlwaysCallable host.old }
    ensures ran { RanOver H.step (machine runner.old.tables) runner.old.settings
        (window_of (machine runner.old.tables).width window.old.base window.old.bytes) host.old runner.old.session
        result host.new runner.new.session }
    ensures wants { result ≡ Outcome.Wants →
        window.old.base + length window.old.bytes / (machine runner.old.tables).width ≤ runner.new.session.next }
    ensures window { window.new ≡ dropped window.old (keep runner.old.settings runner.new.session) }
    ensures ready { result ≡ Outcome.Wants →
        IsReady (machine runner.old.tables).width runner.old.settings window.new runner.new.session }
    ensures over_after { runner.new.over ≡ over_after result }
    ensures unbroken { result ≢ Outcome.Broke }
    ensures same { (runner.new.tables ≡ runner.old.tables) × (runner.new.settings ≡ runner.old.settings) }
    ensures callable { H.IsAlwaysCallable host.new }
    ensures kinded { IsKinded (machine runner.old.tables) }
    ensures fine { IsFine (machine runner.old.tables) runner.old.session }
{
    let base = window.base();
    let outcome = feed_window(runner, host, base, window.bytes());
    window.drop_to(runner.keep());
    outcome
}

// A piece without its front.
fn behind(piece: &[u8], count: usize) -> &[u8]
    requires { count ≤ length piece.now }
    ensures { result.now ≡ drop count piece.now }
{
    piece.split_at(count).1
}

// Whether nothing of a piece is left to be run over.
fn is_done(outcome: Outcome, rest: &[u8]) -> bool
    ensures done { result ≡ true → outcome ≡ Outcome.Wants → rest.now ≡ [] }
    ensures more { result ≡ false → (outcome ≡ Outcome.Wants) × (0 < length rest.now) }
{
    match outcome {
        Outcome::Wants => rest.is_empty(),
        Outcome::Broke | Outcome::Ended | Outcome::Stopped(_) => true,
    }
}

// Runs over a piece, up to a stop.
pub(crate) fn feed_piece<H: FnMut(Call) -> Answer>(
    runner: &mut Runner,
    window: &mut Window,
    piece: &[u8],
    host: &mut H,
) -> Outcome
    requires going { runner.old.over ≡ None }
    requires ready { IsReady (machine runner.old.tables).width runner.old.settings window.old runner.old.session }
    requires end { (machine runner.old.tables).width * window.old.base + length window.old.bytes + length piece.now < 2 ^ 63 }
    requires callable { H.IsAlwaysCallable host.old }
    ensures ran { RanOver H.step (machine runner.old.tables) runner.old.settings
        (window_of (machine runner.old.tables).width window.old.base (window.old.bytes ++ piece.now)) host.old
        runner.old.session result host.new runner.new.session }
    ensures wants { result ≡ Outcome.Wants →
        window.old.base + length (window.old.bytes ++ piece.now) / (machine runner.old.tables).width
        ≤ runner.new.session.next }
    ensures window { result ≡ Outcome.Wants →
        IsPart (machine runner.old.tables).width window.old.base (window.old.bytes ++ piece.now) window.new [] }
    ensures ready { result ≡ Outcome.Wants →
        IsReady (machine runner.old.tables).width runner.old.settings window.new runner.new.session }
    ensures over_after { runner.new.over ≡ over_after result }
    ensures unbroken { result ≢ Outcome.Broke }
    ensures same { (runner.new.tables ≡ runner.old.tables) × (runner.new.settings ≡ runner.old.settings) }
    ensures callable { H.IsAlwaysCallable host.new }
    ensures kinded { IsKinded (machine runner.old.tables) }
    ensures fine { IsFine (machine runner.old.tables) runner.old.session }
{
    let mut rest = piece;
    'pieces: loop {
        let count = window.push(rest);
        rest = behind(rest, count);
        let outcome = feed_and_drop(runner, window, host);
        if is_done(outcome, rest) {
            return outcome;
        }
    }
}
