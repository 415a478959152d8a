// A runner over one window, behind every break.
ghost use Rattle.std.specs.Prelude.{◌≡◌, ◌≢◌, ◌+◌, ◌*◌, ◌/◌, ◌<◌, ◌≤◌, ◌^◌, ℕ, length, true, false, Some, None};
ghost use Rattle.rl_run.specs.Fine.{IsKinded, IsFine};
ghost use Rattle.rl_run.specs.Machine.{keep};
ghost use Rattle.rl_runner.specs.Feeds.{window_of, over_after};
ghost use Rattle.rl_arrays.specs.TableMachine.{machine};
ghost use Rattle.rl_sessions.specs.Joins.{RanOver, RanOut};
ghost use Rattle.rl_sessions.specs.Short.{IsShort};

use rl_run::{Answer, Call, Outcome};
use rl_runner::Runner;

// Whether a run does not go on behind a break.
fn is_over(outcome: Outcome) -> bool
    ensures over { result ≡ true → outcome ≢ Outcome.Broke }
    ensures broke { result ≡ false → outcome ≡ Outcome.Broke }
{
    match outcome {
        Outcome::Broke => false,
        Outcome::Wants | Outcome::Ended | Outcome::Stopped(_) => true,
    }
}

// Runs over a window.
pub(crate) fn feed_window<H: FnMut(Call) -> Answer>(
    runner: &mut Runner,
    host: &mut H,
    base: u64,
    window: &[u8],
) -> Outcome
    requires going { runner.old.over ≡ None }
    requires base { base ≤ keep runner.old.settings runner.old.session }
    requires end { (machine runner.old.tables).width * base + length window.now < 2 ^ 63 }
    requires short { IsShort runner.old.settings runner.old.session }
    requires callable { H.IsAlwaysCallable host.old }
    ensures ran { RanOver H.step (machine runner.old.tables) runner.old.settings
        (window_of (machine runner.old.tables).width base window.now) host.old runner.old.session result host.new
        runner.new.session }
    ensures wants { result ≡ Outcome.Wants →
        base + length window.now / (machine runner.old.tables).width ≤ runner.new.session.next }
    ensures short { result ≡ Outcome.Wants → IsShort runner.old.settings runner.new.session }
    ensures keeps { result ≡ Outcome.Wants → base ≤ keep runner.old.settings runner.new.session }
    ensures over_after { runner.new.over ≡ over_after result }
    ensures unbroken { result ≢ Outcome.Broke }
    ensures same { (runner.new.tables ≡ runner.old.tables) × (runner.new.settings ≡ runner.old.settings) }
    ensures callable { H.IsAlwaysCallable host.new }
    ensures kinded { IsKinded (machine runner.old.tables) }
    ensures fine { IsFine (machine runner.old.tables) runner.old.session }
{
    loop {
        let outcome = runner.feed(host, base, window);
        if is_over(outcome) {
            return outcome;
        }
    }
}

// Runs over the last window, and what follows at the end of input.
pub(crate) fn end_window<H: FnMut(Call) -> Answer>(
    runner: &mut Runner,
    host: &mut H,
    base: u64,
    window: &[u8],
) -> Outcome
    requires going { runner.old.over ≡ None }
    requires base { base ≤ keep runner.old.settings runner.old.session }
    requires end { (machine runner.old.tables).width * base + length window.now < 2 ^ 63 }
    requires callable { H.IsAlwaysCallable host.old }
    ensures ran { RanOut H.step (machine runner.old.tables) runner.old.settings base window.now host.old runner.old.session result host.new runner.new.session }
    ensures over_after { runner.new.over ≡ over_after result }
    ensures unbroken { result ≢ Outcome.Broke }
    ensures ends { result ≢ Outcome.Wants }
    ensures same { (runner.new.tables ≡ runner.old.tables) × (runner.new.settings ≡ runner.old.settings) }
    ensures callable { H.IsAlwaysCallable host.new }
{
    loop {
        let outcome = runner.end(host, base, window);
        if is_over(outcome) {
            return outcome;
        }
    }
}
