// A runner that is fed window by window.
ghost use Rattle.std.specs.Prelude.{◌≡◌, ◌≢◌, ◌+◌, ◌*◌, ◌/◌, ◌<◌, ◌≤◌, ◌^◌, ℕ, length, true, false, Some, None};
ghost use Rattle.rl_run.specs.Chain.{Played, run_on};
ghost use Rattle.rl_run.specs.Run.{rest};
ghost use Rattle.rl_runner.specs.Feeds.{over_after, window_of};
ghost use Rattle.rl_arrays.specs.TableMachine.{machine};

use crate::State;
use crate::ends::end_state;
use crate::feeds::feed_state;
use crate::turns::width_in;
use rl_run::{Answer, Call, Outcome, Settings, Verdict};
use rl_tables::Tables;
use rl_types::{EntryId, Memory};
use std::alloc::Global;
use std::marker::Model;

#[derive(Drop)]
pub struct Runner<'a> {
    tables: &'a Tables,
    settings: Settings,
    session: State,
    over: Option<Outcome>,
}

impl<'a> Model for Runner<'a> {
    ghost use Rattle.rl_runner.specs.RunnerValue.{RunnerValue};

    ghost Value = { RunnerValue };

    ghost use Rattle.rl_runner.specs.RunnerInside.{runner_value, IsRunner};

    ghost view = { runner_value };

    ghost invariant = { IsRunner };
}

impl Runner<'_> {
    ghost use Rattle.std.specs.Prelude.{IfOk};
    ghost use Rattle.rl_run.specs.Machine.{keep, fresh};
    ghost use Rattle.rl_run.specs.Chain.{Played, run_on};
    ghost use Rattle.rl_run.specs.Fine.{IsKinded, IsFine, weight};
    ghost use Rattle.rl_run.specs.Run.{rest};
    ghost use Rattle.rl_run.specs.Verdict.{verdict_of};
    ghost use Rattle.rl_tables.specs.Steps.{IsEntryNumber};
    ghost use Rattle.rl_runner.specs.Feeds.{window_of, closed_of, over_after};
    ghost use Rattle.rl_arrays.specs.TableMachine.{machine};

    /// A runner at the start of an entry, with room for the stack.
    pub fn new<'t>(
        alloc: Global,
        tables: &'t Tables,
        entry: EntryId,
        settings: Settings,
    ) -> Result<Runner<'t>, Memory>
        requires { IsEntryNumber tables.now entry.0 }
        ensures { IfOk result (λ r. (r.tables ≡ tables.now) × (r.settings ≡ settings)
            × (r.session ≡ fresh ((machine tables.now).entry entry.0)) × (r.over ≡ None)) }
    {
        let stack = Vec::with_capacity(alloc, settings.stack as usize).map_err(|_| Memory)?;
        let session = State {
            state: tables.entry_state(entry),
            next: 0,
            stack,
            ts: None,
            te: None,
            kept: None,
            furthest: 0,
            backs: 0,
        };
        Ok(Runner {
            tables,
            settings,
            session,
            over: None,
        })
    }

    /// The least position that may still be read.
    pub fn keep(&self) -> u64
        ensures { result ≡ keep self.now.settings self.now.session }
    {
        self.session.keep(&self.settings)
    }

    /// The position of the next character.
    pub fn next(&self) -> u64
        ensures { result ≡ self.now.session.next }
    {
        self.session.next
    }

    /// The number of the state.
    pub fn state(&self) -> u32
        ensures { result ≡ self.now.session.state }
    {
        self.session.state
    }

    /// Error where the run stopped, else Final exactly where the state is final.
    pub fn verdict(&self) -> Verdict
        ensures { result ≡ verdict_of (machine self.now.tables) (rest self.now.over self.now.session) }
    {
        match self.over {
            Some(Outcome::Stopped(_)) => Verdict::Error,
            _ => {
                if self.tables.is_final(self.session.state) {
                    Verdict::Final
                } else {
                    Verdict::Partial
                }
            }
        }
    }

    /// Makes turns up to the end of the window's whole characters, or through the turn in which a break is applied. The
    /// window is the input's bytes so far from the character `base` on.
    pub fn feed<H: FnMut(Call) -> Answer>(
        &mut self,
        host: &mut H,
        base: u64,
        window: &[u8],
    ) -> Outcome
        requires base { base ≤ keep self.old.settings self.old.session }
        requires end { (machine self.old.tables).width * base + length window.now < 2 ^ 63 }
        requires callable { H.IsAlwaysCallable host.old }

        // The host is called with a chain of calls: those of the run on the window, with exactly its answers.
        ensures played { self.old.over ≡ None → Played H.step host.old
            (run_on true (machine self.old.tables) self.old.settings
            (window_of (machine self.old.tables).width base window.now) self.old.session)
            host.new (rest (Some result) self.new.session) }
        ensures wants { result ≡ Outcome.Wants →
            base + length window.now / (machine self.old.tables).width ≤ self.new.session.next }
        ensures over_after { self.new.over ≡ over_after result }
        ensures same { (self.new.tables ≡ self.old.tables) × (self.new.settings ≡ self.old.settings) }
        ensures keeps { self.new.over ≡ None → base ≤ keep self.new.settings self.new.session }

        // A runner that is over answers the same for good, and calls nobody.
        ensures over { (outcome : _) → self.old.over ≡ Some outcome → (result ≡ outcome) × (self.new ≡ self.old) × (host.new ≡ host.old) }
        ensures callable { H.IsAlwaysCallable host.new }

        // What callers need to put runs together.
        ensures kinded { IsKinded (machine self.old.tables) }
        ensures fine { self.old.over ≡ None → IsFine (machine self.old.tables) self.old.session }

        // Calls that are made again as long as they are broken off come to an end.
        ensures lowers { self.old.over ≡ None → result ≡ Outcome.Broke → weight self.new.session < weight self.old.session }
    {
        if let Some(outcome) = self.over {
            return outcome;
        }
        let width = width_in(self.tables);
        let outcome = feed_state(
            self.tables,
            &self.settings,
            &mut self.session,
            host,
            width,
            base,
            window,
        );
        self.over = over_of(outcome);
        outcome
    }

    /// Makes turns up to the end of the last window, and what follows at the end of input. Where its last bytes fill no
    /// character it stops there with `HalfKey`.
    pub fn end<H: FnMut(Call) -> Answer>(
        &mut self,
        host: &mut H,
        base: u64,
        window: &[u8],
    ) -> Outcome
        requires base { base ≤ keep self.old.settings self.old.session }
        requires end { (machine self.old.tables).width * base + length window.now < 2 ^ 63 }
        requires callable { H.IsAlwaysCallable host.old }

        // The host is called with a chain of calls: those of the run to the end of input, with exactly its answers.
        ensures played { self.old.over ≡ None → Played H.step host.old
            (run_on true (machine self.old.tables) self.old.settings
            (closed_of (machine self.old.tables).width base window.now) self.old.session)
            host.new (rest (Some result) self.new.session) }
        ensures ends { result ≢ Outcome.Wants }
        ensures over_after { self.new.over ≡ over_after result }
        ensures same { (self.new.tables ≡ self.old.tables) × (self.new.settings ≡ self.old.settings) }
        ensures keeps { self.new.over ≡ None → base ≤ keep self.new.settings self.new.session }
        ensures over { (outcome : _) → self.old.over ≡ Some outcome → (result ≡ outcome) × (self.new ≡ self.old) × (host.new ≡ host.old) }
        ensures callable { H.IsAlwaysCallable host.new }
        ensures kinded { IsKinded (machine self.old.tables) }
        ensures fine { self.old.over ≡ None → IsFine (machine self.old.tables) self.old.session }

        // Calls that are made again as long as they are broken off come to an end.
        ensures lowers { self.old.over ≡ None → result ≡ Outcome.Broke → weight self.new.session < weight self.old.session }
    {
        if let Some(outcome) = self.over {
            return outcome;
        }
        let width = width_in(self.tables);
        let outcome = end_state(
            self.tables,
            &self.settings,
            &mut self.session,
            host,
            width,
            base,
            window,
        );
        self.over = over_of(outcome);
        outcome
    }
}

// What a runner keeps of an outcome.
fn over_of(outcome: Outcome) -> Option<Outcome>
    ensures { result ≡ over_after outcome }
{
    match outcome {
        Outcome::Wants | Outcome::Broke => None,
        over => Some(over),
    }
}
