// Sessions by their names.
ghost use Rattle.std.specs.Prelude.{◌≡◌, ◌<◌, ◌≤◌, ◌+◌, ◌*◌, ◌^◌, ℕ, [], ◌∷◌, ◌++◌, length, map, not, slice_get, true, false, Some, None, Err, IfOk, IfErr, OnErr, MatchOption};
ghost use Rattle.std.specs.Option.{option_map};
ghost use Rattle.rl_arrays.specs.TableMachine.{machine};

use crate::SessionFault;
use crate::one::{One, SessionView, copied, end_one, feed_one, start_one, view_of};
use crate::places::{live_place_of, place_of, push_one, refusal_of};
use crate::roll::{Roll, put};
use indexmap::IndexSet;
use rl_run::{Answer, Call, Outcome, Settings, Verdict};
use rl_tables::Tables;
use rl_types::EntryId;
use std::alloc::Global;
use std::marker::Model;

/// Sessions over one set of tables, each with its own input. Contracts see them as a list in the order in which they
/// were started; they stay in it when they are ended.
#[derive(Drop)]
pub struct Sessions<'a> {
    alloc: Global,
    tables: &'a Tables,
    settings: Settings,
    names: Roll,
    all: Vec<One<'a>>,
    live: usize,
}

impl<'a> Model for Sessions<'a> {
    ghost use Rattle.rl_sessions.specs.SessionsValue.{SessionsValue};

    ghost Value = { SessionsValue };

    ghost use Rattle.rl_sessions.specs.SessionsInside.{sessions_value, IsSessions};

    ghost view = { sessions_value };

    ghost invariant = { IsSessions };
}

impl Sessions<'_> {
    ghost use Rattle.rl_tables.specs.Steps.{IsEntryNumber};
    ghost use Rattle.rl_sessions.specs.SessionsValue.{SessionValue, find, started, refusal, HasNoLive, verdict_in};
    ghost use Rattle.rl_sessions.specs.Views.{IsViewOf};
    ghost use Rattle.rl_sessions.specs.Runs.{TakesPiece, TakesEnd};

    /// No sessions yet. It takes no memory.
    pub fn new<'t>(alloc: Global, tables: &'t Tables, settings: Settings) -> Sessions<'t>
        ensures { result ≡ record { tables = tables.now; settings = settings; all = [] } }
    {
        Sessions {
            alloc,
            tables,
            settings,
            names: IndexSet::new(alloc),
            all: Vec::new(alloc),
            live: 0,
        }
    }

    /// Starts a session at the start of an entry, behind all others. `Twice` comes exactly where one of the name was
    /// started before, whether it was ended or not; `Full` exactly where none was, and 1,024 were not ended; else
    /// `Memory` may come. All sessions stay as they were behind a refusal.
    pub fn start(&mut self, alloc: Global, name: &[u8], entry: EntryId) -> Result<(), SessionFault>
        requires { IsEntryNumber self.old.tables entry.0 }
        ensures started { IfOk result (λ _. self.new ≡ record self.old { all = self.old.all ++ started name.now ((machine self.old.tables).entry entry.0) ∷ [] }) }
        ensures refused { (fault : SessionFault) → refusal name.now self.old.all ≡ Some fault → result ≡ Err fault }
        ensures admitted { refusal name.now self.old.all ≡ None → IfErr result (λ fault. fault ≡ SessionFault.Memory) }
        ensures unchanged { OnErr result (self.new ≡ self.old) }
    {
        if let Some(fault) = refusal_of(&self.names, self.all.as_slice(), self.live, name) {
            return Err(fault);
        }
        let Ok(one) = start_one(alloc, self.tables, self.settings, name, entry) else {
            return Err(SessionFault::Memory);
        };
        let Ok(key) = copied(alloc, name) else {
            return Err(SessionFault::Memory);
        };
        let Ok(()) = self.all.reserve(1) else {
            return Err(SessionFault::Memory);
        };
        let Ok(()) = put(&mut self.names, key) else {
            return Err(SessionFault::Memory);
        };
        push_one(&mut self.all, one);
        self.live += 1;
        Ok(())
    }

    /// Runs a session over a piece more of its input, which may end within a character, behind every break. `NoSession`
    /// comes exactly where no session that was not ended has the name, and is the only error; everything stays as it
    /// was then. It answers `Wants`, or `Stopped` with what the session stopped with, also where it stopped before:
    /// then nobody is called. It takes no memory.
    pub fn piece<H: FnMut(Call) -> Answer>(
        &mut self,
        name: &[u8],
        piece: &[u8],
        host: &mut H,
    ) -> Result<Outcome, SessionFault>
        requires small { (x : SessionValue) → find name.now self.old.all ≡ Some x → x.over ≡ None →
            (machine self.old.tables).width * x.base + length x.window + length piece.now < 2 ^ 63 }
        requires callable { H.IsAlwaysCallable host.old }
        ensures taken { IfOk result (λ outcome. TakesPiece H.step host.old host.new name.now self.old self.new piece.now outcome) }
        ensures refused { IfErr result (λ fault. (fault ≡ SessionFault.NoSession) × HasNoLive name.now self.old.all × (self.new ≡ self.old) × (host.new ≡ host.old)) }
        ensures callable { H.IsAlwaysCallable host.new }
    {
        let Some(place) = live_place_of(&self.names, self.all.as_slice(), name) else {
            return Err(SessionFault::NoSession);
        };
        Ok(feed_one(&mut self.all[place], piece, host))
    }

    /// Runs a session to the end of its input, behind every break, and what follows there; an input that ends within a
    /// character stops it with `HalfKey`. It can't be reached any more by `piece` and `end`. `NoSession` comes exactly
    /// where no session that was not ended has the name, and is the only error; everything stays as it was then. It
    /// answers `Ended`, or `Stopped` with what the session stopped with, also where it stopped before: then nobody is
    /// called. It takes no memory.
    pub fn end<H: FnMut(Call) -> Answer>(
        &mut self,
        name: &[u8],
        host: &mut H,
    ) -> Result<Outcome, SessionFault>
        requires callable { H.IsAlwaysCallable host.old }
        ensures ended { IfOk result (λ outcome. TakesEnd H.step host.old host.new name.now self.old self.new outcome) }
        ensures refused { IfErr result (λ fault. (fault ≡ SessionFault.NoSession) × HasNoLive name.now self.old.all × (self.new ≡ self.old) × (host.new ≡ host.old)) }
        ensures callable { H.IsAlwaysCallable host.new }
    {
        let Some(place) = live_place_of(&self.names, self.all.as_slice(), name) else {
            return Err(SessionFault::NoSession);
        };
        self.live -= 1;
        Ok(end_one(self.alloc, &mut self.all[place], host))
    }

    /// The verdict of a session; None exactly where none of the name was started. It takes no memory.
    pub fn verdict(&self, name: &[u8]) -> Option<Verdict>
        ensures { result ≡ option_map (λ x. verdict_in self.now.tables x) (find name.now self.now.all) }
    {
        match place_of(&self.names, self.all.as_slice(), name) {
            None => None,
            Some(place) => Some(view_of(&self.all[place]).verdict),
        }
    }

    /// The position of a session's next character, from 0; None exactly where none of the name was started. It takes no
    /// memory.
    pub fn next(&self, name: &[u8]) -> Option<u64>
        ensures { result ≡ option_map (λ (x : SessionValue). x.session.next) (find name.now self.now.all) }
    {
        match place_of(&self.names, self.all.as_slice(), name) {
            None => None,
            Some(place) => Some(view_of(&self.all[place]).next),
        }
    }

    /// How many sessions were started.
    pub fn len(&self) -> usize
        ensures { result ≡ length self.now.all }
    {
        self.all.len()
    }

    /// The session at a place in the order of starting, from 0; None exactly where there are not so many. It takes no
    /// memory.
    pub fn session(&self, place: usize) -> Option<SessionView<'_>>
        ensures { IsViewOf self.now.tables (slice_get self.now.all place) result }
    {
        match self.all.get(place) {
            None => None,
            Some(one) => Some(view_of(one)),
        }
    }
}
