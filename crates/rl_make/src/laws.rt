// Of which names what is written speaks.
ghost use Rattle.std.specs.Prelude.{◌≡◌, ℕ, List, Option};
ghost use Rattle.rl_run.specs.declared.sessions.Settings.{Settings};
ghost use Rattle.rl_run.specs.Machine.{Machine};
ghost use Rattle.rl_replay.specs.declared.script.Line.{Line};
ghost use Rattle.rl_replay.specs.Sessions.{Names, entry_or_start};
ghost use Rattle.rl_replay.specs.Written.{written, whole_input};

/// What a machine writes for a script depends on the names of its entries alone, and for a session with one piece on the
/// number of the entry at which it is opened.
pub fn only_entries_matter()
    ensures scripts { (names other : Names) (m : Machine ℕ) (settings : Settings) (script : List Line) → names.entries ≡ other.entries →
        written names m settings script ≡ written other m settings script }
    ensures session { (names other : Names) (m : Machine ℕ) (settings : Settings) (s : List ℕ) (entry : Option (List ℕ)) (bytes : List ℕ) →
        entry_or_start names entry ≡ entry_or_start other entry →
        written names m settings (whole_input s entry bytes) ≡ written other m settings (whole_input s entry bytes) }
{}
