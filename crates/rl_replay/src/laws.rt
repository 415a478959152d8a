// Laws of what a replay writes.
ghost use Rattle.std.specs.Prelude.{◌≡◌, ℕ, Bool, true, IsTrue, List, [], Option, None};
ghost use Rattle.rl_run.specs.declared.sessions.Settings.{Settings};
ghost use Rattle.rl_run.specs.Machine.{Machine};
ghost use Rattle.rl_run.specs.Run.{input_at};
ghost use Rattle.rl_run.specs.Twin.{IsTwin};
ghost use Rattle.rl_replay.specs.declared.script.Line.{Line};
ghost use Rattle.rl_replay.specs.Sessions.{Names, only, entry_or_start, first_fault};
ghost use Rattle.rl_replay.specs.Host.{host};
ghost use Rattle.rl_replay.specs.Lines.{run_lines};
ghost use Rattle.rl_replay.specs.ScriptRows.{AreThreeLines, IsNoLine, IsNotOpen, IsOpenedTwice, IsNoEntry, EachCallHasItsLine, StopsForGood, LeftAreTold, SessionsTakeTurns, SecondCallIsPicked, NoSuchStatement, ACharacterIsCut, HalfACharacter};
ghost use Rattle.rl_replay.specs.Written.{texts_of, session_lines, parts_from, parts, written, whole_input};

/// What is written for a session is what the lines that name it write by themselves: no other session's pieces, ends
/// or answers reach it.
pub fn sessions_are_apart()
    ensures { (names : Names) (m : Machine ℕ) (settings : Settings) (script : List Line) (s : List ℕ) →
        texts_of s (parts names m settings script) ≡ written names m settings (only s script) }
{}

/// In a script without a fault, what the lines add for a session, one after another, is the lines of its one run over
/// the characters of all its input, however that is cut into pieces: a piece may end within a character.
pub fn pieces_add_up()
    ensures { (names : Names) (m : Machine ℕ) (settings : Settings) (script : List Line) (s : List ℕ) →
        first_fault names script ≡ None →
        texts_of s (parts_from names m settings script [] script) ≡ session_lines names m settings s (only s script) (only s script) }
{}

/// A session that is opened, has one piece and is ended writes the lines of one run over that piece's characters, from
/// its entry on; the host takes the statements that it takes by itself.
pub fn whole_inputs_are_one_run()
    ensures { (names : Names) (m : Machine ℕ) (settings : Settings) (s : List ℕ) (entry : Option (List ℕ)) (bytes : List ℕ) →
        written names m settings (whole_input s entry bytes)
        ≡ run_lines m settings s (host m []) (entry_or_start names entry) (input_at m.width 0 bytes true) }
{}

/// Two machines whose characters are as wide and whose look-ups agree at states that stand for each other, but for the
/// numbers of actions, write the same bytes for each script.
pub fn twins_write_the_same()
    ensures { (m w : Machine ℕ) (rename : ℕ → ℕ) (stands : ℕ → ℕ → Bool) → IsTwin m w rename (λ q p. IsTrue (stands q p)) →
        (names : Names) (settings : Settings) (script : List Line) → written names w settings script ≡ written names m settings script }
{}

/// Some scripts, of one session and of two: how they read, their faults, and what a replay of a small machine writes for
/// them.
pub fn scripts_write_lines()
    ensures three_lines { AreThreeLines }
    ensures no_line { IsNoLine }
    ensures not_open { IsNotOpen }
    ensures twice { IsOpenedTwice }
    ensures no_entry { IsNoEntry }
    ensures calls { EachCallHasItsLine }
    ensures stop { StopsForGood }
    ensures left { LeftAreTold }
    ensures turns { SessionsTakeTurns }
    ensures picks { SecondCallIsPicked }
    ensures stray { NoSuchStatement }
    ensures cut { ACharacterIsCut }
    ensures half_key { HalfACharacter }
{}
