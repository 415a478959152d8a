// What a session has run over since its start.
ghost use Rattle.std.specs.Prelude.{ℕ, ◌<◌, Bool, IsTrue, List, []};
ghost use Rattle.rl_run.specs.declared.calls.Answer.{Answer};
ghost use Rattle.rl_run.specs.declared.calls.Call.{Call};
ghost use Rattle.rl_run.specs.declared.sessions.Settings.{Settings};
ghost use Rattle.rl_run.specs.Fine.{IsKinded};
ghost use Rattle.rl_run.specs.Machine.{Machine};
ghost use Rattle.rl_sessions.specs.SessionsValue.{started};
ghost use Rattle.rl_sessions.specs.Whole.{HasRun, PiecesRunOn, EndsRunOut};

/// The calls of a session over all its pieces and its end, with the answers that they got, are those of one run from
/// the start of its entry over all bytes of its input, and the session stands where that run stands.
pub fn sessions_run_from_their_start()
    ensures start { (m : Machine ℕ) (settings : Settings) (entry : ℕ) (name : List ℕ) → 0 < m.width →
        HasRun m settings entry [] [] (started name (m.entry entry)) }
    ensures pieces { (m : Machine ℕ) (step : ℕ → Call → Answer → ℕ → Bool) → 0 < m.width → IsKinded m →
        PiecesRunOn (λ h c x k. IsTrue (step h c x k)) m }
    ensures ends { (m : Machine ℕ) (step : ℕ → Call → Answer → ℕ → Bool) → 0 < m.width → IsKinded m →
        EndsRunOut (λ h c x k. IsTrue (step h c x k)) m }
{}
