// Laws of runs.
ghost use Rattle.std.specs.Prelude.{ℕ, Bool, IsTrue};
ghost use Rattle.rl_run.specs.Machine.{Machine};
ghost use Rattle.rl_run.specs.Laws.{IsContinued, IsStoppedForGood, IsStandingThere, IsDescending};
ghost use Rattle.rl_run.specs.Twin.{IsTwin, After};
ghost use Rattle.rl_run.specs.Alike.{MakeSameRuns};
ghost use Rattle.rl_run.specs.Classes.{AreReached, AreClasses, InClass, quotient};

/// A run on an input that is not ended is continued by a run on the same or a longer one, ended or not, with more
/// answers: where it wants more it goes on from its session, where it stopped it is the same, and where it stands
/// before a call it stands there too until there is an answer.
pub fn runs_are_continued()
    ensures goes_on { (m : Machine ℕ) → IsContinued m }
    ensures stays { (m : Machine ℕ) → IsStoppedForGood m }
    ensures stands { (m : Machine ℕ) → IsStandingThere m }
{}

/// Each turn that does not stop lowers, in lexicographic order, what is left up to the greatest position, of goings
/// back, of the open token, and up to the next position.
pub fn turns_descend()
    ensures { (m : Machine ℕ) → IsDescending m }
{}

/// Two machines whose look-ups agree at states that stand for each other make the same runs, but for the numbers of
/// actions, and end in states that stand for each other.
pub fn twins_make_same_runs()
    ensures { (m w : Machine ℕ) (rename : ℕ → ℕ) (stands : ℕ → ℕ → Bool) →
        IsTwin m w rename (λ q p. IsTrue (stands q p)) → MakeSameRuns m w rename (λ q p. IsTrue (stands q p)) }
{}

/// A twin of a twin is a twin.
pub fn twins_compose()
    ensures { (m w v : Machine ℕ) (rename again : ℕ → ℕ) (stands follows : ℕ → ℕ → Bool) →
        IsTwin m w rename (λ q p. IsTrue (stands q p)) → IsTwin w v again (λ q p. IsTrue (follows q p)) →
        IsTwin m v (λ a. again (rename a)) (After (λ q p. IsTrue (stands q p)) (λ q p. IsTrue (follows q p))) }
{}

/// The machine that has one state for each class of alike states is a twin.
pub fn classes_are_twins()
    ensures { (m : Machine ℕ) (reached : ℕ → Bool) (class state : ℕ → ℕ) →
        AreReached m (λ q. IsTrue (reached q)) → AreClasses m (λ q. IsTrue (reached q)) class state →
        IsTwin m (quotient m class state) (λ a. a) (InClass m class (λ q. IsTrue (reached q))) }
{}
