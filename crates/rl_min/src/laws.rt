//! Laws of the machine with the fewest states. Each function does nothing: its contract is the law, which is proved.
ghost use Rattle.std.specs.Prelude.{◌≡◌, ℕ, List, ◌≤◌, length};
ghost use Rattle.rl_fsm.specs.declared.root.EntryFsm.{EntryFsm};
ghost use Rattle.rl_model.specs.Parts.{Context};
ghost use Rattle.rl_minimal.specs.Minimal.{Minimal, kind_at, home_at};
ghost use Rattle.rl_minimal.specs.Sound.{IsMinimal};
ghost use Rattle.rl_min.specs.Least.{IsLeastOf};
ghost use Rattle.rl_min.specs.Fewest.{HaveAlikeEntries};

/// No machine whose entries are alike to those of the machine that `minimise` makes, one by one, has fewer states (this
/// profile).
pub fn no_machine_has_fewer_states()
    ensures { (entries : List EntryFsm) (m : Minimal) → IsLeastOf entries m → IsMinimal m →
        (other : Minimal) → IsMinimal other → (context : Context) →
        HaveAlikeEntries (length entries) m other context → length m.states ≤ length other.states }
{}

/// In the machine that `minimise` makes the start of each scanner, whose kind is 1, is its own home (this profile).
pub fn starts_are_own_homes()
    ensures { (entries : List EntryFsm) (m : Minimal) → IsLeastOf entries m →
        (i : ℕ) → kind_at m.states i ≡ 1 → home_at m.states i ≡ i }
{}
