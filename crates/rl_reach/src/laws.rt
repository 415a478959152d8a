//! Laws of numbers. Each function does nothing: its contract is the law, which is proved.
ghost use Rattle.std.specs.Prelude.{List};
ghost use Rattle.rl_types.specs.declared.alphabet.Alphabet.{Alphabet};
ghost use Rattle.rl_fsm.specs.declared.root.EntryFsm.{EntryFsm};
ghost use Rattle.rl_model.specs.Parts.{Context};
ghost use Rattle.rl_minimal.specs.Minimal.{Minimal};
ghost use Rattle.rl_minimal.specs.Sound.{IsMinimal};
ghost use Rattle.rl_reach.specs.Canonical.{IsMachineOf};
ghost use Rattle.rl_reach.specs.Laws.{BeginIn, AreNumbered};

/// Over an alphabet that has the first key of each edge, the numbers of a machine that the entries make are those of a
/// breadth-first walk by letters: from the entries in text order, by ascending key and then truths. Where two states
/// have the same number exactly where they are alike, they are the canonical numbers (this profile).
pub fn numbers_follow_letters()
    ensures { (entries : List EntryFsm) (alphabet : Alphabet) (context : Context) (m : Minimal) (is : IsMachineOf entries m) →
        IsMinimal m → BeginIn alphabet m → AreNumbered entries alphabet context m is }
{}
